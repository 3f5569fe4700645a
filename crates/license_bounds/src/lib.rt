// The bounds search: each index is a view whose one bound moves, and every scoring is charged.
// From detection/license.rs of spdx 0.13.6 (Copyright 2018 Amazon.com, Inc. or its affiliates. All Rights Reserved.
// SPDX-License-Identifier: Apache-2.0), changed. Assumes nothing.
#![tactic(auto)]

ghost use Rattle.std.specs.Prelude.{◌≡◌, ◌+◌, ◌-◌, ◌≤◌, ◌<◌};
ghost use Rattle.rules.specs.Search.{higher, sweep_from, sweep, search};
ghost use Rattle.license_charge.specs.Pay.{pay, charged_of};
ghost use Rattle.preproc_table.specs.Entries.{lines_at};
ghost use Rattle.license_bounds.specs.Ready.{Working, Spans, Kept, OfBody, score_at, view_between};
ghost use Rattle.license_bounds.specs.Found.{Sought, Yields, BoundsPaid};

use license_charge::{Charged, Scorings, charge_exact};
use license_views::view_table;
use rules::{Bounds, Index, Value, View};

// Which bound of a view a search moves, and where the other stands.
#[derive(Clone, Copy)]
pub enum Moving {
    End(usize),
    Start(usize),
}

impl Moving {
    // The view whose one bound is fixed, and whose other, the end or the start, is i.
    #[tactic(auto, unfolding(crate::specs::Ready::view_between))]
    pub fn view_at(self, i: usize) -> View
        ensures { result ≡ view_between self i }
    {
        match self {
            Moving::End(start) => View { start, end: i },
            Moving::Start(end) => View { start: i, end },
        }
    }
}

// A search over one bound of a view, of a note of so many bytes and lines.
#[derive(Clone, Copy)]
pub struct Task {
    pub n: usize,
    pub lines: usize,
    pub moving: Moving,
}

// The scoring of index i, where one is left.
fn score_index(
    class: &[u8; 256],
    area: &mut [u8],
    words: &mut [u32],
    task: Task,
    body: &[u8],
    i: usize,
    left: Scorings,
) -> Option<Charged<Value>>
    requires working { Working task.n task.lines class.now area.old words.old body.now }
    requires spans { Spans task.lines task.moving i i }
    ensures found { OfBody body.now (λ s. result ≡ charged_of (pay (score_at (lines_at area.old words.old task.lines) s task.moving i) left.count)) }
    ensures kept { Kept task.n task.lines class.now area.old words.old area.new words.new body.now }
{
    if left.is_spent() {
        return None;
    }
    let v = task.moving.view_at(i);
    let n = task.n;
    let t = view_table(class, area, words, n, task.lines, v);
    Some(charge_exact(area, words, n, t, body, left))
}

// The higher of two, ties to the later.
#[tactic(auto, unfolding(rules::specs::Search::higher))]
fn higher_of(best: Index, next: Index) -> Index
    ensures { result ≡ higher best next }
{
    if best.value.score <= next.value.score {
        next
    } else {
        best
    }
}

// The indexes from `from` to `to` upwards, over the highest of those before.
fn sweep_from(
    class: &[u8; 256],
    area: &mut [u8],
    words: &mut [u32],
    task: Task,
    body: &[u8],
    from: usize,
    to: usize,
    highest: Index,
    budget: Scorings,
) -> Option<Charged<Index>>
    requires sought { Sought task class.now area.old words.old body.now from to }
    requires from_bound { from ≤ to + 1 }
    ensures { Yields task class.now area.old words.old area.new words.new body.now (λ f. sweep_from f (to + 1 - from) from highest) budget.count result }
{
    let mut best = highest;
    let mut left = budget;
    for i in from..=to {
        let next = score_index(class, area, words, task, body, i, left)?;
        left = next.left;
        let value = next.value;
        best = higher_of(best, Index { at: i, value });
    }
    Some(Charged { value: best, left })
}

// Each index from `from` to `to` upwards: the highest, ties to the later.
fn sweep_all(
    class: &[u8; 256],
    area: &mut [u8],
    words: &mut [u32],
    task: Task,
    body: &[u8],
    from: usize,
    to: usize,
    budget: Scorings,
) -> Option<Charged<Index>>
    requires sought { Sought task class.now area.old words.old body.now from to }
    requires from_le_to { from ≤ to }
    ensures { Yields task class.now area.old words.old area.new words.new body.now (λ f. sweep f (record { left = from; right = to })) budget.count result }
{
    let first = score_index(class, area, words, task, body, from, budget)?;
    let value = first.value;
    sweep_from(
        class,
        area,
        words,
        task,
        body,
        from + 1,
        to,
        Index { at: from, value },
        first.left,
    )
}

// One search, told by its task which bound moves: the range narrows by a third or more each turn, down to four indexes.
pub fn search_bound(
    class: &[u8; 256],
    area: &mut [u8],
    words: &mut [u32],
    task: Task,
    body: &[u8],
    from: usize,
    to: usize,
    budget: Scorings,
) -> Option<Charged<Index>>
    requires sought { Sought task class.now area.old words.old body.now from to }
    requires from_le_to { from ≤ to }
    ensures { Yields task class.now area.old words.old area.new words.new body.now (λ f. search f from to) budget.count result }
{
    let mut l = from;
    let mut r = to;
    let mut left = budget;
    // A while: the range narrows from either side.
    while 3 < r - l {
        let low = (2 * l + r) / 3;
        let high = (l + 2 * r) / 3;
        let a = score_index(class, area, words, task, body, low, left)?;
        let b = score_index(class, area, words, task, body, high, a.left)?;
        left = b.left;
        if b.value.score < a.value.score {
            r = high - 1;
        } else {
            l = low + 1;
        }
    }
    sweep_all(class, area, words, task, body, l, r, left)
}

// First the end over the view, then the start up to the new end.
pub fn find_bounds(
    class: &[u8; 256],
    area: &mut [u8],
    words: &mut [u32],
    n: usize,
    lines: usize,
    v: View,
    body: &[u8],
    budget: Scorings,
) -> Option<Charged<Bounds>>
    requires working { Working n lines class.now area.old words.old body.now }
    requires start_le_end { (v.start ≤ v.end) × (v.end ≤ lines) × (lines < 65538) }
    ensures { BoundsPaid n lines class.now area.old words.old area.new words.new body.now v budget.count result }
{
    let start = v.start;
    let up = Task {
        n,
        lines,
        moving: Moving::End(start),
    };
    let e = search_bound(class, area, words, up, body, start, v.end, budget)?;
    let after = e.value.at;
    let down = Task {
        n,
        lines,
        moving: Moving::Start(after),
    };
    let a = search_bound(class, area, words, down, body, start, after, e.left)?;
    let value = Bounds {
        first: a.value.at,
        after,
        value: a.value.value,
    };
    Some(Charged {
        value,
        left: a.left,
    })
}
