// The scorings left of a budget, and the one function that scores: it charges.
// From detection/license.rs of spdx 0.13.6 (Copyright 2018 Amazon.com, Inc. or its affiliates. All Rights Reserved.
// SPDX-License-Identifier: Apache-2.0), changed: `match_score`. Assumes nothing.
#![tactic(auto)]

ghost use Rattle.std.specs.Prelude.{◌≡◌, true, ◌-◌, ◌<◌};
ghost use Rattle.rules.specs.Table.{value_of};
ghost use Rattle.rules.specs.Book.{shaped, entries_of};
ghost use Rattle.floors.specs.Floors.{Judged};
ghost use Rattle.license_charge.specs.Pay.{Spent};
ghost use Rattle.license_views.specs.Tabled.{Tabled, table_over};
ghost use Rattle.detection_shelf.specs.Bodies.{table_of_body};

use floors::Floor;
use license_views::Viewed;
use ngram_meet::scoring;
use ngram_table::TableSize;
use preproc_table::table_end;
use rules::Value;

// The scorings that a budget still pays. Its number is private, so no code elsewhere counts: one comes from `Scorings::of`, where a job begins, or
// from `charge`, one less. That a function hands on what its last scoring left, and not an older one that it still holds, is in its contract.
#[derive(Clone, Copy)]
pub struct Scorings {
    count: u64,
}

impl Scorings {
    // All that a budget pays: made once, by the job.
    pub fn of(budget: u64) -> Scorings
        ensures { result ≡ record { count = budget } }
    {
        Scorings { count: budget }
    }

    // Whether none is left.
    pub fn is_spent(self) -> bool
        ensures { Spent self result }
    {
        self.count == 0
    }

    // How many are left, for an answer: nothing is charged to a number.
    pub fn count(self) -> u64
        ensures { result ≡ self.count }
    {
        self.count
    }
}

// What was paid for, and the scorings left. Where a budget may not pay it all, functions yield an `Option` of it: at `None` the budget is out.
#[derive(Clone, Copy)]
pub struct Charged<T> {
    pub value: T,
    pub left: Scorings,
}

// The one place where a scoring is made: it takes one of the scorings left, also where it ends early since the floor cannot be beaten.
pub fn charge(
    area: &[u8],
    words: &[u32],
    n: usize,
    t: Viewed,
    body: &[u8],
    floor: Floor,
    left: Scorings,
) -> Charged<Value>
    requires tabled { Tabled n area.now words.now t }
    requires body_value { shaped body.now (entries_of body.now) ≡ true }
    requires count_nonzero { 0 < left.count }
    ensures value { Judged floor (value_of (table_over area.now t) (table_of_body body.now)) result.value }
    ensures left { result.left.count ≡ left.count - 1 }
{
    let start = t.start;
    let end = t.end;
    let from = table_end(n);
    let size = TableSize {
        total: t.total,
        distinct: t.distinct,
    };
    let value = scoring(&area[start..end], &words[from..], size, body, floor);
    let count = left.count - 1;
    Charged {
        value,
        left: Scorings { count },
    }
}

// The same with nothing to beat, so the value itself.
pub fn charge_exact(
    area: &[u8],
    words: &[u32],
    n: usize,
    t: Viewed,
    body: &[u8],
    left: Scorings,
) -> Charged<Value>
    requires tabled { Tabled n area.now words.now t }
    requires body_value { shaped body.now (entries_of body.now) ≡ true }
    requires count_nonzero { 0 < left.count }
    ensures value { result.value ≡ value_of (table_over area.now t) (table_of_body body.now) }
    ensures left { result.left.count ≡ left.count - 1 }
{
    charge(area, words, n, t, body, Floor::lowest(), left)
}
