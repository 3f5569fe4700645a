// What the job `scan` finds: the licence that is named, where its name stands, its kind, and the numbers of the run.
// From detection/scan.rs of spdx 0.13.6 (Copyright 2018 Amazon.com, Inc. or its affiliates. All Rights Reserved.
// SPDX-License-Identifier: Apache-2.0), changed: `ScanResult`, with a budget. Assumes nothing.
#![tactic(auto)]

ghost use Rattle.std.specs.Prelude.{◌≡◌, ◌≤◌, ◌-◌, Ok, IfSome, replicate};
ghost use Rattle.rules.specs.Sizes.{name_most};
ghost use Rattle.rules.specs.Told.{scanned_told};
ghost use Rattle.detection_shelf.specs.Shelves.{shelf, book_in};
ghost use Rattle.rules.specs.Jobs.{over};
ghost use Rattle.scan_elimination.specs.Ended.{NameFits};
ghost use Rattle.scan_answer.specs.Answers.{held_for, stored_held, HeldFits, LicenceHeld, value_for, left_count, answer_for};

use detect_best::Best;
use detection_shelf::Shelved;
use detection_texts::names::name_in;
use license_charge::Scorings;
use rules::{Findings, Licence, Limits, NAME_MOST, Named, Value};
use scan_elimination::Outcome;
use scan_limits::names;

// The text that is named, where one is.
fn named_text(limits: Limits, best: Option<Best>) -> Option<Shelved>
    ensures { result ≡ held_for limits best }
{
    match best {
        Some(best) if names(limits, best) => Some(best.text),
        _ => None,
    }
}

// Its kind, and where its name stands.
fn licence_of(named: Option<Shelved>) -> Option<Licence>
    requires { IfSome named (λ t. (t.text.name ≤ t.text.past) × (t.text.past - t.text.name ≤ name_most)) }
    ensures { LicenceHeld named result }
{
    let held = named?;
    let text = held.text;
    let part = Named {
        second: held.second,
        at: text.name,
        len: text.past - text.name,
    };
    Some(Licence {
        kind: text.kind,
        part,
    })
}

fn book_held<'a>(book: &'a [u8], second: &'a [u8], in_second: bool) -> &'a [u8]
    ensures { result.now ≡ book_in (shelf book.now second.now) in_second }
{
    if in_second { second } else { book }
}

// Its name, zero-filled: none has no bytes.
fn name_of(book: &[u8], second: &[u8], named: Option<Shelved>) -> [u8; NAME_MOST]
    requires { HeldFits (shelf book.now second.now) named }
    ensures { result ≡ over (stored_held (shelf book.now second.now) named).name (replicate name_most 0) }
{
    match named {
        Some(held) => {
            let text = held.text;
            let from = book_held(book, second, held.second);
            let name = name_in(from, text.name, text.past);
            name.bytes
        }
        None => [0; NAME_MOST],
    }
}

fn value_of(best: Option<Best>) -> Value
    ensures { result ≡ value_for best }
{
    match best {
        Some(best) => best.value,
        None => Value {
            score: 0.0,
            m: 0,
            t: 0,
        },
    }
}

// The scorings left: none where the budget was out.
fn count_left(left: Option<Scorings>) -> u64
    ensures { result ≡ left_count left }
{
    match left {
        Some(left) => left.count(),
        None => 0,
    }
}

// What a scan that began with `budget` scorings found.
pub fn answer(book: &[u8], second: &[u8], limits: Limits, outcome: Outcome, budget: u64) -> Findings
    requires name_fits { IfSome outcome.best (λ b. NameFits (shelf book.now second.now) b.text) }
    requires left_le_budget { left_count outcome.run.left ≤ budget }
    ensures { scanned_told (Ok result) ≡ answer_for (shelf book.now second.now) limits budget outcome }
{
    let run = outcome.run;
    let named = named_text(limits, outcome.best);
    let name = name_of(book, second, named);
    Findings {
        licence: licence_of(named),
        name,
        value: value_of(outcome.best),
        count: budget - count_left(run.left),
        records: run.records,
        over_budget: run.left.is_none(),
    }
}
