// What the job `bounds` finds, made of what a search found; where its budget was out, nothing.
// From detection/license.rs of spdx 0.13.6 (Copyright 2018 Amazon.com, Inc. or its affiliates. All Rights Reserved.
// SPDX-License-Identifier: Apache-2.0), changed: the pair that `optimize_bounds` hands back, with the count. Assumes nothing.
#![tactic(auto)]

ghost use Rattle.std.specs.Prelude.{◌≡◌, Ok};
ghost use Rattle.rules.specs.Told.{bounded_told};
ghost use Rattle.bounds_answer.specs.Answers.{answer_for, FitsAnswer};

use license_charge::Charged;
use rules::{Bounds, Located, Value};

// No lines, and nothing shared of nothing.
const NOWHERE: Located = Located {
    first: 0,
    after: 0,
    value: Value {
        score: 0.0,
        m: 0,
        t: 0,
    },
    count: 0,
};

// What a search that began with `budget` scorings found. It never fails: where the budget was out it is nothing, at no cost.
pub fn answer(found: Option<Charged<Bounds>>, budget: u64) -> Located
    requires { FitsAnswer found budget }
    ensures { bounded_told (Ok result) ≡ answer_for found budget }
{
    let Some(charged) = found else {
        return NOWHERE;
    };
    let bounds = charged.value;
    Located {
        first: bounds.first as u32,
        after: bounds.after as u32,
        value: bounds.value,
        count: budget - charged.left.count(),
    }
}
