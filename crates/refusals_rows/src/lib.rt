// The rows of refusals that are tested by numbers alone: editions, areas, views, limits, results. In the rules' order.
// Added to spdx 0.13.6 (detection/scan.rs, Copyright 2018 Amazon.com, Inc. or its affiliates. All Rights Reserved.
// SPDX-License-Identifier: Apache-2.0), which refuses nothing. Assumes nothing.
#![tactic(auto)]

ghost use Rattle.std.specs.Prelude.{◌≡◌, ◌&&◌, ◌||◌, ◌≤◌, ltb, leb};
ghost use Rattle.rules.specs.Sizes.{text_most, lines_most};
ghost use Rattle.rules.specs.Refusal.{refusal, unit, step_zero, records_most, results_need};
ghost use Rattle.rules.specs.Told.{number_told};
ghost use Rattle.refusals_rows.specs.Rows.{small_for, compile_rows, view_rows, scan_rows};

use rules::{
    AREA_SPARE, Areas, BYTES_EACH, EDITION_FIRST, EDITION_MOST, Limits, Mode, RECORD_WIDTH,
    Refusal, View, WORDS_EACH,
};

fn small_areas(n: usize, areas: Areas) -> bool
    requires { n ≤ text_most }
    ensures { result ≡ small_for n areas }
{
    areas.bytes < BYTES_EACH * n + AREA_SPARE || areas.words < WORDS_EACH * n + AREA_SPARE
}

// Refusals 4 and 10 of compile, of a text of n bytes.
#[tactic(auto, unfolding(rules::specs::Refusal::refusal, rules::specs::Told::number_told, rules::specs::Bytes::within, crate::specs::Rows::compile_rows))]
pub fn refuse_compile(n: usize, edition: u32, areas: Areas) -> Result<(), Refusal>
    requires { n ≤ text_most }
    ensures { number_told result ≡ refusal (compile_rows n edition areas) }
{
    if edition < EDITION_FIRST || EDITION_MOST < edition {
        return Err(Refusal::BookUnsound);
    }
    if small_areas(n, areas) {
        return Err(Refusal::AreaSmall);
    }
    Ok(())
}

fn view_inside(v: View, lines: usize) -> bool
    ensures { result ≡ (leb v.start v.end && leb v.end lines) }
{
    v.start <= v.end && v.end <= lines
}

// Refusals 8 to 10, of a text of n bytes.
#[tactic(auto, unfolding(rules::specs::Refusal::refusal, rules::specs::Told::number_told, crate::specs::Rows::view_rows))]
pub fn refuse_view(
    n: usize,
    lines: usize,
    texts: u32,
    v: View,
    k: u32,
    areas: Areas,
) -> Result<(), Refusal>
    requires { n ≤ text_most }
    ensures { number_told result ≡ refusal (view_rows n lines texts v k areas) }
{
    if !view_inside(v, lines) {
        return Err(Refusal::View);
    }
    if texts <= k {
        return Err(Refusal::Number);
    }
    if small_areas(n, areas) {
        return Err(Refusal::AreaSmall);
    }
    Ok(())
}

// From 0.0 to 1.0, which no NaN is.
fn in_unit(x: f32) -> bool
    ensures { result ≡ unit x }
{
    (0.0..=1.0).contains(&x)
}

fn limits_in_unit(lim: Limits) -> bool
    ensures { result ≡ (unit lim.threshold && unit lim.shallow) }
{
    in_unit(lim.threshold) && in_unit(lim.shallow)
}

#[tactic(auto, unfolding(rules::specs::Refusal::step_zero))]
fn step_zero(mode: Mode) -> bool
    ensures { result ≡ step_zero mode }
{
    matches!(mode, Mode::TopDown(0))
}

// The most records that a scan can make. Above 0.0, which -0.0 is not, top-down's have lines and lie apart.
#[tactic(auto, unfolding(rules::specs::Refusal::records_most))]
fn records_most(lines: usize, lim: Limits, mode: Mode) -> usize
    requires { lines ≤ lines_most }
    ensures { (result ≡ records_most lines lim mode) × (result ≤ lines_most) }
{
    match mode {
        Mode::Elimination(true, passes) => usize::from(passes),
        Mode::Elimination(false, _) => 0,
        Mode::TopDown(_) if 0.0 < lim.threshold => (lines + 1) / 2,
        Mode::TopDown(_) => lines,
    }
}

// The numbers of these records.
#[tactic(auto, unfolding(rules::specs::Refusal::results_need))]
fn results_need(lines: usize, lim: Limits, mode: Mode) -> usize
    requires { lines ≤ lines_most }
    ensures { result ≡ results_need lines lim mode }
{
    RECORD_WIDTH * records_most(lines, lim, mode)
}

// Refusals 6, 7 and 10, of a text of n bytes.
#[tactic(auto, unfolding(rules::specs::Refusal::refusal, rules::specs::Told::number_told, crate::specs::Rows::scan_rows))]
pub fn refuse_scan(
    n: usize,
    lines: usize,
    lim: Limits,
    mode: Mode,
    areas: Areas,
    results: usize,
) -> Result<(), Refusal>
    requires { (n ≤ text_most) × (lines ≤ lines_most) }
    ensures { number_told result ≡ refusal (scan_rows n lines lim mode areas results) }
{
    if !limits_in_unit(lim) {
        return Err(Refusal::Limit);
    }
    if step_zero(mode) {
        return Err(Refusal::StepZero);
    }
    if small_areas(n, areas) || results < results_need(lines, lim, mode) {
        return Err(Refusal::AreaSmall);
    }
    Ok(())
}
