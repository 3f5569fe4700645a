// Where the lines of a range stand in the note, in bytes, and a record of the range with these places in the results area.
// From detection/scan.rs of spdx 0.13.6 (Copyright 2018 Amazon.com, Inc. or its affiliates. All Rights Reserved.
// SPDX-License-Identifier: Apache-2.0), changed: its vector of matches is a lent area of numbers, and has places (added). Assumes nothing.
#![tactic(auto)]

ghost use Rattle.std.specs.Prelude.{◌≡◌, cond, [], ◌∷◌, ◌++◌, ◌+◌, ◌*◌, ◌≤◌, ◌<◌, T, length, take, drop};
ghost use Rattle.rules.specs.Bytes.{newline};
ghost use Rattle.rules.specs.Lines.{line_start, range_end};
ghost use Rattle.rules.specs.Refusal.{unit};
ghost use Rattle.rules.specs.Scan.{six};
ghost use Rattle.rules.specs.Sizes.{text_most, record_width};

use rules::{Bounds, RECORD_WIDTH};
use slices::lead::line_len;

// A line of the note, and the byte where it starts.
#[derive(Clone, Copy)]
pub struct Mark {
    pub line: usize,
    pub at: usize,
}

// Where a range starts and where it ends.
#[derive(Clone, Copy)]
struct Places {
    start: usize,
    end: usize,
}

// The first line starts where the text does.
pub fn first_mark() -> Mark
    ensures { (result.line ≡ 0) × (result.at ≡ 0) }
{
    Mark { line: 0, at: 0 }
}

// How many lines a byte ends.
#[tactic(auto, unfolding(rules::specs::Bytes::newline))]
fn newlines(b: u8) -> usize
    ensures { result ≡ cond (newline b) 1 0 }
{
    usize::from(b == 10)
}

// The byte where the k-th line behind `at` starts, and the text's end where there are fewer. Each byte on the way is read once.
fn line_on(text: &[u8], at: usize, k: usize) -> usize
    requires { at ≤ length text.now }
    ensures { result ≡ at + line_start k (drop at text.now) }
{
    let mut left = k;
    for place in at..text.len() {
        if left == 0 {
            return place;
        }
        left -= newlines(text[place]);
    }
    text.len()
}

// From a line before the range, or its first: an empty range is where its line starts, any other ends before the newline of its last line.
fn places_from(text: &[u8], from: Mark, range: Bounds) -> Places
    requires at_value { from.at ≡ line_start from.line text.now }
    requires line_le_first { (from.line ≤ range.first) × (range.first ≤ range.after) }
    ensures { (result.start ≡ line_start range.first text.now) × (result.end ≡ range_end range.first range.after text.now) }
{
    let start = line_on(text, from.at, range.first - from.line);
    if range.first == range.after {
        return Places { start, end: start };
    }
    let last = line_on(text, start, range.after - 1 - range.first);
    Places {
        start,
        end: last + line_len(text, last),
    }
}

// The line after the range is a gap: the byte where the line behind it starts.
pub fn past_gap(text: &[u8], range: Bounds, end: usize) -> usize
    requires first_le_after { range.first ≤ range.after }
    requires end_value { end ≡ range_end range.first range.after text.now }
    ensures { result ≡ line_start (range.after + 1) text.now }
{
    if range.first == range.after {
        return line_on(text, end, 1);
    }
    line_on(text, end, 2)
}

// A record's numbers go to their place.
fn put_six(results: &mut [u32], at: usize, numbers: [u32; RECORD_WIDTH])
    requires { at + record_width ≤ length results.old }
    ensures { results.new ≡ take at results.old ++ numbers ++ drop (at + record_width) results.old }
{
    results[at..at + RECORD_WIDTH].copy_from_slice(&numbers);
}

// Record k: the stored number, the first line, the line after the last, the score's bits, and where these lines start and end, from a line on
// that is known. Gives the byte where they end.
pub fn put_record(
    text: &[u8],
    from: Mark,
    results: &mut [u32],
    k: u32,
    number: u32,
    range: Bounds,
) -> usize
    requires text_len_bound { length text.now ≤ text_most }
    requires at_value { from.at ≡ line_start from.line text.now }
    requires line_le_first { (from.line ≤ range.first) × (range.first ≤ range.after) }
    requires after_bound { (range.after < 4294967296) × T (unit range.value.score) }
    requires record_width_in_bounds { record_width * k + record_width ≤ length results.old }
    ensures { (result ≡ range_end range.first range.after text.now) × (results.new ≡ take (record_width * k) results.old ++ six text.now number range ++ drop (record_width * k + record_width) results.old) }
{
    let places = places_from(text, from, range);
    let first = range.first as u32;
    let after = range.after as u32;
    let bits = f32::to_bits(range.value.score);
    let start = places.start as u32;
    let end = places.end as u32;
    let at = RECORD_WIDTH * k as usize;
    put_six(results, at, [number, first, after, bits, start, end]);
    places.end
}
