// Runs the scan of the rules' marked case 10 on text 2 with each budget that matters, and top-down over three copies of a licence with
// lines between, with the smallest and the largest step. It writes a line for each answer: refusal, count, number of records, and the
// records: ` ; NUMBER FIRST AFTER BITS START END`.
//
// The expected lines, in stdout, are not this code's: antt computes them from the definitions `scan` and `results_after` of the crate rules
// (proofs/Expected.antt, `lines_hold`, one equation by `refl`). Assumes nothing but the C library's write.
#![tactic(auto)]

use answers_c::NoteScanned;
use rules::{Limits, Mode, RECORD_WIDTH};
use scan_job::scan;
use telling::{print, print_count, print_number, print_records};

// Room for a text of 128 bytes and the records of ten passes, or of twenty lines.
fn byte_area() -> [u8; 1088] {
    [0; 1088]
}

fn word_area() -> [u32; 1600] {
    [0; 1600]
}

fn results_area() -> [u32; 20 * RECORD_WIDTH] {
    [0; 20 * RECORD_WIDTH]
}

// The answer to a scan, in one line.
fn tell(text: &[u8], limits: Limits, mode: Mode, budget: u64) {
    let mut area = byte_area();
    let mut words = word_area();
    let mut results = results_area();
    let answer = NoteScanned::from(scan(
        text,
        b"\x01\x00\x00\x00\x01\x00A-\x00\x00\x00\x02\x00\x02\x00\x00\x00\x02\x00\x00\x00\x01\x00\x00\x00\x0d\x00\x00\x00first license\x01\x00\x00\x00\x08\x00\x00\x00my first",
        limits,
        mode,
        budget,
        &mut area,
        &mut words,
        &mut results,
    ));
    print_number(answer.refusal);
    print(b" ");
    print_count(answer.count);
    print(b" ");
    print_number(answer.records);
    print_records(&results, answer.records);
    print(b"\x0a");
}

// Text 2: elimination with optimize, ten passes.
fn second_text(budget: u64) {
    let limits = Limits {
        threshold: 0.9,
        shallow: 0.99,
    };
    let mode = Mode::Elimination(true, 10);
    tell(
        b"copyright 20xx me irl\x0a// My First License\x0afn hello() {\x0a ...",
        limits,
        mode,
        budget,
    );
}

// Three copies, with a line between each two.
fn three_copies(step: u64, budget: u64) {
    let limits = Limits {
        threshold: 0.9,
        shallow: 1.0,
    };
    let mode = Mode::TopDown(step);
    tell(
        b"My First License\x0ax y\x0aMy First License\x0ax y\x0aMy First License",
        limits,
        mode,
        budget,
    );
}

fn main() {
    second_text(0);
    second_text(1);
    second_text(8);
    second_text(9);
    second_text(19);
    second_text(20);
    second_text(18446744073709551615);
    three_copies(1, 18446744073709551615);
    three_copies(1, 19);
    three_copies(18446744073709551615, 18446744073709551615);
}
