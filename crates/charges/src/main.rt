// Scans text 2 of the rules' marked case 10 three times in turn, charged to one allowance, then once at its cap and once above it. It writes a line for each
// answer: refusal, count, number of records, the records: ` ; NUMBER FIRST AFTER BITS START END`, and what is then used: ` used N`.
//
// The expected lines, in stdout, are not this code's: antt computes them from the definitions `allowed`, `allowed_results` and `charged` of the crate allowance
// (proofs/Expected.antt, `charges_hold`, one equation by `refl`). Assumes nothing but the C library's write.
#![tactic(auto)]

use allowance_job::scan_within;
use answers_c::NoteScanned;
use rules::{Limits, Mode, RECORD_WIDTH};
use telling::{print, print_count, print_number, print_records};

// Room for a text of 128 bytes and the records of ten passes.
fn byte_area() -> [u8; 1088] {
    [0; 1088]
}

fn word_area() -> [u32; 1600] {
    [0; 1600]
}

fn results_area() -> [u32; 20 * RECORD_WIDTH] {
    [0; 20 * RECORD_WIDTH]
}

// An answer, without the end of its line.
fn tell_answer(answer: NoteScanned, results: &[u32]) {
    print_number(answer.refusal);
    print(b" ");
    print_count(answer.count);
    print(b" ");
    print_number(answer.records);
    print_records(results, answer.records);
}

// Tells the scan of text 2, charged to an allowance, and hands back what is then used. No second book is lent.
fn charged(cap: u64, used: u64) -> u64 {
    let mut area = byte_area();
    let mut words = word_area();
    let mut results = results_area();
    let limits = Limits {
        threshold: 0.9,
        shallow: 0.99,
    };
    let spent = scan_within(
        b"copyright 20xx me irl\x0a// My First License\x0afn hello() {\x0a ...",
        b"\x01\x00\x00\x00\x01\x00A-\x00\x00\x00\x02\x00\x02\x00\x00\x00\x02\x00\x00\x00\x01\x00\x00\x00\x0d\x00\x00\x00first license\x01\x00\x00\x00\x08\x00\x00\x00my first",
        None,
        limits,
        Mode::Elimination(true, 10),
        cap,
        used,
        &mut area,
        &mut words,
        &mut results,
    );
    tell_answer(NoteScanned::from(spent.answer), &results);
    print(b" used ");
    print_count(spent.used);
    print(b"\x0a");
    spent.used
}

fn main() {
    let first = charged(50, 0);
    let next = charged(50, first);
    charged(50, next);
    charged(5, 5);
    charged(5, 6);
}
