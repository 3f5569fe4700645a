// Runs the scan, the score and the bounds over two lent books, in each arrangement that matters: whose text wins, whose name it is and where it
// stands, whose edition it is, and what is refused. A line for each scan: refusal, count, kind; then the name's part, by book, place and length, and its bytes as
// `name_part` hands them back. A line for each score (refusal, bits) and bounds (refusal, first line, line after last, bits, count).
//
// The expected lines, in stdout, are not this code's: antt computes them from the definitions of the crate rules (proofs/Expected.antt,
// `lines_hold`, one equation by `refl`). Assumes nothing but the C library's write.
#![tactic(auto)]

use answers_c::{BoundsFound, NoteScanned, ViewScored};
use bounds_job::bounds_both;
use detection_part::name_part;
use rules::{Limits, Mode, Named, View};
use scan_job::{scan, scan_both};
use score_job::score_both;
use telling::{print, print_bits, print_count, print_number, score_bits};

// Room for a text of 32 bytes, and for no record.
fn byte_area() -> [u8; 320] {
    [0; 320]
}

fn word_area() -> [u32; 448] {
    [0; 448]
}

fn results_area() -> [u32; 0] {
    [0; 0]
}

fn print_flag(flag: bool) {
    if flag {
        print(b" 1 ");
        return;
    }
    print(b" 0 ");
}

// Where a name stands, and its bytes there.
fn tell_part<'a>(first: &'a [u8], second: &'a [u8], part: Named) {
    print_flag(part.second);
    print_count(part.at as u64);
    print(b" ");
    print_count(part.len as u64);
    print(b" ");
    print(name_part(first, second, part));
    print(b"\x0a");
}

fn tell_answer<'a>(first: &'a [u8], second: &'a [u8], answer: NoteScanned) {
    print_number(answer.refusal);
    print(b" ");
    print_count(answer.count);
    print(b" ");
    print_number(answer.kind);
    let part = Named {
        second: answer.second,
        at: answer.at,
        len: answer.len as usize,
    };
    tell_part(first, second, part);
}

fn limits() -> Limits {
    Limits {
        threshold: 0.5,
        shallow: 0.5,
    }
}

// Elimination over two books.
fn tell_both<'a>(note: &[u8], first: &'a [u8], second: &'a [u8], budget: u64) {
    let mut area = byte_area();
    let mut words = word_area();
    let mut results = results_area();
    let mode = Mode::Elimination(false, 0);
    let answer = scan_both(
        note,
        first,
        second,
        limits(),
        mode,
        budget,
        &mut area,
        &mut words,
        &mut results,
    );
    tell_answer(first, second, NoteScanned::from(answer));
}

// Elimination over one: its name's part is of this book.
fn tell_alone(note: &[u8], book: &[u8]) {
    let mut area = byte_area();
    let mut words = word_area();
    let mut results = results_area();
    let mode = Mode::Elimination(false, 0);
    let answer = scan(
        note,
        book,
        limits(),
        mode,
        9,
        &mut area,
        &mut words,
        &mut results,
    );
    tell_answer(book, &book[..0], NoteScanned::from(answer));
}

// The whole note, of one line, against stored text k.
fn tell_view<'a>(note: &[u8], first: &'a [u8], second: &'a [u8], k: u32) {
    let mut area = byte_area();
    let mut words = word_area();
    let v = View { start: 0, end: 1 };
    let scored = ViewScored::from(score_both(note, first, second, v, k, &mut area, &mut words));
    print_number(scored.refusal);
    print(b" ");
    print_bits(score_bits(scored.score));
    print(b" ");
    let found = BoundsFound::from(bounds_both(note, first, second, v, k, &mut area, &mut words));
    print_number(found.refusal);
    print(b" ");
    print_number(found.first);
    print(b" ");
    print_number(found.after);
    print(b" ");
    print_bits(score_bits(found.score));
    print(b" ");
    print_count(found.count);
    print(b"\x0a");
}

// A and C have the note's words, B has others.
fn who_wins<'a>(note: &[u8], a: &'a [u8], b: &'a [u8], a_c: &'a [u8], b_c: &'a [u8]) {
    tell_both(note, a, b, 9);
    tell_both(note, b, a, 9);
    tell_both(note, a, a, 9);
    tell_both(note, b_c, a, 9);
    tell_both(note, b, a_c, 9);
    tell_both(note, &a[..0], a, 9);
    tell_both(note, a, &a[..0], 9);
}

// No text, a book that breaks off, a budget of one scoring; and a note that nothing matches.
fn nobody_wins<'a>(note: &[u8], a: &'a [u8], b: &'a [u8], broken: &'a [u8]) {
    tell_both(note, &a[..0], &b[..0], 9);
    tell_both(note, a, broken, 9);
    tell_both(note, &a[..0], broken, 9);
    tell_both(note, b, a, 1);
    tell_both(b"none of it", b, a, 9);
}

fn one_book(note: &[u8], a: &[u8], b_c: &[u8], broken: &[u8]) {
    tell_alone(note, a);
    tell_alone(note, b_c);
    tell_alone(note, &a[..0]);
    tell_alone(note, broken);
}

// Stored text 0 is B's, 1 is A's, and there is no 2.
fn one_text<'a>(note: &[u8], a: &'a [u8], b: &'a [u8]) {
    tell_view(note, b, a, 0);
    tell_view(note, b, a, 1);
    tell_view(note, b, a, 2);
}

fn all<'a>(note: &[u8], a: &'a [u8], b: &'a [u8], a_c: &'a [u8], b_c: &'a [u8], broken: &'a [u8]) {
    who_wins(note, a, b, a_c, b_c);
    nobody_wins(note, a, b, broken);
    one_book(note, a, b_c, broken);
    one_text(note, a, b);
}

// f: an edition 2 book of two licences that only the 4 tells apart; e: its first eight bytes, the edition alone. a is of edition 1, and so is a book of no
// bytes.
fn editions<'a>(a: &'a [u8], e: &'a [u8], f: &'a [u8]) {
    tell_alone(b"version now", f);
    tell_alone(b"version 4 now", f);
    tell_both(b"version now", f, f, 9);
    tell_both(b"version now", f, e, 9);
    tell_both(b"version now", f, a, 9);
    tell_both(b"version now", a, f, 9);
    tell_both(b"version now", f, &f[..0], 9);
    tell_both(b"version now", e, &f[..0], 9);
}

fn main() {
    all(
        b"My First License",
        b"\x01\x00\x00\x00\x01\x00A-\x00\x00\x00\x02\x00\x02\x00\x00\x00\x02\x00\x00\x00\x01\x00\x00\x00\x0d\x00\x00\x00first license\x01\x00\x00\x00\x08\x00\x00\x00my first",
        b"\x01\x00\x00\x00\x01\x00BL\x00\x00\x00\x02\x00\x04\x00\x00\x00\x04\x00\x00\x00\x01\x00\x00\x00\x0c\x00\x00\x00another text\x01\x00\x00\x00\x07\x00\x00\x00of some\x01\x00\x00\x00\x0a\x00\x00\x00some words\x01\x00\x00\x00\x07\x00\x00\x00text of",
        b"\x01\x00\x00\x00\x01\x00A-\x00\x00\x00\x02\x00\x02\x00\x00\x00\x02\x00\x00\x00\x01\x00\x00\x00\x0d\x00\x00\x00first license\x01\x00\x00\x00\x08\x00\x00\x00my first\x01\x00\x00\x00\x01\x00C-\x00\x00\x00\x02\x00\x02\x00\x00\x00\x02\x00\x00\x00\x01\x00\x00\x00\x0d\x00\x00\x00first license\x01\x00\x00\x00\x08\x00\x00\x00my first",
        b"\x01\x00\x00\x00\x01\x00BL\x00\x00\x00\x02\x00\x04\x00\x00\x00\x04\x00\x00\x00\x01\x00\x00\x00\x0c\x00\x00\x00another text\x01\x00\x00\x00\x07\x00\x00\x00of some\x01\x00\x00\x00\x0a\x00\x00\x00some words\x01\x00\x00\x00\x07\x00\x00\x00text of\x01\x00\x00\x00\x01\x00C-\x00\x00\x00\x02\x00\x02\x00\x00\x00\x02\x00\x00\x00\x01\x00\x00\x00\x0d\x00\x00\x00first license\x01\x00\x00\x00\x08\x00\x00\x00my first",
        b"\x01\x00\x00\x00\x01\x00A-\x00\x00\x00\x02\x00\x02\x00\x00\x00\x02\x00\x00\x00\x01\x00\x00\x00\x0d\x00\x00\x00first license\x01\x00\x00\x00\x08\x00\x00\x00my firs",
    );
    editions(
        b"\x01\x00\x00\x00\x01\x00A-\x00\x00\x00\x02\x00\x02\x00\x00\x00\x02\x00\x00\x00\x01\x00\x00\x00\x0d\x00\x00\x00first license\x01\x00\x00\x00\x08\x00\x00\x00my first",
        b"\x02\x00\x00\x00\x06\x00\x02\x00",
        b"\x02\x00\x00\x00\x06\x00\x02\x00\x02\x00\x00\x00\x01\x00G4&\x00\x00\x00\x02\x00\x02\x00\x00\x00\x02\x00\x00\x00\x01\x00\x00\x00\x05\x00\x00\x004 now\x01\x00\x00\x00\x09\x00\x00\x00version 4\x02\x00\x00\x00\x01\x00G5\x1b\x00\x00\x00\x02\x00\x01\x00\x00\x00\x01\x00\x00\x00\x01\x00\x00\x00\x0b\x00\x00\x00version now",
    );
}
