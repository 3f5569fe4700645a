// Scans a note from standard input, of at most 1,024 bytes, against the book of the rules' marked cases, and writes its licence, its
// ranges and the count of scorings as that document prints them for text 2. A refusal is one line `refusal N`.
// The recorded input is text 2, and the recorded output the rules' three lines. Assumes nothing but the C library's read and write.
#![tactic(auto)]

ghost use Rattle.std.specs.Prelude.{◌*◌, ◌≤◌, length};
ghost use Rattle.rules.specs.Sizes.{record_width};

use detection_check::check_book;
use detection_texts::texts::stored_at;
use rules::{Findings, Kind, Licence, Limits, Mode, RECORD_WIDTH, Refusal};
use scan_job::scan;
use telling::{print, print_bits, print_count, print_number, score_bits};

// The number of standard input.
const STDIN: i32 = 0;

// Room for a note and one byte more, which shows that it is too long; and the areas that a note of 1,024 bytes needs.
fn note_area() -> [u8; 1025] {
    [0; 1025]
}

fn byte_area() -> [u8; 8256] {
    [0; 8256]
}

fn word_area() -> [u32; 12352] {
    [0; 12352]
}

fn tell_refusal(refusal: Refusal) {
    print(b"refusal ");
    print_number(u32::from(refusal));
    print(b"\x0a");
}

// The bits of a score, and the line's end.
fn end_with_score(bits: u32) {
    print(b" ");
    print_bits(bits);
    print(b"\x0a");
}

fn tell_kind(kind: Kind) {
    match kind {
        Kind::Original => print(b" original"),
        Kind::Alternate => print(b" alternate"),
        Kind::Header => print(b" header"),
    }
}

// The licence that is named, or `none`.
fn tell_licence(name: [u8; 64], licence: Option<Licence>) {
    let Some(licence) = licence else {
        print(b"none");
        return;
    };
    print(&name[..licence.part.len]);
    tell_kind(licence.kind);
}

fn tell_overall(found: Findings) {
    print(b"overall ");
    tell_licence(found.name, found.licence);
    end_with_score(score_bits(found.value.score));
}

// The name and kind of a stored text. A record's number is below N, so no test here fails.
fn tell_text(book: &[u8], number: u32) {
    let Ok(texts) = check_book(book) else {
        return;
    };
    if texts <= number {
        return;
    }
    let text = stored_at(book, number);
    let a = text.name;
    let e = text.past;
    print(&book[a..e]);
    tell_kind(text.kind);
}

// One record: its lines, its text and its score, as the three lines have them.
fn tell_range(book: &[u8], numbers: &[u32])
    requires { record_width ≤ length numbers.now }
{
    print(b"range ");
    print_number(numbers[1]);
    print(b" ");
    print_number(numbers[2]);
    print(b" ");
    tell_text(book, numbers[0]);
    end_with_score(numbers[3]);
}

// So many records. There are no more than ten, so the test of the room never fails.
fn tell_ranges(book: &[u8], results: &[u32], records: u32)
    requires { 10 * record_width ≤ length results.now }
{
    for i in 0..10.min(records as usize) {
        tell_range(book, &results[RECORD_WIDTH * i..]);
    }
}

fn tell_count(count: u64) {
    print(b"scorings ");
    print_count(count);
    print(b"\x0a");
}

// The scan of the marked cases: elimination with optimize, ten passes, and no limit on the scorings.
fn tell_scan(note: &[u8], book: &[u8]) {
    let mut area = byte_area();
    let mut words = word_area();
    let mut results: [u32; 10 * RECORD_WIDTH] = [0; 10 * RECORD_WIDTH];
    let limits = Limits {
        threshold: 0.9,
        shallow: 0.99,
    };
    let mode = Mode::Elimination(true, 10);
    let budget = 18446744073709551615;
    let scanned = scan(
        note,
        book,
        limits,
        mode,
        budget,
        &mut area,
        &mut words,
        &mut results,
    );
    match scanned {
        Ok(found) if found.over_budget => tell_refusal(Refusal::Budget),
        Ok(found) => {
            tell_overall(found);
            tell_ranges(book, &results, found.records);
            tell_count(found.count);
        }
        Err(refusal) => tell_refusal(refusal),
    }
}

// A note of more than 1,024 bytes is too long for this program: refusal 1, as the rules number a text that is too long.
fn main() {
    let mut note = note_area();
    let n = io::read_full(STDIN, &mut note);
    if 1024 < n {
        tell_refusal(Refusal::TextLong);
        return;
    }
    tell_scan(
        &note[..n],
        b"\x01\x00\x00\x00\x01\x00A-\x00\x00\x00\x02\x00\x02\x00\x00\x00\x02\x00\x00\x00\x01\x00\x00\x00\x0d\x00\x00\x00first license\x01\x00\x00\x00\x08\x00\x00\x00my first",
    );
}
