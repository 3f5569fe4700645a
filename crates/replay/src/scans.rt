// Questions on bounds and scans: `clear` and `add NAME KIND TEXT` fill a book, `countbounds`, `counteliminate` and `countdown` ask.
// Any other line gets no answer. Assumes nothing but the C library's write.
ghost use Rattle.std.specs.Prelude.{◌≡◌, ◌≤◌, length};

use crate::areas::RESULTS;
use crate::named::tell_named;
use bounds_job::bounds_of;
use questions::fields::{number_at, text_at};
use questions::numbers::bits_of;
use questions::words::word_at;
use questions_fit::limits::limit_of;
use replay_books::{put_edition, put_name, put_text};
use rules::{Findings, Limits, Mode, Refusal, View};
use scan_job::scan;
use slices_order::starts_with;
use telling::{print, print_bits, print_count, print_number, print_records, score_bits};

// The 32 bits that word k is in hex.
fn bits_at(line: &[u8], k: usize) -> u32 {
    let w = word_at(line, k);
    let a = w.start;
    let e = w.end;
    bits_of(&line[a..e])
}

// Words 1 and 2 of a question on a scan.
fn limits_at(line: &[u8]) -> Limits {
    let threshold = limit_of(bits_at(line, 1));
    let shallow = limit_of(bits_at(line, 2));
    Limits { threshold, shallow }
}

// An original starts a licence, and its name goes before it.
fn begin(line: &[u8], kind: u64, book: &mut [u8], end: usize) -> usize
    requires { (end ≤ length book.old) × (length book.old ≤ 65536) }
    ensures { (end ≤ result) × (result ≤ length book.new) }
{
    if kind != 2 {
        return end;
    }
    put_name(line, 1, book, end)
}

// `add NAME KIND TEXT`: answers where the book ends.
fn add(
    line: &[u8],
    text: &mut [u8],
    book: &mut [u8],
    end: usize,
    area: &mut [u8],
    words: &mut [u32],
    edition: u32,
) -> usize
    requires { (end ≤ length book.old) × (length book.old ≤ 65536) × (length text.old ≡ 2048) }
    ensures { result ≤ length book.new }
{
    print(b"ok\x0a");
    let kind = number_at(line, 2);
    let n = text_at(line, 3, text);
    let at = begin(line, kind, book, end);
    put_text(
        &text[..n],
        (kind % 65536) as u16,
        book,
        at,
        area,
        words,
        edition,
    )
}

// `COUNT FIRST AFTER BITS` of text 0 of a book.
fn tell_bounds(text: &[u8], book: &[u8], v: View, area: &mut [u8], words: &mut [u32]) {
    let Ok(found) = bounds_of(text, book, v, 0, area, words) else {
        return;
    };
    print_count(found.count);
    print(b" ");
    print_number(found.first);
    print(b" ");
    print_number(found.after);
    print(b" ");
    print_bits(score_bits(found.value.score));
    print(b"\x0a");
}

// `countbounds START END TEXT LICENCE`: the licence's own book, under the name A, stands behind the other while it is asked about.
fn answer_bounds(
    line: &[u8],
    text: &mut [u8],
    licence: &mut [u8],
    book: &mut [u8],
    end: usize,
    area: &mut [u8],
    words: &mut [u32],
    edition: u32,
)
    requires { (end ≤ length book.old) × (length book.old ≤ 65536) × (length text.old ≡ 2048) × (length licence.old ≡ 2048) }
{
    let start = number_at(line, 1) as usize;
    let stop = number_at(line, 2) as usize;
    let n = text_at(line, 3, text);
    let m = text_at(line, 4, licence);
    let first = put_edition(book, end, edition);
    let at = put_name(b"41", 0, book, first);
    let past = put_text(&licence[..m], 2, book, at, area, words, edition);
    tell_bounds(
        &text[..n],
        &book[end..past],
        View { start, end: stop },
        area,
        words,
    );
}

// `REFUSAL COUNT BITS NAMED` and the records, of what is not refused before the scan.
fn tell_found(
    text: &[u8],
    book: &[u8],
    found: Findings,
    area: &mut [u8],
    words: &mut [u32],
    results: &[u32],
) {
    let bits = score_bits(found.value.score);
    let refusal = if found.over_budget {
        u32::from(Refusal::Budget)
    } else {
        0
    };
    print_number(refusal);
    print(b" ");
    print_count(found.count);
    print(b" ");
    print_bits(bits);
    print(b" ");
    tell_named(text, book, found.licence, found.name, bits, area, words);
    print_records(results, found.records);
    print(b"\x0a");
}

// The same of any scan: a refusal before it has counted and named nothing.
fn tell_scan(
    text: &[u8],
    book: &[u8],
    limits: Limits,
    mode: Mode,
    budget: u64,
    area: &mut [u8],
    words: &mut [u32],
    results: &mut [u32],
) {
    match scan(text, book, limits, mode, budget, area, words, results) {
        Ok(found) => tell_found(text, book, found, area, words, results),
        Err(refusal) => {
            print_number(u32::from(refusal));
            print(b" 0 00000000 none\x0a");
        }
    }
}

// `counteliminate THRESHOLD SHALLOW OPTIMIZE P BUDGET TEXT`.
fn answer_elimination(
    line: &[u8],
    text: &mut [u8],
    book: &[u8],
    area: &mut [u8],
    words: &mut [u32],
    results: &mut [u32],
)
    requires { length text.old ≡ 2048 }
{
    let limits = limits_at(line);
    let optimize = number_at(line, 3) == 1;
    let passes = (number_at(line, 4) % 65536) as u16;
    let budget = number_at(line, 5);
    let n = text_at(line, 6, text);
    let mode = Mode::Elimination(optimize, passes);
    tell_scan(&text[..n], book, limits, mode, budget, area, words, results);
}

// `countdown THRESHOLD SHALLOW STEP BUDGET TEXT`.
fn answer_top_down(
    line: &[u8],
    text: &mut [u8],
    book: &[u8],
    area: &mut [u8],
    words: &mut [u32],
    results: &mut [u32],
)
    requires { length text.old ≡ 2048 }
{
    let limits = limits_at(line);
    let mode = Mode::TopDown(number_at(line, 3));
    let budget = number_at(line, 4);
    let n = text_at(line, 5, text);
    tell_scan(&text[..n], book, limits, mode, budget, area, words, results);
}

// A question on the book, which it leaves as it is up to its end.
fn ask(
    line: &[u8],
    text: &mut [u8; 2048],
    licence: &mut [u8; 2048],
    book: &mut [u8],
    end: usize,
    area: &mut [u8; 16448],
    words: &mut [u32; 24640],
    results: &mut [u32; RESULTS],
    edition: u32,
)
    requires { (end ≤ length book.old) × (length book.old ≤ 65536) }
{
    if starts_with(line, 0, b"countbounds ") {
        answer_bounds(line, text, licence, book, end, area, words, edition);
        return;
    }
    if starts_with(line, 0, b"counteliminate ") {
        answer_elimination(line, text, &book[..end], area, words, results);
        return;
    }
    if starts_with(line, 0, b"countdown ") {
        answer_top_down(line, text, &book[..end], area, words, results);
    }
}

// The answer to a line; answers where the book ends after it.
pub fn answer_scans(
    line: &[u8],
    text: &mut [u8; 2048],
    licence: &mut [u8; 2048],
    book: &mut [u8; 65536],
    end: usize,
    area: &mut [u8; 16448],
    words: &mut [u32; 24640],
    results: &mut [u32; RESULTS],
    edition: u32,
) -> usize
    requires { end ≤ 65536 }
    ensures { result ≤ 65536 }
{
    if starts_with(line, 0, b"clear") {
        print(b"ok\x0a");
        return put_edition(book, 0, edition);
    }
    if starts_with(line, 0, b"add ") {
        return add(line, text, book, end, area, words, edition);
    }
    ask(
        line, text, licence, book, end, area, words, results, edition,
    );
    end
}
