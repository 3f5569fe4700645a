// Answers recorded questions as the original does (oracle/README.md): its input holds the questions, and what it must write the original's own
// answers. Each is answered by the proved functions; of a text 2,048 bytes are read, and any other line gets no answer.
// Assumes nothing but the C library's read and write.
#![tactic(auto)]

ghost use Rattle.std.specs.Prelude.{◌≤◌};

mod areas;
mod named;
mod scans;

use crate::areas::{
    RESULTS, body_area, book_area, byte_area, input, out_area, results_area, text_area, word_area,
};
use crate::scans::answer_scans;
use questions::fields::number_at;
use questions::words::mark_at;
use rules::EDITION_FIRST;
use slices::class::class_table;
use slices_order::starts_with;

// A question on texts alone: lines, a view, a table or a score. One of the four answers it, and the others write nothing.
fn answer_texts(
    line: &[u8],
    text: &mut [u8; 2048],
    licence: &mut [u8; 2048],
    area: &mut [u8; 16448],
    words: &mut [u32; 24640],
    body: &mut [u8; 49152],
    edition: u32,
) {
    let class = class_table(edition);
    let mut out = out_area();
    let lines = replay_lines::answer(&class, line, text, area, words, &mut out, edition);
    io::write_all(1, &out[..lines]);
    let view = replay_views::answer(&class, line, text, area, words, &mut out, edition);
    io::write_all(1, &out[..view]);
    let table = replay_tables::answer(line, text, area, words, body, &mut out, edition);
    io::write_all(1, &out[..table]);
    let score = replay_scores::answer(
        &class, line, text, licence, area, words, body, &mut out, edition,
    );
    io::write_all(1, &out[..score]);
}

// A line `edition N` says how the lines behind it are answered, and gets no answer.
fn edition_after(line: &[u8], edition: u32) -> u32 {
    if starts_with(line, 0, b"edition ") {
        return (number_at(line, 1) % 4294967296) as u32;
    }
    edition
}

// The answer to a line; answers where the book ends after it.
fn answer(
    line: &[u8],
    text: &mut [u8; 2048],
    licence: &mut [u8; 2048],
    book: &mut [u8; 65536],
    end: usize,
    area: &mut [u8; 16448],
    words: &mut [u32; 24640],
    body: &mut [u8; 49152],
    results: &mut [u32; RESULTS],
    edition: u32,
) -> usize
    requires { end ≤ 65536 }
    ensures { result ≤ 65536 }
{
    answer_texts(line, text, licence, area, words, body, edition);
    answer_scans(
        line, text, licence, book, end, area, words, results, edition,
    )
}

// Every question of the input, one after the other.
fn answer_all(all: &[u8]) {
    let mut text = text_area();
    let mut licence = text_area();
    let mut book = book_area();
    let mut area = byte_area();
    let mut words = word_area();
    let mut body = body_area();
    let mut results = results_area();
    let mut book_end = 0;
    let mut edition = EDITION_FIRST;
    let mut at = 0;
    // A while: a split at newlines would give one line more, behind the last.
    while at < all.len() {
        let end = mark_at(all, at, 10);
        edition = edition_after(&all[at..end], edition);
        book_end = answer(
            &all[at..end],
            &mut text,
            &mut licence,
            &mut book,
            book_end,
            &mut area,
            &mut words,
            &mut body,
            &mut results,
            edition,
        );
        at = end + 1;
    }
}

fn main() {
    let mut all = input();
    let n = io::read_full(0, &mut all);
    answer_all(&all[..n]);
}
