// Which stored text an answer names: the original's answer has its number, where a scan's has name, kind and score. The first text of that
// name and kind that scores so over the whole note is the one, since of equal scores and kinds the earliest wins. Assumes nothing.
ghost use Rattle.std.specs.Prelude.{◌≡◌, true, ◌<◌, length};
ghost use Rattle.rules.specs.Book.{stored, sound};

use detection_check::check_book;
use detection_edition::edition_of;
use detection_texts::texts::stored_at;
use preproc_test::test_text;
use rules::{Kind, Licence, View};
use score_job::score_view;
use slices_order::equal;
use telling::{print, print_number, score_bits};

// Stored text k is of this kind and name.
fn is_named(book: &[u8], k: u32, kind: Kind, name: &[u8]) -> bool
    requires { (sound book.now ≡ true) × (k < length (stored book.now)) }
{
    let text = stored_at(book, k);
    text.kind == kind && equal(&book[text.name..text.past], name)
}

// It scores so over all lines of the note.
fn scores_so(
    text: &[u8],
    book: &[u8],
    k: u32,
    bits: u32,
    area: &mut [u8],
    words: &mut [u32],
) -> bool {
    let Ok(end) = test_text(edition_of(book), text) else {
        return false;
    };
    let whole = View { start: 0, end };
    let Ok(value) = score_view(text, book, whole, k, area, words) else {
        return false;
    };
    score_bits(value.score) == bits
}

// Stored text k is named so and scores so.
fn is_text(
    text: &[u8],
    book: &[u8],
    k: u32,
    kind: Kind,
    name: &[u8],
    bits: u32,
    area: &mut [u8],
    words: &mut [u32],
) -> bool
    requires { (sound book.now ≡ true) × (k < length (stored book.now)) }
{
    is_named(book, k, kind, name) && scores_so(text, book, k, bits, area, words)
}

// The first text of all that is named so and scores so; their number where none is.
fn number_named(
    text: &[u8],
    book: &[u8],
    texts: u32,
    kind: Kind,
    name: &[u8],
    bits: u32,
    area: &mut [u8],
    words: &mut [u32],
) -> u32
    requires { (sound book.now ≡ true) × (texts ≡ length (stored book.now)) }
{
    for k in 0..texts {
        if is_text(text, book, k, kind, name, bits, area, words) {
            return k;
        }
    }
    texts
}

// The number of the text that is named, or `none`. A scan that names a text had a sound book: the test of that never fails.
pub fn tell_named(
    text: &[u8],
    book: &[u8],
    licence: Option<Licence>,
    name: [u8; 64],
    bits: u32,
    area: &mut [u8],
    words: &mut [u32],
) {
    let Some(licence) = licence else {
        print(b"none");
        return;
    };
    let Ok(texts) = check_book(book) else {
        return;
    };
    let k = number_named(
        text,
        book,
        texts,
        licence.kind,
        &name[..licence.part.len],
        bits,
        area,
        words,
    );
    print_number(k);
}
