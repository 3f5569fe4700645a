// Answers questions `lines TEXT` as the original does (oracle/README.md): the lines of the text, normalised, as UTF-8 in hex. Of a text
// 2,048 bytes are read; any other line gets no answer. Assumes that the lent table is that of the classes.
#![tactic(auto)]

ghost use Rattle.std.specs.Prelude.{◌≡◌, cond, ◌++◌, ◌+◌, ◌*◌, ◌<◌, ◌≤◌, ltb, length, take};
ghost use Rattle.lists.specs.Wrote.{Wrote, InFront};
ghost use Rattle.rules.specs.Points.{encoded};
ghost use Rattle.slices.specs.Classes.{class_table};
ghost use Rattle.questions.specs.Fields.{text_of};
ghost use Rattle.questions.specs.Hex.{hexed};
ghost use Rattle.preproc_table.specs.Entries.{lines_at, Apart};
ghost use Rattle.replay_lines.specs.Told.{told, answer_to, answer_of};

use points::encode::encode_in;
use preproc_lines::whole::normalise;
use preproc_table::{line_end, line_start};
use preproc_test::test_text;
use questions::fields::text_at;
use questions::hex::{put_byte, put_hex};
use slices::copy::put;
use slices_order::starts_with;

// What stands behind line i of so many: a space, and behind the last the newline.
fn mark_behind(i: usize, count: usize) -> u8
    requires { i < count }
    ensures { result ≡ cond (ltb (i + 1) count) 32 10 }
{
    if i + 1 < count { 32 } else { 10 }
}

// Room for a line as UTF-8, however long.
fn scratch_area() -> [u8; 32896] {
    [0; 32896]
}

// A line as UTF-8 in hex, by way of the scratch; answers where it ends.
fn put_line_hex(src: &[u8], scratch: &mut [u8], out: &mut [u8], to: usize) -> usize
    requires { (2 * length src.now ≤ length scratch.old) × (to + length (hexed (encoded src.now)) ≤ length out.old) }
    ensures { Wrote (take to out.old ++ hexed (encoded src.now)) out.old result out.new }
{
    let n = put(src, scratch, 0);
    let end = encode_in(scratch, 0, n);
    put_hex(&scratch[..end], out, to)
}

// All lines of the table in hex, written from the front; answers where they end.
fn put_lines(area: &[u8], table: &[u32], count: usize, scratch: &mut [u8], out: &mut [u8]) -> usize
    requires { (2 * length area.now ≤ length scratch.old) × (2 * count ≤ length table.now) × Apart 0 (length area.now) table.now count × (length (told (lines_at area.now table.now count)) ≤ length out.old) }
    ensures { Wrote (told (lines_at area.now table.now count)) out.old result out.new }
{
    let mut w = 0;
    for i in 0..count {
        let a = line_start(table, i);
        let e = line_end(table, i);
        let h = put_line_hex(&area[a..e], scratch, out, w);
        let mark = mark_behind(i, count);
        w = put_byte(mark, out, h);
    }
    w
}

// The answer to a text, written from the front; answers where it ends.
fn answer_text(
    class: &[u8; 256],
    text: &[u8],
    area: &mut [u8; 16448],
    table: &mut [u32; 24640],
    out: &mut [u8; 98305],
    edition: u32,
) -> usize
    requires { (class.now ≡ class_table edition) × (length text.now ≤ 2048) }
    ensures { InFront (answer_to edition text.now) result out.new }
{
    let Ok(_) = test_text(edition, text) else {
        return 0;
    };
    let count = normalise(class, text, area, table);
    let mut scratch = scratch_area();
    put_lines(area, table, count, &mut scratch, out)
}

// The answer to a question on lines, whose text is read into `text`.
fn answer_word(
    class: &[u8; 256],
    line: &[u8],
    text: &mut [u8],
    area: &mut [u8; 16448],
    table: &mut [u32; 24640],
    out: &mut [u8; 98305],
    edition: u32,
) -> usize
    requires { (class.now ≡ class_table edition) × (length text.old ≡ 2048) }
    ensures { InFront (answer_to edition (text_of 2048 1 line.now)) result out.new }
{
    let n = text_at(line, 1, text);
    answer_text(class, &text[..n], area, table, out, edition)
}

// The answer to a question, written from the front; answers where it ends. Another question gets none.
pub fn answer(
    class: &[u8; 256],
    line: &[u8],
    text: &mut [u8; 2048],
    area: &mut [u8; 16448],
    table: &mut [u32; 24640],
    out: &mut [u8; 98305],
    edition: u32,
) -> usize
    requires { class.now ≡ class_table edition }
    ensures { InFront (answer_of edition line.now) result out.new }
{
    if !starts_with(line, 0, b"lines ") {
        return 0;
    }
    answer_word(class, line, text, area, table, out, edition)
}
