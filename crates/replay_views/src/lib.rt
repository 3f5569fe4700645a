// Answers questions `view START END TEXT` as the original does (oracle/README.md): the view after all aggressive passes, in hex. Of a text
// 2,048 bytes are read; any other line gets no answer. Assumes that the lent table is that of the classes.
#![tactic(auto)]

ghost use Rattle.std.specs.Prelude.{◌≡◌, ◌+◌, ◌*◌, ◌≤◌, length};
ghost use Rattle.lists.specs.Wrote.{InFront};
ghost use Rattle.rules.specs.Points.{encoded};
ghost use Rattle.rules.specs.Passes.{aggressive};
ghost use Rattle.rules.specs.Search.{viewed};
ghost use Rattle.slices.specs.Classes.{Classes, class_table};
ghost use Rattle.preproc_table.specs.Entries.{lines_at};
ghost use Rattle.license_notes.specs.Laid.{Laid};
ghost use Rattle.replay_views.specs.Told.{told, answer_to, answer_in, answer_of};

use license_notes::lay;
use license_views::process;
use questions::fields::{number_at, text_at};
use questions::hex::{put_byte, put_hex};
use questions_fit::views::view_fits;
use rules::View;
use slices_order::starts_with;

// The processed text of a view in hex, and a newline, written from the front; answers where they end.
fn put_view(
    class: &[u8; 256],
    area: &mut [u8],
    words: &mut [u32],
    n: usize,
    lines: usize,
    v: View,
    out: &mut [u8],
) -> usize
    requires classes { Classes class.now × Laid n lines area.old words.old × (2 * length area.old + 2 ≤ length out.old) }
    requires start_le_end { (v.start ≤ v.end) × (v.end ≤ lines) }
    ensures { InFront (told (encoded (aggressive (viewed (lines_at area.old words.old lines) v)))) result out.new }
{
    let p = process(class, area, words, n, lines, v);
    let a = p.start;
    let e = p.end;
    let h = put_hex(&area[a..e], out, 0);
    put_byte(10, out, h)
}

// The answer to a view of a text, written from the front; answers where it ends.
fn answer_view(
    class: &[u8; 256],
    text: &[u8],
    start: usize,
    end: usize,
    area: &mut [u8; 16448],
    words: &mut [u32; 24640],
    out: &mut [u8; 98305],
    edition: u32,
) -> usize
    requires { (class.now ≡ class_table edition) × (length text.now ≤ 2048) }
    ensures { InFront (answer_to edition start end text.now) result out.new }
{
    if !view_fits(text, start, end, edition) {
        return 0;
    }
    let lines = lay(class, text, area, words);
    put_view(
        class,
        area,
        words,
        text.len(),
        lines,
        View { start, end },
        out,
    )
}

// The answer to a question on a view, whose text is read into `text`.
fn answer_words(
    class: &[u8; 256],
    line: &[u8],
    text: &mut [u8],
    area: &mut [u8; 16448],
    words: &mut [u32; 24640],
    out: &mut [u8; 98305],
    edition: u32,
) -> usize
    requires { (class.now ≡ class_table edition) × (length text.old ≡ 2048) }
    ensures { InFront (answer_in edition line.now) result out.new }
{
    let start = number_at(line, 1) as usize;
    let end = number_at(line, 2) as usize;
    let n = text_at(line, 3, text);
    answer_view(class, &text[..n], start, end, area, words, out, edition)
}

// The answer to a question, written from the front; answers where it ends. Another question gets none.
pub fn answer(
    class: &[u8; 256],
    line: &[u8],
    text: &mut [u8; 2048],
    area: &mut [u8; 16448],
    words: &mut [u32; 24640],
    out: &mut [u8; 98305],
    edition: u32,
) -> usize
    requires { class.now ≡ class_table edition }
    ensures { InFront (answer_of edition line.now) result out.new }
{
    if !starts_with(line, 0, b"view ") {
        return 0;
    }
    answer_words(class, line, text, area, words, out, edition)
}
