// Answers questions `table TEXT` as the original does (oracle/README.md): a text's table, made by the job compile. Of a text 2,048 bytes are read;
// any other line gets no answer. Assumes nothing.
#![tactic(auto)]

ghost use Rattle.std.specs.Prelude.{◌≡◌, length};
ghost use Rattle.lists.specs.Wrote.{InFront};
ghost use Rattle.replay_tables.specs.Told.{table_for, table_asked, answer_of};

mod tables;

use crate::tables::put_table;
use compile::compile;
use questions::fields::text_at;
use slices_order::starts_with;

// The table of a text, written from the front; answers where it ends.
fn answer_table(
    text: &[u8],
    area: &mut [u8; 16448],
    words: &mut [u32; 24640],
    body: &mut [u8],
    out: &mut [u8; 98305],
    edition: u32,
) -> usize
    requires { length body.old ≡ 49152 }
    ensures { InFront (table_for edition text.now) result out.new }
{
    let Ok(len) = compile(text, edition, area, words, body) else {
        return 0;
    };
    put_table(&body[..len], out)
}

// A question on a table, whose text is read into `text`.
fn asked_table(
    line: &[u8],
    text: &mut [u8],
    area: &mut [u8; 16448],
    words: &mut [u32; 24640],
    body: &mut [u8; 49152],
    out: &mut [u8; 98305],
    edition: u32,
) -> usize
    requires { length text.old ≡ 2048 }
    ensures { InFront (table_asked edition line.now) result out.new }
{
    let n = text_at(line, 1, text);
    answer_table(&text[..n], area, words, body, out, edition)
}

// The answer to a question, written from the front; answers where it ends. Another question gets none.
pub fn answer(
    line: &[u8],
    text: &mut [u8; 2048],
    area: &mut [u8; 16448],
    words: &mut [u32; 24640],
    body: &mut [u8; 49152],
    out: &mut [u8; 98305],
    edition: u32,
) -> usize
    ensures { InFront (answer_of edition line.now) result out.new }
{
    if !starts_with(line, 0, b"table ") {
        return 0;
    }
    asked_table(line, text, area, words, body, out, edition)
}
