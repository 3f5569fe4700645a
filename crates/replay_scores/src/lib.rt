// Answers questions `score START END TEXT LICENCE` as the original does (oracle/README.md): the score of a view against a licence, which the job
// compile makes a table of. Of a text 2,048 bytes are read; any other line gets no answer. Assumes that the lent table is that of the classes.
#![tactic(auto)]

ghost use Rattle.std.specs.Prelude.{◌≡◌, ◌≤◌, length};
ghost use Rattle.lists.specs.Wrote.{InFront};
ghost use Rattle.slices.specs.Classes.{class_table};
ghost use Rattle.replay_scores.specs.Told.{score_for, score_asked, answer_of};

mod scores;

use crate::scores::answer_view;
use compile::compile;
use questions::fields::{number_at, text_at};
use slices_order::starts_with;

// The score of a view of the text against the licence, written from the front; answers where it ends.
fn answer_score(
    class: &[u8; 256],
    text: &[u8],
    start: usize,
    end: usize,
    licence: &[u8],
    area: &mut [u8; 16448],
    words: &mut [u32; 24640],
    body: &mut [u8],
    out: &mut [u8; 98305],
    edition: u32,
) -> usize
    requires { (class.now ≡ class_table edition) × (length text.now ≤ 2048) × (length body.old ≡ 49152) }
    ensures { InFront (score_for edition start end text.now licence.now) result out.new }
{
    let Ok(len) = compile(licence, edition, area, words, body) else {
        return 0;
    };
    answer_view(
        class,
        text,
        start,
        end,
        area,
        words,
        &body[..len],
        out,
        edition,
    )
}

// A question on a score, whose texts are read into `text` and `licence`.
fn asked_score(
    class: &[u8; 256],
    line: &[u8],
    text: &mut [u8],
    licence: &mut [u8],
    area: &mut [u8; 16448],
    words: &mut [u32; 24640],
    body: &mut [u8; 49152],
    out: &mut [u8; 98305],
    edition: u32,
) -> usize
    requires { (class.now ≡ class_table edition) × (length text.old ≡ 2048) × (length licence.old ≡ 2048) }
    ensures { InFront (score_asked edition line.now) result out.new }
{
    let start = number_at(line, 1) as usize;
    let end = number_at(line, 2) as usize;
    let n = text_at(line, 3, text);
    let m = text_at(line, 4, licence);
    answer_score(
        class,
        &text[..n],
        start,
        end,
        &licence[..m],
        area,
        words,
        body,
        out,
        edition,
    )
}

// The answer to a question, written from the front; answers where it ends. Another question gets none.
pub fn answer(
    class: &[u8; 256],
    line: &[u8],
    text: &mut [u8; 2048],
    licence: &mut [u8; 2048],
    area: &mut [u8; 16448],
    words: &mut [u32; 24640],
    body: &mut [u8; 49152],
    out: &mut [u8; 98305],
    edition: u32,
) -> usize
    requires { class.now ≡ class_table edition }
    ensures { InFront (answer_of edition line.now) result out.new }
{
    if !starts_with(line, 0, b"score ") {
        return 0;
    }
    asked_score(class, line, text, licence, area, words, body, out, edition)
}
