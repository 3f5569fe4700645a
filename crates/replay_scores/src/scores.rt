// The score of a view against a stored table, as the bits of a float. Assumes nothing.
ghost use Rattle.std.specs.Prelude.{◌≡◌, true, T, ◌≤◌, length};
ghost use Rattle.lists.specs.Wrote.{InFront};
ghost use Rattle.rules.specs.Book.{shaped, entries_of};
ghost use Rattle.rules.specs.Refusal.{unit};
ghost use Rattle.slices.specs.Classes.{class_table};
ghost use Rattle.detection_shelf.specs.Bodies.{table_of_body};
ghost use Rattle.replay_scores.specs.Told.{bits_told, score_over};

use license_charge::{Scorings, charge_exact};
use license_notes::lay;
use license_views::view_table;
use questions::hex::put_byte;
use questions::numbers::put_bits;
use questions_fit::views::view_fits;
use rules::View;

// A score's bits and a newline, written from the front; answers where they end.
fn put_score(x: f32, out: &mut [u8]) -> usize
    requires { T (unit x) × (9 ≤ length out.old) }
    ensures { InFront (bits_told x) result out.new }
{
    let bits = f32::to_bits(x);
    let end = put_bits(bits, out, 0);
    put_byte(10, out, end)
}

// The score of a view of the text, where there is one.
pub fn answer_view(
    class: &[u8; 256],
    text: &[u8],
    start: usize,
    end: usize,
    area: &mut [u8; 16448],
    words: &mut [u32; 24640],
    body: &[u8],
    out: &mut [u8],
    edition: u32,
) -> usize
    requires { (class.now ≡ class_table edition) × (length text.now ≤ 2048) × (shaped body.now (entries_of body.now) ≡ true) × (9 ≤ length out.old) }
    ensures { InFront (score_over edition start end text.now (table_of_body body.now)) result out.new }
{
    if !view_fits(text, start, end, edition) {
        return 0;
    }
    let n = text.len();
    let lines = lay(class, text, area, words);
    let t = view_table(class, area, words, n, lines, View { start, end });
    let charged = charge_exact(area, words, n, t, body, Scorings::of(1));
    put_score(charged.value.score, out)
}
