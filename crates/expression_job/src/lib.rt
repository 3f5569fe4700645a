// The public calls on licence expressions: does a list of accepted parts satisfy one, write one back, is one written so already? Assumes nothing.
#![tactic(auto)]

ghost use Rattle.std.specs.Prelude.{◌≡◌};
ghost use Rattle.expression.specs.Jobs.{WriteDone, satisfy as satisfied};
ghost use Rattle.expression.specs.Told.{satisfied_told, spelled_told};
ghost use Rattle.expression.specs.Writing.{neat as is_neat};
ghost use Rattle.expression_spelling.specs.Flat.{spaced_out, apart as are_apart};
ghost use Rattle.expression_job.specs.Whole.{Whole, Learnt};

use expression::Refused;
use expression_joints::Value;
use expression_levels::or_level;
use rules::Refusal;

// The whole text, written over the output as far as it reaches.
fn read_all(list: &[u8], text: &[u8], out: &mut [u8]) -> Result<Value, Refused>
    ensures { Whole list.now text.now out.old out.new result }
{
    let v = or_level(list, text, 0, 0, out, 0)?;
    if v.next < text.len() {
        return Err(Refused {
            refusal: Refusal::NoExpression,
            place: v.next,
        });
    }
    Ok(v)
}

// Nothing is written: one byte of output takes no part of it that is read again.
fn read_only(list: &[u8], text: &[u8]) -> Result<Value, Refused>
    ensures { Learnt list.now text.now result }
{
    let mut nowhere = [0u8; 1];
    read_all(list, text, &mut nowhere)
}

// Whether a list of accepted parts, one a line, satisfies the text.
pub fn satisfy(text: &[u8], list: &[u8]) -> Result<bool, Refused>
    ensures { satisfied_told result ≡ satisfied text.now list.now }
{
    let v = read_only(list, text)?;
    Ok(v.holds)
}

// Writes the text back with single spaces and only the parentheses that it needs, and answers how many bytes that takes. It is read once for its
// length, so that nothing is written where the output is too short.
pub fn write_expression(text: &[u8], out: &mut [u8]) -> Result<usize, Refused>
    ensures { WriteDone text.now out.old out.new (spelled_told result) }
{
    let v = read_only(b"", text)?;
    if out.len() < v.end {
        return Err(Refused {
            refusal: Refusal::OutputShort,
            place: 0,
        });
    }
    read_all(b"", text, out)?;
    Ok(v.end)
}

// Two bytes that may stand side by side: no ) before A or O, no D or R before (.
#[tactic(auto, unfolding(expression_spelling::specs::Flat::apart))]
fn apart(x: u8, y: u8) -> bool
    ensures { result ≡ are_apart x y }
{
    !matches!((x, y), (b')', b'A' | b'O') | (b'D' | b'R', b'('))
}

// A blank stands on each side of every operator.
fn spaced_out(text: &[u8]) -> bool
    ensures { result ≡ spaced_out text.now }
{
    text.iter()
        .zip(text.iter().skip(1))
        .all(|(x, y)| apart(*x, *y))
}

// Whether the text is already as it would be written.
pub fn neat(text: &[u8]) -> bool
    ensures { result ≡ is_neat text.now }
{
    match read_only(b"", text) {
        Ok(v) => v.end == text.len() && spaced_out(text),
        Err(_) => false,
    }
}
