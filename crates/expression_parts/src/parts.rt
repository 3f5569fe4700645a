// A part with its exception, and what stands behind an operand. Assumes nothing.
ghost use Rattle.std.specs.Prelude.{◌≡◌, false, [], ◌∷◌, ◌+◌, ◌≤◌, length, drop};
ghost use Rattle.expression.specs.Reading.{Ctl, run};
ghost use Rattle.expression_bytes.specs.Front.{head_is};
ghost use Rattle.expression_parts.specs.Simple.{bytes_of};
ghost use Rattle.expression_parts.specs.Parts.{Reads, Behind, no_expression};

use crate::names::{Span, is_word, simple_at};
use expression::Refused;
use expression_bytes::{blanks, ids, letters, stands};
use rules::Refusal;

// A part of a text: its identifier, whether + follows, its exception (of no bytes: none), and where the text goes on behind it and its blanks.
#[derive(Clone, Copy)]
pub struct PartAt {
    pub name: Span,
    pub plus: bool,
    pub exception: Span,
    pub next: usize,
}

// The place of the first byte that cannot go on.
#[derive(Clone, Copy)]
pub struct Bad {
    pub place: usize,
}

impl From<Bad> for Refused {
    ghost from_gives = { λ b r. r ≡ no_expression b.place };

    fn from(bad: Bad) -> Refused {
        Refused {
            refusal: Refusal::NoExpression,
            place: bad.place,
        }
    }
}

// Behind the last byte of a part: a blank, a parenthesis or the end; and the blanks. Where the text goes on.
fn after_part(text: &[u8], from: usize) -> Result<usize, Bad>
    requires { from ≤ length text.now }
    ensures { Behind text.now from result }
{
    if stands(text, from, b' ') {
        return Ok(blanks(text, from + 1));
    }
    if text.len() <= from || stands(text, from, b')') {
        return Ok(from);
    }
    Err(Bad { place: from })
}

// Behind the W of WITH, after the simple expression `name`.
fn exception(text: &[u8], name: Span, plus: bool, from: usize) -> Result<PartAt, Bad>
    requires { (name.at + name.len ≤ length text.now) × (from ≤ length text.now) }
    ensures { Reads text.now from (λ l fs. run (drop from text.now) (Ctl.withs (bytes_of text.now name) plus (73 ∷ 84 ∷ 72 ∷ [])) l fs from) result }
{
    let k = letters(text, from, b"ITH");
    if k < 3 {
        return Err(Bad { place: from + k });
    }
    let gap = from + 3;
    if !stands(text, gap, b' ') {
        return Err(Bad { place: gap });
    }
    let at = blanks(text, gap + 1);
    let len = ids(text, at);
    if len == 0 {
        return Err(Bad { place: at });
    }
    let exception = Span { at, len };
    if is_word(exception.of(text)) {
        return Err(Bad { place: at + len });
    }
    let next = after_part(text, at + len)?;
    Ok(PartAt {
        name,
        plus,
        exception,
        next,
    })
}

// Behind the simple expression `name`, its + read.
fn after_simple(text: &[u8], name: Span, plus: bool, from: usize) -> Result<PartAt, Bad>
    requires { (name.at + name.len ≤ length text.now) × (from ≤ length text.now) }
    ensures { Reads text.now from (λ l fs. run (drop from text.now) (Ctl.simple (bytes_of text.now name) plus) l fs from) result }
{
    let none = Span {
        at: name.at,
        len: 0,
    };
    if stands(text, from, b' ') {
        let behind = blanks(text, from + 1);
        if stands(text, behind, b'W') {
            return exception(text, name, plus, behind + 1);
        }
        return Ok(PartAt {
            name,
            plus,
            exception: none,
            next: behind,
        });
    }
    let next = after_part(text, from)?;
    Ok(PartAt {
        name,
        plus,
        exception: none,
        next,
    })
}

// The part at `at`, where neither a blank nor a parenthesis stands.
pub fn read_part(text: &[u8], at: usize) -> Result<PartAt, Bad>
    requires { (at ≤ length text.now) × (head_is 32 (drop at text.now) ≡ false) × (head_is 40 (drop at text.now) ≡ false) }
    ensures { Reads text.now (at + 1) (λ l fs. run (drop at text.now) Ctl.want l fs at) result }
{
    match simple_at(text, at) {
        Err(stuck) => Err(Bad {
            place: at + stuck.len,
        }),
        Ok(simple) => {
            let name = Span {
                at,
                len: simple.len,
            };
            let end = at + simple.len;
            if simple.plus {
                return after_simple(text, name, simple.plus, end + 1);
            }
            after_simple(text, name, simple.plus, end)
        }
    }
}
