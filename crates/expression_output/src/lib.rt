// The bytes of an expression, put over a lent output as far as it reaches; each writer answers the place behind, which stops at 2^64 - 1.
// So a run with an output of any size tells the length. Assumes nothing.
#![tactic(auto)]

ghost use Rattle.std.specs.Prelude.{◌≡◌, cond, [], ◌∷◌, ◌+◌, ◌≤◌, length};
ghost use Rattle.expression.specs.Writing.{spell_exc, spell_part};
ghost use Rattle.expression_parts.specs.Parts.{part_of};
ghost use Rattle.expression_output.specs.Output.{Put, Wrapped};

use expression_parts::parts::PartAt;
use slices::copy::copy_to;

// Past the end of the output it costs nothing. `out` and o stay two parameters: the levels keep the place of one operand while they write the next.
pub fn put(bytes: &[u8], out: &mut [u8], o: usize) -> usize
    ensures { Put o bytes.now out.old out.new result }
{
    let behind = o.saturating_add(bytes.len());
    if out.len() <= o {
        return behind;
    }
    let k = bytes.len().min(out.len() - o);
    copy_to(bytes, 0, k, out, o);
    behind
}

// `+`, if there is one.
fn put_plus(plus: bool, out: &mut [u8], o: usize) -> usize
    ensures { Put o (cond plus (43 ∷ []) []) out.old out.new result }
{
    if plus {
        return put(b"+", out, o);
    }
    o
}

// ` WITH ` and the exception, if it has bytes.
fn put_exception(exception: &[u8], out: &mut [u8], o: usize) -> usize
    ensures { Put o (spell_exc exception.now) out.old out.new result }
{
    if exception.is_empty() {
        return o;
    }
    let w = put(b" WITH ", out, o);
    put(exception, out, w)
}

// One part: its identifier and its exception.
pub fn put_part(text: &[u8], part: PartAt, out: &mut [u8], o: usize) -> usize
    requires { (part.name.at + part.name.len ≤ length text.now) × (part.exception.at + part.exception.len ≤ length text.now) }
    ensures { Put o (spell_part (part_of text.now part)) out.old out.new result }
{
    let a = put(part.name.of(text), out, o);
    let b = put_plus(part.plus, out, a);
    put_exception(part.exception.of(text), out, b)
}

// Parentheses round what stands from `from` up to `to`, if `or`: it moves one place up.
pub fn wrap(or: bool, out: &mut [u8], from: usize, to: usize) -> usize
    ensures { Wrapped or from to out.old out.new result }
{
    if !or {
        return to;
    }
    let end = to.min(out.len());
    let mut c = b'(';
    for i in from..end {
        let b = out[i];
        out[i] = c;
        c = b;
    }
    put(&[c, b')'], out, to)
}
