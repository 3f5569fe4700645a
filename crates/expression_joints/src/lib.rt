// What stands between the operands of an expression and round them: operators and parentheses, and the value that is told of what is read.
// Assumes nothing.
#![tactic(auto)]

ghost use Rattle.std.specs.Prelude.{◌≡◌, Bool, true, not, ◌&&◌, false, List, [], ◌∷◌, ◌++◌, ℕ, ◌≤◌, length, drop};
ghost use Rattle.expression.specs.Reading.{anded, ored};
ghost use Rattle.expression.specs.Writing.{wrap as wrapped};
ghost use Rattle.expression_bytes.specs.Front.{head_is};
ghost use Rattle.expression_joints.specs.Joints.{Joined, Shut, Jointed, Lays, and_text, or_text};

use expression_bytes::{blanks, stands};
use expression_output::{put, wrap};
use expression_parts::parts::Bad;

// What is told of a tree that is read: where the text goes on, whether the list satisfies it, whether it is an OR, and where it ends in the output.
#[derive(Clone, Copy)]
pub struct Value {
    pub next: usize,
    pub holds: bool,
    pub or: bool,
    pub end: usize,
}

// Where the text and the output go on behind an operator.
#[derive(Clone, Copy)]
pub struct Joint {
    pub next: usize,
    pub end: usize,
}

// After AND or OR: a blank or a parenthesis, and there the operand is due.
fn after_word(text: &[u8], at: usize) -> Result<usize, Bad>
    ensures { Joined text.now at [] result }
{
    if stands(text, at, b' ') || stands(text, at, b'(') {
        return Ok(at);
    }
    Err(Bad { place: at })
}

// After the A of AND.
fn and_word(text: &[u8], at: usize) -> Result<usize, Bad>
    requires { at ≤ length text.now }
    ensures { Joined text.now at (78 ∷ 68 ∷ []) result }
{
    if !stands(text, at, b'N') {
        return Err(Bad { place: at });
    }
    if !stands(text, at + 1, b'D') {
        return Err(Bad { place: at + 1 });
    }
    after_word(text, at + 2)
}

// After the O of OR.
fn or_word(text: &[u8], at: usize) -> Result<usize, Bad>
    requires { at ≤ length text.now }
    ensures { Joined text.now at (82 ∷ []) result }
{
    if !stands(text, at, b'R') {
        return Err(Bad { place: at });
    }
    after_word(text, at + 1)
}

// What closes a group, with the blanks behind it.
pub fn close(text: &[u8], at: usize) -> Result<usize, Bad>
    requires { (at ≤ length text.now) × (head_is 32 (drop at text.now) ≡ false) × (head_is 65 (drop at text.now) ≡ false) × (head_is 79 (drop at text.now) ≡ false) }
    ensures { Shut text.now at result }
{
    if stands(text, at, b')') {
        return Ok(blanks(text, at + 1));
    }
    Err(Bad { place: at })
}

// AND at `at`, behind an operand that stands in the output from `from` up to `to`; `or`: it is an OR, which parentheses will hold.
pub fn and_joint(
    text: &[u8],
    at: usize,
    or: bool,
    out: &mut [u8],
    from: usize,
    to: usize,
) -> Result<Joint, Bad>
    requires { head_is 65 (drop at text.now) ≡ true }
    ensures { Jointed text.now at anded (λ bs. wrapped or bs ++ and_text) from to out.old out.new result }
{
    let next = and_word(text, at + 1)?;
    let shut = wrap(or, out, from, to);
    let end = put(b" AND ", out, shut);
    Ok(Joint { next, end })
}

// OR at `at`, behind what stands in the output up to `to`.
pub fn or_joint(
    text: &[u8],
    at: usize,
    out: &mut [u8],
    from: usize,
    to: usize,
) -> Result<Joint, Bad>
    requires { head_is 79 (drop at text.now) ≡ true }
    ensures { Jointed text.now at ored (λ bs. bs ++ or_text) from to out.old out.new result }
{
    let next = or_word(text, at + 1)?;
    let end = put(b" OR ", out, to);
    Ok(Joint { next, end })
}

// The last operand of an AND: alone it stays as it is; behind others an OR is wrapped.
pub fn last(alone: bool, v: Value, out: &mut [u8], from: usize) -> Value
    ensures { (result.next ≡ v.next) × (result.holds ≡ v.holds) × (result.or ≡ (alone && v.or)) × Lays (λ bs. wrapped (not alone && v.or) bs) from v.end out.old out.new result.end }
{
    if alone {
        return v;
    }
    let end = wrap(v.or, out, from, v.end);
    Value {
        or: false,
        end,
        ..v
    }
}
