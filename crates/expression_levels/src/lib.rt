// The levels of an expression: OR level calls AND level calls the operand, which calls the OR level inside parentheses; bytes left fall. Chains loop,
// so that the stack has at most 33 of each for any text. Each tells what it read and writes it, as far as the output reaches. Assumes nothing.
#![tactic(auto)]

ghost use Rattle.std.specs.Prelude.{◌≡◌, false, [], ◌∷◌, ◌≤◌, length, drop};
ghost use Rattle.expression.specs.Reading.{depth_most};
ghost use Rattle.expression_bytes.specs.Front.{head_is};
ghost use Rattle.expression_levels.specs.Levels.{only_any, only_fresh, AtAnyDepth, Told};

use expression::Refused;
use expression_bytes::{blanks, stands};
use expression_joints::{Value, and_joint, close, last, or_joint};
use expression_list::part_in;
use expression_output::put_part;
use expression_parts::parts::read_part;
use rules::Refusal;

// The parentheses that may be open at once.
const DEPTH_MOST: usize = 32;

// The part at `at`, where neither a blank nor a parenthesis stands.
fn leaf(list: &[u8], text: &[u8], at: usize, out: &mut [u8], o: usize) -> Result<Value, Refused>
    requires { (at ≤ length text.now) × (head_is 32 (drop at text.now) ≡ false) × (head_is 40 (drop at text.now) ≡ false) }
    ensures { AtAnyDepth list.now text.now at out.old o result out.new }
{
    let part = read_part(text, at)?;
    let end = put_part(text, part, out, o);
    Ok(Value {
        next: part.next,
        holds: part_in(list, text, part),
        or: false,
        end,
    })
}

// A group or a part, with the blanks before and behind it, under `depth` parentheses; it is written from the place o on.
#[cycle(and_level_operand_or_level)]
fn operand(
    list: &[u8],
    text: &[u8],
    at: usize,
    depth: usize,
    out: &mut [u8],
    o: usize,
) -> Result<Value, Refused>
    requires { (at ≤ length text.now) × (depth ≤ depth_most) }
    ensures { Told (λ l. l) list.now text.now at depth (32 ∷ []) out.old o result out.new }
{
    let from = blanks(text, at);
    if !stands(text, from, b'(') {
        return leaf(list, text, from, out, o);
    }
    if DEPTH_MOST <= depth {
        return Err(Refused {
            refusal: Refusal::TooDeep,
            place: from,
        });
    }
    let v = or_level(list, text, from + 1, depth + 1, out, o)?;
    let next = close(text, v.next)?;
    Ok(Value { next, ..v })
}

// Operands with AND between. An OR among several gets parentheses in the output once it is known that it is not alone.
#[cycle(and_level_operand_or_level)]
fn and_level(
    list: &[u8],
    text: &[u8],
    at: usize,
    depth: usize,
    out: &mut [u8],
    o: usize,
) -> Result<Value, Refused>
    requires { (at ≤ length text.now) × (depth ≤ depth_most) }
    ensures { Told only_any list.now text.now at depth (32 ∷ 65 ∷ []) out.old o result out.new }
{
    let mut from = at;
    let mut all = true;
    let mut alone = true;
    let mut end = o;
    // It ends in the middle, behind an operand.
    loop {
        let v = operand(list, text, from, depth, out, end)?;
        let holds = all && v.holds;
        if !stands(text, v.next, b'A') {
            let w = last(alone, v, out, end);
            return Ok(Value { holds, ..w });
        }
        let joint = and_joint(text, v.next, v.or, out, end, v.end)?;
        from = joint.next;
        all = holds;
        alone = false;
        end = joint.end;
    }
}

// What AND joins, with OR between.
#[cycle(and_level_operand_or_level)]
pub fn or_level(
    list: &[u8],
    text: &[u8],
    at: usize,
    depth: usize,
    out: &mut [u8],
    o: usize,
) -> Result<Value, Refused>
    requires { (at ≤ length text.now) × (depth ≤ depth_most) }
    ensures { Told only_fresh list.now text.now at depth (32 ∷ 65 ∷ 79 ∷ []) out.old o result out.new }
{
    let mut from = at;
    let mut any = false;
    let mut several = false;
    let mut end = o;
    // It ends in the middle, behind an operand.
    loop {
        let v = and_level(list, text, from, depth, out, end)?;
        let holds = any || v.holds;
        if !stands(text, v.next, b'O') {
            let or = several || v.or;
            return Ok(Value { holds, or, ..v });
        }
        let joint = or_joint(text, v.next, out, end, v.end)?;
        from = joint.next;
        any = holds;
        several = true;
        end = joint.end;
    }
}
