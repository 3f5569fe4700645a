// Whether a list of accepted parts, a part a line, has a part of a text. One pass over the list: each line is compared as far as it is like the
// part, and its end looked for. Assumes nothing.
#![tactic(auto)]

ghost use Rattle.std.specs.Prelude.{◌≡◌, ◌&&◌, ◌+◌, ◌≤◌, length, drop};
ghost use Rattle.rules.specs.Bytes.{split};
ghost use Rattle.expression.specs.Reading.{part as part_from};
ghost use Rattle.expression.specs.Writing.{alike as is_alike, agree, met_in};
ghost use Rattle.expression_parts.specs.Parts.{part_of};
ghost use Rattle.expression_place.specs.Line.{ends, line_at, met_by};
ghost use Rattle.expression_list.specs.Rest.{behind, exc_met, rest_met};

use expression_bytes::{ids, letters};
use expression_parts::names::{Span, is_word, simple_at};
use expression_parts::parts::PartAt;
use slices::lead::line_len;

// The same, letter case aside.
fn alike(a: &[u8], b: &[u8]) -> bool
    ensures { result ≡ is_alike a.now b.now }
{
    a.eq_ignore_ascii_case(b)
}

// A line ends at `at`.
fn line_ends(list: &[u8], at: usize) -> bool
    ensures { result ≡ ends (drop at list.now) }
{
    list.len() <= at || list[at] == b'\n'
}

// The exception at `at` of the list ends its line, and is this.
fn exc_meets(list: &[u8], at: usize, exception: &[u8]) -> bool
    requires { at ≤ length list.now }
    ensures { result ≡ exc_met exception.now (drop at list.now) }
{
    let len = ids(list, at);
    if len == 0 || !line_ends(list, at + len) {
        return false;
    }
    let found = Span { at, len };
    !is_word(found.of(list)) && alike(exception, found.of(list))
}

// Behind a line's identifier and its +.
fn rest_meets(list: &[u8], at: usize, exception: &[u8]) -> bool
    requires { at ≤ length list.now }
    ensures { result ≡ rest_met exception.now (drop at list.now) }
{
    if line_ends(list, at) {
        return exception.is_empty();
    }
    letters(list, at, b" WITH ") == 6 && exc_meets(list, at + 6, exception)
}

// Behind a line's identifier, whose + stands at `at` if there is one.
fn sign_meets(list: &[u8], at: usize, more: bool, plus: bool, exception: &[u8]) -> bool
    requires { behind at more ≤ length list.now }
    ensures { result ≡ (agree plus more && rest_met exception.now (drop (behind at more) list.now)) }
{
    plus == more && rest_meets(list, at + usize::from(more), exception)
}

// The line at i is a part, and meets this.
fn line_meets(list: &[u8], i: usize, name: &[u8], plus: bool, exception: &[u8]) -> bool
    requires { i ≤ length list.now }
    ensures { result ≡ met_by (part_from name.now plus exception.now) (line_at (drop i list.now)) }
{
    let len = name.len();
    if list.len() - i < len {
        return false;
    }
    let front = Span { at: i, len };
    if !alike(name, front.of(list)) {
        return false;
    }
    match simple_at(list, i) {
        Ok(found) => {
            if found.len != len {
                return false;
            }
            sign_meets(list, i + len, found.plus, plus, exception)
        }
        Err(_) => false,
    }
}

pub fn part_in(list: &[u8], text: &[u8], part: PartAt) -> bool
    requires { (part.name.at + part.name.len ≤ length text.now) × (part.exception.at + part.exception.len ≤ length text.now) }
    ensures { result ≡ met_in (part_of text.now part) (split 10 list.now) }
{
    let name = part.name.of(text);
    let exception = part.exception.of(text);
    // A while: the step varies, a line at a time.
    let mut i = 0;
    while i <= list.len() {
        if line_meets(list, i, name, part.plus, exception) {
            return true;
        }
        i += line_len(list, i) + 1;
    }
    false
}
