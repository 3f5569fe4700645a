// The simple expression at a place of a text. Assumes nothing.
ghost use Rattle.std.specs.Prelude.{◌≡◌, ◌+◌, ◌≤◌, length, drop};
ghost use Rattle.expression.specs.Reading.{is_word, kind_of};
ghost use Rattle.expression_parts.specs.Simple.{bytes_of, is_bare, kind_told, after_document, simple_at};

use expression_bytes::{ids, letters, stands};
use slices_order::equal;

// So many bytes of a text from a place on.
#[derive(Clone, Copy)]
pub struct Span {
    pub at: usize,
    pub len: usize,
}

impl Span {
    pub fn of(self, text: &[u8]) -> &[u8]
        requires { self.at + self.len ≤ length text.now }
        ensures { result.now ≡ bytes_of text.now self }
    {
        &text[self.at..self.at + self.len]
    }
}

// How many bytes its identifier has, and whether + follows.
#[derive(Clone, Copy)]
pub struct Simple {
    pub len: usize,
    pub plus: bool,
}

// How many bytes can go on to one, where none stands.
#[derive(Clone, Copy)]
pub struct Stuck {
    pub len: usize,
}

// What the bytes of an identifier amount to: nothing yet, a license-id, a license-ref, or the document of one.
#[derive(Clone, Copy)]
pub enum Kind {
    Bare,
    License,
    Reference,
    Document,
}

// The bytes of an identifier are AND, OR or WITH.
#[tactic(auto, unfolding(expression::specs::Reading::is_word))]
pub fn is_word(name: &[u8]) -> bool
    ensures { result ≡ is_word name.now }
{
    equal(b"AND", name) || equal(b"OR", name) || equal(b"WITH", name)
}

// A word, or a front with nothing behind it.
#[tactic(auto, unfolding(crate::specs::Simple::is_bare))]
fn is_bare(name: &[u8]) -> bool
    ensures { result ≡ is_bare name.now }
{
    equal(b"DocumentRef-", name) || equal(b"LicenseRef-", name) || is_word(name)
}

fn kind_of(name: &[u8]) -> Kind
    ensures { kind_told result ≡ kind_of name.now }
{
    if is_bare(name) {
        return Kind::Bare;
    }
    if name.starts_with(b"DocumentRef-") {
        return Kind::Document;
    }
    if name.starts_with(b"LicenseRef-") {
        return Kind::Reference;
    }
    Kind::License
}

// Behind DocumentRef- and an idstring, `len` bytes at `at`: the colon and LicenseRef- with its idstring.
fn document(text: &[u8], at: usize, len: usize) -> Result<Simple, Stuck>
    requires { at + len ≤ length text.now }
    ensures { result ≡ after_document len (drop (at + len) text.now) }
{
    let end = at + len;
    if !stands(text, end, b':') {
        return Err(Stuck { len });
    }
    let k = letters(text, end + 1, b"LicenseRef-");
    if k < 11 {
        return Err(Stuck { len: len + 1 + k });
    }
    let m = ids(text, end + 12);
    if m == 0 {
        return Err(Stuck { len: len + 12 });
    }
    let len = len + 12 + m;
    Ok(Simple { len, plus: false })
}

pub fn simple_at(text: &[u8], at: usize) -> Result<Simple, Stuck>
    requires { at ≤ length text.now }
    ensures { result ≡ simple_at (drop at text.now) }
{
    let len = ids(text, at);
    if len == 0 {
        return Err(Stuck { len: 0 });
    }
    let name = Span { at, len };
    match kind_of(name.of(text)) {
        Kind::Bare => Err(Stuck { len }),
        Kind::License => {
            let plus = stands(text, at + len, b'+');
            Ok(Simple { len, plus })
        }
        Kind::Reference => Ok(Simple { len, plus: false }),
        Kind::Document => document(text, at, len),
    }
}
