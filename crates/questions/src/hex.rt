// Texts in hex: two digits a byte, and a dash for the empty text. Each is one walk. Assumes nothing.
ghost use Rattle.std.specs.Prelude.{◌≡◌, [], ◌∷◌, ◌++◌, ◌+◌, ◌*◌, ◌<◌, ◌≤◌, length, take};
ghost use Rattle.lists.specs.Wrote.{Wrote};
ghost use Rattle.questions.specs.Hex.{hex_value, hex_byte, hex_glyph, unhexed, hex_pairs, hexed};

// What a hex digit is worth; any other byte is worth nothing.
#[tactic(auto, unfolding(crate::specs::Hex::hex_value))]
pub fn hex_value(b: u8) -> u8
    ensures { (result ≡ hex_value b) × (result < 16) }
{
    match b {
        b'0'..=b'9' => b - b'0',
        b'a'..=b'f' => b - b'a' + 10,
        _ => 0,
    }
}

fn hex_byte(high: u8, low: u8) -> u8
    ensures { result ≡ hex_byte high low }
{
    16 * hex_value(high) + hex_value(low)
}

pub fn hex_glyph(n: u8) -> u8
    requires { n < 16 }
    ensures { result ≡ hex_glyph n }
{
    if n < 10 { 48 + n } else { 87 + n }
}

// The bytes that a word of hex stands for; of a dash, none.
pub fn unhex(src: &[u8], dst: &mut [u8]) -> usize
    requires { length src.now ≤ 2 * length dst.old + 1 }
    ensures { Wrote (unhexed src.now) dst.old result dst.new }
{
    let pairs = src.len() / 2;
    for i in 0..pairs {
        dst[i] = hex_byte(src[2 * i], src[2 * i + 1]);
    }
    pairs
}

// One byte, written at a place; answers the place behind it.
pub fn put_byte(b: u8, dst: &mut [u8], to: usize) -> usize
    requires { to < length dst.old }
    ensures { Wrote (take to dst.old ++ (b ∷ [])) dst.old result dst.new }
{
    dst[to] = b;
    to + 1
}

// Two digits for each byte, written from a place on; answers where they end.
pub fn put_pairs(src: &[u8], dst: &mut [u8], to: usize) -> usize
    requires { to + 2 * length src.now ≤ length dst.old }
    ensures { Wrote (take to dst.old ++ hex_pairs src.now) dst.old result dst.new }
{
    let mut w = to;
    for b in src {
        dst[w] = hex_glyph(*b / 16);
        w += 1;
        dst[w] = hex_glyph(*b % 16);
        w += 1;
    }
    w
}

// A text in hex, written from a place on; answers where it ends.
pub fn put_hex(src: &[u8], dst: &mut [u8], to: usize) -> usize
    requires { to + length (hexed src.now) ≤ length dst.old }
    ensures { Wrote (take to dst.old ++ hexed src.now) dst.old result dst.new }
{
    if src.len() == 0 {
        return put_byte(45, dst, to);
    }
    put_pairs(src, dst, to)
}
