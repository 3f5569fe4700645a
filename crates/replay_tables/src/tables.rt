// A stored table in words: its total, then each bigram behind its count, COUNT:BIGRAM. One walk along its body. Assumes nothing.
ghost use Rattle.std.specs.Prelude.{◌≡◌, true, ◌++◌, ◌+◌, ◌*◌, ◌≤◌, length, take, drop};
ghost use Rattle.std.proofs.Math.Seq.{slice};
ghost use Rattle.lists.specs.Wrote.{Wrote, InFront};
ghost use Rattle.rules.specs.Book.{number, shaped, entries_of};
ghost use Rattle.detection_shelf.specs.Bodies.{table_of_body};
ghost use Rattle.replay_tables.specs.Told.{entry_told, table_told};

use questions::hex::{put_byte, put_hex};
use questions::numbers::put_number;
use records::numbers::read_u32;
use slices::wide::wide;

// The entry at a place of the body, whose bigram has so many bytes; answers where it ends.
fn tell_entry(body: &[u8], at: usize, len: usize, out: &mut [u8], to: usize) -> usize
    requires { (at + 8 + len ≤ length body.now) × (to + 2 * (8 + len) ≤ length out.old) }
    ensures told { Wrote (take to out.old ++ entry_told (record { bytes = slice (at + 8) (at + 8 + len) body.now; count = number 4 (drop at body.now) })) out.old result out.new }
    ensures short { result ≤ to + 2 * (8 + len) }
{
    let count = read_u32(body, at);
    let a = put_byte(32, out, to);
    let b = put_number(count, out, a);
    let c = put_byte(58, out, b);
    let start = at + 8;
    let end = start + len;
    put_hex(&body[start..end], out, c)
}

// The table of a sound body, and a newline, written from the front; answers where they end.
pub fn put_table(body: &[u8], out: &mut [u8]) -> usize
    requires { (shaped body.now (entries_of body.now) ≡ true) × (2 * length body.now + 1 ≤ length out.old) }
    ensures { InFront (table_told (table_of_body body.now)) result out.new }
{
    let total = read_u32(body, 0);
    let mut w = put_number(total, out, 0);
    let mut at = 8;
    // A while: the step is what an entry takes.
    while at < body.len() {
        let len = wide(read_u32(body, at + 4));
        w = tell_entry(body, at, len, out, w);
        at = at + 8 + len;
    }
    put_byte(10, out, w)
}
