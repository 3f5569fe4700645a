// Starts put roughly in order by the bytes behind them, before a sort: one stable counting pass for each of the first twelve bytes, the
// last byte first. Nothing is promised of the order, since the sort behind it gives that; promised is that the starts stay the same ones.
// Assumes nothing of the starts: where a text has no byte, the byte is 0.
#![tactic(auto)]

ghost use Rattle.std.specs.Prelude.{◌≡◌, ◌⊎◌, ◌+◌, ◌≤◌, ◌<◌, length, take, drop};
ghost use Rattle.std.proofs.Math.Seq.{slice};
ghost use Rattle.sort_spread.specs.Spread.{byte_from, keyed, keyed_below, added, Counters, Shuffled};

use slices::wide::wide;

// The byte d places past a start, as an index.
fn byte_from(text: &[u8], start: u32, d: usize) -> usize
    requires { d < 12 }
    ensures { (result ≡ byte_from d text.now start) × (result < 256) }
{
    let at = wide(start) + d;
    text.get(at).map_or(0, |x| usize::from(*x))
}

// Each counter, from 0, becomes how many of the starts have its byte.
fn count_bytes(text: &[u8], starts: &[u32], d: usize, c: &mut [u32; 256])
    requires few { (length starts.now < 4294967296) × (d < 12) }
    requires counters { Counters (λ b. 0) c.old }
    ensures { Counters (keyed (byte_from d text.now) starts.now) c.new }
{
    for x in starts {
        let b = byte_from(text, *x, d);
        c[b] += 1;
    }
}

// Each counter becomes the sum of those below it.
fn sum_counts(c: &mut [u32; 256])
    requires { (length c.old ≡ 256) × (added c.old < 4294967296) }
    ensures { Counters (λ b. added (take b c.old)) c.new }
{
    let mut sum = 0;
    for x in c {
        let n = *x;
        *x = sum;
        sum += n;
    }
}

// Each of the k starts goes to the place that its byte's counter says, and the counter moves on.
fn place_starts(
    text: &[u8],
    p: &mut [u32],
    from: usize,
    to: usize,
    k: usize,
    d: usize,
    c: &mut [u32; 256],
)
    requires k_in_bounds { (from + k ≤ length p.old) × (to + k ≤ length p.old) × (k < 4294967296) × (d < 12) }
    requires fact { (from + k ≤ to) ⊎ (to + k ≤ from) }
    requires counters { Counters (keyed_below (byte_from d text.now) (slice from (from + k) p.old)) c.old }
    ensures same { Shuffled (slice to (to + k) p.new) (slice from (from + k) p.old) }
    ensures rest { drop (to + k) p.new ≡ drop (to + k) p.old }
{
    for i in 0..k {
        let x = p[from + i];
        let b = byte_from(text, x, d);
        let w = c[b];
        p[to + wide(w)] = x;
        c[b] = w + 1;
    }
}

// The k starts at `from` go to `to`, in the order of the byte d places past them; equal ones stay in order.
fn spread_by(text: &[u8], p: &mut [u32], from: usize, to: usize, k: usize, d: usize)
    requires k_in_bounds { (from + k ≤ length p.old) × (to + k ≤ length p.old) × (k < 4294967296) × (d < 12) }
    requires fact { (from + k ≤ to) ⊎ (to + k ≤ from) }
    ensures same { Shuffled (slice to (to + k) p.new) (slice from (from + k) p.old) }
    ensures rest { drop (to + k) p.new ≡ drop (to + k) p.old }
{
    let mut c: [u32; 256] = [0; 256];
    count_bytes(text, &p[from..from + k], d, &mut c);
    sum_counts(&mut c);
    place_starts(text, p, from, to, k, d, &mut c);
}

// The first k of p, spread by their first twelve bytes; p has 2k, and the later k are scratch. Two passes a turn: there and back.
// A few starts stay as they are, since clearing the counters would cost more than it gains.
pub fn spread_all(text: &[u8], p: &mut [u32], k: usize)
    requires { (k + k ≤ length p.old) × (k < 4294967296) }
    ensures same { Shuffled (take k p.new) (take k p.old) }
    ensures rest { drop (k + k) p.new ≡ drop (k + k) p.old }
{
    if k < 64 {
        return;
    }
    for turn in (0..6).rev() {
        let d = turn * 2;
        spread_by(text, p, 0, k, k, d + 1);
        spread_by(text, p, k, 0, k, d);
    }
}
