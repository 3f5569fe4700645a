// Two sorted halves of starts merged into one, as `merged` of sort_spread's specs. Assumes nothing.
#![tactic(auto)]

ghost use Rattle.std.specs.Prelude.{◌≡◌, true, false, ◌+◌, ◌-◌, ◌≤◌, ◌<◌, length, take, drop, get_or};
ghost use Rattle.std.proofs.Math.Seq.{slice};
ghost use Rattle.sort_spread.specs.Sort.{part_later, right_next, merged};

use slices::wide::wide;
use sort_order::Cut;

// Whether the next element is the one at j, of [j, n), and not the one at i, of [i, m).
pub fn takes_right(text: &[u8], p: &[u32], i: usize, m: usize, j: usize, n: usize, cut: Cut) -> bool
    requires { (i ≤ m) × (m ≤ length p.now) × (j ≤ n) × (n ≤ length p.now) × (i + j < m + n) }
    ensures next { result ≡ right_next (part_later cut.mark cut.times text.now) (slice i m p.now) (slice j n p.now) }
    ensures right { result ≡ true → j < n }
    ensures left { result ≡ false → i < m }
{
    m <= i || (j < n && cut.part_after(text, wide(p[i]), wide(p[j])))
}

// Whether the last of a run that ends at m comes after the first of a run that starts at j.
pub fn last_after(text: &[u8], p: &[u32], m: usize, j: usize, cut: Cut) -> bool
    requires { (0 < m) × (m ≤ length p.now) × (j < length p.now) }
    ensures { result ≡ part_later cut.mark cut.times text.now (get_or p.now (m - 1) 0) (get_or p.now j 0) }
{
    let a = wide(p[m - 1]);
    let b = wide(p[j]);
    cut.part_after(text, a, b)
}

// The runs [k, k+h) and [h, k) of p are merged to [0, k). Once the first run is out, what is left of the second stands where it belongs.
pub fn merge(text: &[u8], p: &mut [u32], k: usize, h: usize, cut: Cut)
    requires { (k + k ≤ length p.old) × (h ≤ k) }
    ensures front { take k p.new ≡ merged (part_later cut.mark cut.times text.now) k (slice k (k + h) p.old) (slice h k p.old) }
    ensures back { drop k p.new ≡ drop k p.old }
{
    let m = k + h;
    let mut i = k;
    let mut j = h;
    let mut w = 0;
    // A while: of its two cursors one moves.
    while i < m {
        if takes_right(text, p, i, m, j, k, cut) {
            p[w] = p[j];
            j += 1;
        } else {
            p[w] = p[i];
            i += 1;
        }
        w += 1;
    }
}
