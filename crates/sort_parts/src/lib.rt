// Parts of a text, sorted in a lent slice of their starts: a stable merge sort, equal to `msorted` of sort_spread's specs. Assumes nothing.
#![tactic(auto)]

ghost use Rattle.std.specs.Prelude.{◌≡◌, ◌+◌, ◌≤◌, length, take, drop};
ghost use Rattle.sort_spread.specs.Sort.{part_later, msorted};

use sort_merge::{last_after, merge};
use sort_order::Cut;

// The first k of p are sorted; p has 2k, and the later k are scratch. Halves that are in turn already are not merged: so starts that come
// nearly in order are sorted by little more than one comparison each.
pub fn sort_parts(text: &[u8], p: &mut [u32], k: usize, cut: Cut)
    requires { k + k ≤ length p.old }
    ensures sorted { take k p.new ≡ msorted (part_later cut.mark cut.times text.now) k (take k p.old) }
    ensures rest { drop (k + k) p.new ≡ drop (k + k) p.old }
{
    if k < 2 {
        return;
    }
    let h = k / 2;
    let r = k - h;
    let e = h + r + r;
    sort_parts(text, &mut p[h..e], r, cut);
    p.copy_within(0..h, k);
    let f = k + h + h;
    sort_parts(text, &mut p[k..f], h, cut);
    if last_after(text, p, k + h, h, cut) {
        merge(text, p, k, h, cut);
    } else {
        p.copy_within(k..k + h, 0);
    }
}
