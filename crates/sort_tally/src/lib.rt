// Sorted parts of a text grouped and counted: each distinct part's start, and behind them the counts. Assumes nothing.
#![tactic(auto)]

ghost use Rattle.std.specs.Prelude.{◌≡◌, ◌+◌, ◌≤◌, ◌<◌, length, take, drop, set};
ghost use Rattle.rules.specs.Table.{tallied};
ghost use Rattle.sort_tally.specs.Group.{groups, Grouped, entries_at, parts_at};
ghost use Rattle.sort_spread.specs.Sort.{part_later};

use slices::wide::wide;
use sort_order::Cut;
use sort_parts::sort_parts;
use sort_spread::spread_all;

// Group d: its first part's start at d, its count at k + d.
fn put_group(p: &mut [u32], k: usize, d: usize, start: u32, count: u32)
    requires { (d < k) × (k + k ≤ length p.old) }
    ensures { p.new ≡ set (set p.old d start) (k + d) count }
{
    p[d] = start;
    p[k + d] = count;
}

// Equal neighbours among the first k of p become one: the first of each at [0, d), how many at [k, k + d); d comes back.
pub fn group_parts(text: &[u8], p: &mut [u32], k: usize, cut: Cut) -> usize
    requires { (k + k ≤ length p.old) × (k < 4294967296) }
    ensures groups { Grouped (groups (part_later cut.mark cut.times text.now) (take k p.old)) k result p.new }
    ensures rest { drop (k + k) p.new ≡ drop (k + k) p.old }
{
    if k == 0 {
        return 0;
    }
    let mut start = p[0];
    let mut count = 1;
    let mut d = 0;
    for i in 1..k {
        let x = p[i];
        if cut.part_after(text, wide(x), wide(start)) {
            put_group(p, k, d, start, count);
            d += 1;
            start = x;
            count = 1;
        } else {
            count += 1;
        }
    }
    put_group(p, k, d, start, count);
    d + 1
}

// The first k of p, spread, sorted and grouped: the d distinct parts with their counts, as `group_parts` leaves them; d comes back.
pub fn tally_parts(text: &[u8], p: &mut [u32], k: usize, cut: Cut) -> usize
    requires { (k + k ≤ length p.old) × (k < 4294967296) }
    ensures table { entries_at cut.mark cut.times text.now p.new k result ≡ tallied (parts_at cut.mark cut.times text.now (take k p.old)) }
    ensures few { result ≤ k }
    ensures rest { drop (k + k) p.new ≡ drop (k + k) p.old }
{
    spread_all(text, p, k);
    sort_parts(text, p, k, cut);
    group_parts(text, p, k, cut)
}
