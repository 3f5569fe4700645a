// Numbers copied: upwards within one lent slice, and bytes from one to another. One walk each. Assumes nothing.
ghost use Rattle.std.specs.Prelude.{◌≡◌, ◌++◌, ◌+◌, ◌≤◌, ◌<◌, length, take, drop};
ghost use Rattle.std.proofs.Math.Seq.{paste};

// k from `from` on, copied to `to`, which lies past them; answers where they end.
pub fn copy_up<T: Copy>(area: &mut [T], from: usize, k: usize, to: usize) -> usize
    requires { (from + k ≤ to) × (to + k ≤ length area.old) }
    ensures { (result ≡ to + k) × (area.new ≡ paste area.old to (drop from area.old) k) }
{
    // An index walk, as in `copy_to`.
    for i in 0..k {
        area[to + i] = area[from + i];
    }
    to + k
}

// k bytes of src from `from` on, copied to `to` of dst; answers where they end. Of no bytes nothing is asked.
pub fn copy_to(src: &[u8], from: usize, k: usize, dst: &mut [u8], to: usize) -> usize
    requires k_in_bounds { 0 < k → from + k ≤ length src.now }
    requires k_in_bounds_2 { to + k ≤ length dst.old }
    ensures { (result ≡ to + k) × (dst.new ≡ paste dst.old to (drop from src.now) k) }
{
    // An index walk: `copy_from_slice` would make an archive need `memmove`, which the header doesn't name.
    for i in 0..k {
        dst[to + i] = src[from + i];
    }
    to + k
}

// All of p, written to dst from w on; answers where it ends.
pub fn put(p: &[u8], dst: &mut [u8], w: usize) -> usize
    requires { w + length p.now ≤ length dst.old }
    ensures { (result ≡ w + length p.now) × (dst.new ≡ take w dst.old ++ p.now ++ drop result dst.old) }
{
    copy_to(p, 0, p.len(), dst, w)
}
