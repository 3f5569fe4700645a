// Zeroes over a whole lent area, one walk each. Assumes nothing.
ghost use Rattle.std.specs.Prelude.{◌≡◌, length, replicate};

pub fn zero_bytes(s: &mut [u8])
    ensures { s.new ≡ replicate (length s.old) 0 }
{
    s.fill(0);
}

pub fn zero_words(s: &mut [u32])
    ensures { s.new ≡ replicate (length s.old) 0 }
{
    s.fill(0);
}
