// A number as an index: the width of a place in memory. Assumes nothing.
ghost use Rattle.std.specs.Prelude.{◌≡◌};

// A start as an index. An `as`, since the language has no From of a u32 for a usize.
pub fn wide(x: u32) -> usize
    ensures { result ≡ x }
{
    x as usize
}
