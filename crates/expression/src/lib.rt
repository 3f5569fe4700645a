// What a licence expression of the SPDX 2.3 annex is, what it amounts to and how it is written (specs/), computed cases (proofs/), and the types
// of the two answers. Assumes nothing.
#![tactic(auto)]

ghost use Rattle.std.specs.Prelude.{◌≡◌};
ghost use Rattle.expression.specs.Told.{satisfied_told, spelled_told};

use rules::Refusal;

// The first refusal that applies, and its place.
#[derive(Clone, Copy)]
pub struct Refused {
    pub refusal: Refusal,
    pub place: usize,
}

// The first refusal that applies (0: none) with its place, and whether the list satisfies the text.
#[repr(C)]
#[derive(Clone, Copy)]
pub struct Satisfied {
    pub refusal: u32,
    pub satisfied: bool,
    pub place: usize,
}

// The first refusal that applies (0: none) with its place, and how many bytes are written.
#[repr(C)]
#[derive(Clone, Copy)]
pub struct Spelled {
    pub refusal: u32,
    pub place: usize,
    pub len: usize,
}

impl From<Result<bool, Refused>> for Satisfied {
    ghost from_gives = { λ r s. s ≡ satisfied_told r };

    fn from(answer: Result<bool, Refused>) -> Satisfied {
        match answer {
            Ok(satisfied) => Satisfied {
                refusal: 0,
                satisfied,
                place: 0,
            },
            Err(refused) => Satisfied {
                refusal: u32::from(refused.refusal),
                satisfied: false,
                place: refused.place,
            },
        }
    }
}

impl From<Result<usize, Refused>> for Spelled {
    ghost from_gives = { λ r s. s ≡ spelled_told r };

    fn from(answer: Result<usize, Refused>) -> Spelled {
        match answer {
            Ok(len) => Spelled {
                refusal: 0,
                place: 0,
                len,
            },
            Err(refused) => Spelled {
                refusal: u32::from(refused.refusal),
                place: refused.place,
                len: 0,
            },
        }
    }
}
