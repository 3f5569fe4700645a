// What comes before a scan that is charged to an allowance: its refusal where more is used than the cap. Nothing like it is in the original.
// Assumes nothing.
#![tactic(auto)]

ghost use Rattle.std.specs.Prelude.{◌≡◌, option_copied};
ghost use Rattle.rules.specs.Refusal.{refusal, before_scan};
ghost use Rattle.rules.specs.Told.{refusal_number};
ghost use Rattle.refusals.specs.Lent.{books_lent};
ghost use Rattle.allowance_overdrawn.specs.Overdrawn.{or_overdrawn};

use refusals::admit_scan;
use rules::{Areas, Limits, Mode, Refusal};

// Where more is used than the cap: what is refused before any work comes first, then 17. Of the areas only the lengths are looked at.
pub fn overdrawn(
    text: &[u8],
    book: &[u8],
    second: Option<&[u8]>,
    limits: Limits,
    mode: Mode,
    areas: Areas,
    results: usize,
) -> Refusal
    ensures { refusal_number result ≡ or_overdrawn (refusal (before_scan text.now (books_lent book.now (option_copied second.entry)) limits mode areas results)) }
{
    match admit_scan(text, book, second, limits, mode, areas, results) {
        Ok(_) => Refusal::Overdrawn,
        Err(first) => first,
    }
}
