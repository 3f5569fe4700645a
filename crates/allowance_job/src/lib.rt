// The scan that is charged to an allowance: over plain numbers, which every other caller takes, and lent by `&mut`. Nothing like it is in the original.
// Assumes nothing.
#![tactic(auto)]

ghost use Rattle.std.specs.Prelude.{◌≡◌, option_copied};
ghost use Rattle.rules.specs.Told.{scanned_told};
ghost use Rattle.refusals.specs.Lent.{books_lent};
ghost use Rattle.allowance.specs.Allowed.{charged, AllowedDone};

use allowance::Allowance;
use allowance_overdrawn::overdrawn;
use rules::{Areas, Findings, Limits, Mode, Refusal};
use scan_job::scan_lent;

// What a scan finds, and what is used of the allowance after it.
#[derive(Clone, Copy)]
pub struct Spent {
    pub answer: Result<Findings, Refusal>,
    pub used: u64,
}

// The scan whose budget is what is left. Its count is what is to be charged.
fn scan_left<'a>(
    text: &[u8],
    book: &'a [u8],
    second: Option<&'a [u8]>,
    limits: Limits,
    mode: Mode,
    cap: u64,
    used: u64,
    area: &mut [u8],
    words: &mut [u32],
    results: &mut [u32],
) -> Result<Findings, Refusal>
    ensures { AllowedDone text.now (books_lent book.now (option_copied second.entry)) limits mode (record { cap = cap; used = used }) (charged (record { cap = cap; used = used }) (scanned_told result)) area.old area.new words.old words.new results.old results.new (scanned_told result) }
{
    if cap < used {
        let areas = Areas {
            bytes: area.len(),
            words: words.len(),
        };
        return Err(overdrawn(text, book, second, limits, mode, areas, results.len()));
    }
    scan_lent(
        text,
        book,
        second,
        limits,
        mode,
        cap - used,
        area,
        words,
        results,
    )
}

// The scorings that an answer has made: none where it is refused.
fn count_of(answer: Result<Findings, Refusal>) -> u64
    ensures { result ≡ (scanned_told answer).count }
{
    match answer {
        Ok(found) => found.count,
        Err(_) => 0,
    }
}

// Over plain numbers: cap and used at entry, and what is found with what is used after it.
pub fn scan_within<'a>(
    text: &[u8],
    book: &'a [u8],
    second: Option<&'a [u8]>,
    limits: Limits,
    mode: Mode,
    cap: u64,
    used: u64,
    area: &mut [u8],
    words: &mut [u32],
    results: &mut [u32],
) -> Spent
    ensures { AllowedDone text.now (books_lent book.now (option_copied second.entry)) limits mode (record { cap = cap; used = used }) (record { cap = cap; used = result.used }) area.old area.new words.old words.new results.old results.new (scanned_told result.answer) }
{
    let answer = scan_left(
        text, book, second, limits, mode, cap, used, area, words, results,
    );
    Spent {
        answer,
        used: used + count_of(answer),
    }
}

// Charges the allowance in place. The only function here that is lent it: sums and tests stand in the one of plain numbers.
pub fn scan_allowed<'a>(
    text: &[u8],
    book: &'a [u8],
    second: Option<&'a [u8]>,
    limits: Limits,
    mode: Mode,
    allowance: &mut Allowance,
    area: &mut [u8],
    words: &mut [u32],
    results: &mut [u32],
) -> Result<Findings, Refusal>
    ensures { AllowedDone text.now (books_lent book.now (option_copied second.entry)) limits mode allowance.old allowance.new area.old area.new words.old words.new results.old results.new (scanned_told result) }
{
    let spent = scan_within(
        text,
        book,
        second,
        limits,
        mode,
        allowance.cap,
        allowance.used,
        area,
        words,
        results,
    );
    allowance.used = spent.used;
    spent.answer
}
