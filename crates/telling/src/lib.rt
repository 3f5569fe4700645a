// What the programs over the scan write to standard output: numbers, the bits of a score, the records of a results area. A write that
// fails is not reported: the recorded output then differs. Assumes nothing but the C library's write.
#![tactic(auto)]

ghost use Rattle.std.specs.Prelude.{◌≡◌, cond, ◌≤◌, length};
ghost use Rattle.std.specs.Float.Ieee.{le, to_bits};
ghost use Rattle.std.specs.Float.{binary32};
ghost use Rattle.rules.specs.Sizes.{record_width};
ghost use Rattle.rules.specs.Table.{nought};

use rules::RECORD_WIDTH;

// The number of standard output.
const STDOUT: i32 = 1;

pub fn print(s: &[u8]) {
    io::write_all(STDOUT, s);
}

pub fn print_number(x: u32) {
    io::print_decimal(STDOUT, x as u64);
}

pub fn print_count(x: u64) {
    io::print_decimal(STDOUT, x);
}

// The 8 hex digits of a float's bits.
pub fn print_bits(bits: u32) {
    io::print_hex(STDOUT, bits as u64, 8);
}

// The bits of a score, which is never below 0.0; of anything else 0.
pub fn score_bits(score: f32) -> u32
    ensures { result ≡ cond (le nought score) (to_bits binary32 score) 0 }
{
    if 0.0 <= score {
        return f32::to_bits(score);
    }
    0
}

// A record: ` ; NUMBER FIRST AFTER BITS START END`.
fn print_record(numbers: &[u32])
    requires { record_width ≤ length numbers.now }
{
    print(b" ; ");
    print_number(numbers[0]);
    print(b" ");
    print_number(numbers[1]);
    print(b" ");
    print_number(numbers[2]);
    print(b" ");
    print_bits(numbers[3]);
    print(b" ");
    print_number(numbers[4]);
    print(b" ");
    print_number(numbers[5]);
}

// So many records of a results area, or as many as it holds.
pub fn print_records(results: &[u32], records: u32) {
    for record in results.chunks_exact(RECORD_WIDTH).take(records as usize) {
        print_record(record);
    }
}
