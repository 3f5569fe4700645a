// Runs `satisfy`, `neat` and `write_expression` on the marked texts, and writes a line for each: refusal, place, satisfied; neat; refusal, place,
// length; then what is written. Where the room matters, all of the output area instead, which held # before.
//
// The expected lines, in stdout, are not this code's: antt computes them from the definitions of the crate expression (proofs/Expected.antt,
// `lines_hold`, one equation by `refl`). Assumes nothing but the C library's write.
#![tactic(auto)]

ghost use Rattle.std.specs.Prelude.{◌≤◌, ◌<◌, length};

use expression::{Satisfied, Spelled};
use expression_job::{neat, satisfy, write_expression};
use telling::{print, print_count, print_number};

fn print_flag(flag: bool) {
    print(if flag { b"1 " } else { b"0 " });
}

fn print_place(place: usize) {
    print(b" ");
    print_count(place as u64);
    print(b" ");
}

// What is learnt without an output.
fn tell_read(list: &[u8], text: &[u8]) {
    let answer = Satisfied::from(satisfy(text, list));
    print_number(answer.refusal);
    print_place(answer.place);
    print_flag(answer.satisfied);
    print_flag(neat(text));
}

fn tell_written(answer: Spelled) {
    print_number(answer.refusal);
    print_place(answer.place);
    print_count(answer.len as u64);
    print(b" ");
}

// With room for any of the texts. What is written fits, so the test of the length never fails.
fn ask(list: &[u8], text: &[u8]) {
    let mut out = [35u8; 256];
    tell_read(list, text);
    let answer = Spelled::from(write_expression(text, &mut out));
    let len = answer.len;
    tell_written(answer);
    if len <= 256 {
        print(&out[0..len]);
    }
    print(b"\x0a");
}

fn fit_in(text: &[u8], out: &mut [u8], room: usize)
    requires { room ≤ length out.old }
{
    tell_read(b"a", text);
    let answer = Spelled::from(write_expression(text, &mut out[0..room]));
    tell_written(answer);
    print(out);
    print(b"\x0a");
}

// With so much room of 40 bytes.
fn fit(text: &[u8], room: usize)
    requires { room ≤ 40 }
{
    let mut out = [35u8; 40];
    fit_in(text, &mut out, room);
}

// No list satisfies what is refused.
fn refuse(text: &[u8]) {
    ask(b"MIT\x0ax\x0aa", text);
}

fn write(text: &[u8]) {
    ask(b"a", text);
}

fn bad_joints() {
    refuse(b"");
    refuse(b"   ");
    refuse(b"MIT MIT");
    refuse(b"MIT ANX");
    refuse(b"MIT AND");
    refuse(b"MIT AN");
    refuse(b"AND OR");
    refuse(b"AND");
    refuse(b"MIT AND AND x");
    refuse(b"(MIT)ANDISC");
    refuse(b"MIT and x");
    refuse(b"MIT\x09OR x");
    refuse(b"MIT\xff");
}

fn bad_parts() {
    refuse(b"MIT WITH AND");
    refuse(b"(MIT) WITH x");
    refuse(b"MIT WITH x WITH y");
    refuse(b"GPL-2.0 +");
    refuse(b"MIT+AND x");
    refuse(b"LicenseRef-x+");
    refuse(b"LicenseRef-");
    refuse(b"DocumentRef-a");
    refuse(b"DocumentRef-a:MIT");
}

// The unit over and over up to a place, and b there; what stands behind it stays.
fn repeat(area: &mut [u8], unit: &[u8], at: usize, b: u8)
    requires unit_nonzero { 0 < length unit.now }
    requires at_in_bounds { at < length area.old }
{
    for i in 0..at {
        area[i] = unit[i % unit.len()];
    }
    area[at] = b;
}

// a in so many parentheses.
fn nested(depth: usize)
    requires { depth ≤ 40 }
{
    let mut area = [41u8; 81];
    repeat(&mut area, b"(", depth, 97);
    write(&area[0..depth + depth + 1]);
}

// Forty in parentheses, then (b): they are not open at once.
fn side_by_side() {
    let mut area = [41u8; 243];
    repeat(&mut area, b"(a)AND", 241, 98);
    write(&area);
}

fn deep() {
    nested(31);
    nested(32);
    nested(33);
    refuse(b"(((((((((((((((((((((((((((((((((");
    refuse(b"((((((((((((((((((((((((((((((((a(");
    refuse(b"((((((((((((((((((((((((((((((((a OR (");
    side_by_side();
}

fn written() {
    write(b"MIT OR (Apache-2.0 AND BSD-3-Clause)");
    write(b"(a OR b)AND(c OR d)");
    write(b"a AND ((b OR c))");
    write(b"((a OR b) AND (c)) AND d");
    write(b"( a )OR(b AND(c))");
    write(b"  GPL-2.0+   WITH   x-exception  ");
    write(b"DocumentRef-a:LicenseRef-b.c WITH d");
    write(b"and AND or");
    write(b"a OR b AND c OR d");
    write(b"licenseref-a+ OR LicenseRef");
}

fn neatly() {
    write(b"a AND (b OR c)");
    write(b"a AND (b)");
    write(b"(a OR b)AND  c");
    write(b"a ");
    write(b"a  OR b");
    write(b"(a OR b)");
    write(b"a WITH  b");
    write(b"a AND b OR c+ WITH d");
}

fn satisfied() {
    ask(b"mit", b"MIT OR (Apache-2.0 AND BSD-3-Clause)");
    ask(
        b"apache-2.0\x0aBSD-3-CLAUSE",
        b"MIT OR (Apache-2.0 AND BSD-3-Clause)",
    );
    ask(b"Apache-2.0", b"MIT OR (Apache-2.0 AND BSD-3-Clause)");
    ask(b"GPL-2.0", b"GPL-2.0+");
    ask(b"GPL-2.0+", b"GPL-2.0");
    ask(b"b", b"a OR b AND c");
    ask(b"a", b"(a OR b) AND c");
    ask(b"x\x0a\x0aGPL-2.0+ WITH E\x0a", b"gpl-2.0+   WITH e");
    ask(b"a WITH b", b"a");
    ask(b"a", b"a WITH b");
    ask(b"", b"a");
}

// A line that is no part, or is not as it would be written, accepts nothing.
fn lines() {
    ask(b"AND", b"and");
    ask(b"And", b"and");
    ask(b"LicenseRef-a+", b"licenseref-a+");
    ask(b"LicenseRef-a", b"licenseref-a");
    ask(b" a", b"a");
    ask(b"a ", b"a");
    ask(b"a\x0d", b"a");
    ask(b"(a)", b"a");
    ask(b"a OR b", b"a");
    ask(b"a  WITH b", b"a WITH b");
    ask(b"a with b", b"a WITH b");
    ask(b"DocumentRef-A:LicenseRef-B", b"DocumentRef-a:LicenseRef-b");
    ask(b"documentref-a:LicenseRef-b", b"DocumentRef-a:LicenseRef-b");
}

// One byte more than enough, exactly enough, one byte too few, none; a refused text.
fn rooms() {
    fit(b"(a OR b)AND(c OR d)", 22);
    fit(b"(a OR b)AND(c OR d)", 21);
    fit(b"(a OR b)AND(c OR d)", 20);
    fit(b"(a OR b)AND(c OR d)", 0);
    fit(b"MIT OR (Apache-2.0 AND BSD-3-Clause)", 34);
    fit(b"MIT OR (Apache-2.0 AND BSD-3-Clause)", 33);
    fit(b"( a )", 1);
    fit(b"( a )", 0);
    fit(b"MIT MIT", 40);
}

fn main() {
    bad_joints();
    bad_parts();
    deep();
    written();
    neatly();
    satisfied();
    lines();
    rooms();
}
