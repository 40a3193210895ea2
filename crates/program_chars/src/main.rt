// Runs `first_bad` on every string of one byte, on every byte at each place of a hundred, on every code point, and on the forms at
// each boundary, and counts.
#![tactic(auto)]

ghost use Rattle.std.specs.Prelude.{◌<◌, ◌≤◌};

use std::io;

// What the first bad byte of a string of the one byte b should be: 1, which is none, at tab, line feed, carriage return and 20 to 7F.
fn wanted(b: u8) -> usize {
    match b {
        b'\t' | b'\n' | b'\r' | 0x20..=0x7F => 1,
        _ => 0,
    }
}

// 1 where the first bad byte of s stands at `at`, else 0.
fn at(s: &[u8], at: usize) -> u64
    ensures { result ≤ 1 }
{
    u64::from(text_chars::first_bad(s) == at)
}

fn one_byte() -> u64 {
    let mut right = 0;
    for b in 0..256u32 {
        let b = b as u8;
        let s = [b];
        right += at(&s, wanted(b));
    }
    right
}

// 1 where b, at a place of a hundred spaces, which are blocks and a rest, is found to be bad if it is, else 0.
fn among_spaces(b: u8, place: usize) -> u64
    requires { place < 100 }
    ensures { result ≤ 1 }
{
    let mut s = [b' '; 100];
    s[place] = b;
    if wanted(b) == 0 {
        return at(&s, place);
    }
    at(&s, 100)
}

// Every byte, at each of the hundred places.
fn each_place() -> u64 {
    let mut right = 0;
    for n in 0..25600usize {
        right += among_spaces((n / 100) as u8, n % 100);
    }
    right
}

// 1 where the bytes of c are good, else 0.
fn good(c: u32) -> u64
    requires { c ≤ 0x10FFFF }
    ensures { result ≤ 1 }
{
    let mut bytes = [0u8; 4];
    let n = text_encode::encode(c, &mut bytes, 0);
    at(&bytes[..n], n)
}

// How many code points are good.
fn code_points() -> u64 {
    let mut right = 0;
    for c in 0..0x110000u32 {
        right += good(c);
    }
    right
}

fn line(rt: &impl Print, name: &str, right: u64, all: u64) -> io::Result<()> {
    println!(rt; "{name}{right} of {all} as they should be")
}

// 7F, 80, 7FF, 800, D7FF, E000, FFFD, 10000, 10FFFF
fn firsts_and_lasts(rt: &impl Print) -> io::Result<()> {
    let right = at(b"\x7F", 1)
        + at(b"\xC2\x80", 2)
        + at(b"\xDF\xBF", 2)
        + at(b"\xE0\xA0\x80", 3)
        + at(b"\xED\x9F\xBF", 3)
        + at(b"\xEE\x80\x80", 3)
        + at(b"\xEF\xBF\xBD", 3)
        + at(b"\xF0\x90\x80\x80", 4)
        + at(b"\xF4\x8F\xBF\xBF", 4);
    line(rt, "firsts and lasts ", right, 9)
}

// D800, DFFF, FFFE, FFFF, 110000
fn no_characters(rt: &impl Print) -> io::Result<()> {
    let right = at(b"\xED\xA0\x80", 0)
        + at(b"\xED\xBF\xBF", 0)
        + at(b"\xEF\xBF\xBE", 0)
        + at(b"\xEF\xBF\xBF", 0)
        + at(b"\xF4\x90\x80\x80", 0);
    line(rt, "no characters ", right, 5)
}

fn overlong(rt: &impl Print) -> io::Result<()> {
    let right = at(b"\xC0\x80", 0)
        + at(b"\xC1\xBF", 0)
        + at(b"\xE0\x80\x80", 0)
        + at(b"\xE0\x9F\xBF", 0)
        + at(b"\xF0\x80\x80\x80", 0)
        + at(b"\xF0\x8F\xBF\xBF", 0);
    line(rt, "overlong ", right, 6)
}

fn stray(rt: &impl Print) -> io::Result<()> {
    let right = at(b"\x80", 0)
        + at(b"a\xBF", 1)
        + at(b"\xC3\xA9\xA9", 2)
        + at(b"\xC3\x28", 0)
        + at(b"a\xE2\x28\xAC", 1)
        + at(b"\xE2\x82\x28", 0)
        + at(b"\xF0\x90\x8D\xC0", 0)
        + at(b"\xF8\x88\x80\x80\x80", 0);
    line(rt, "stray ", right, 8)
}

fn cut_short(rt: &impl Print) -> io::Result<()> {
    let right = at(b"\xC3", 0)
        + at(b"a\xE2", 1)
        + at(b"a\xE2\x82", 1)
        + at(b"ab\xF0", 2)
        + at(b"ab\xF0\x90", 2)
        + at(b"ab\xF0\x90\x8D", 2);
    line(rt, "cut short ", right, 6)
}

fn byte_order_mark(rt: &impl Print) -> io::Result<()> {
    let right = at(b"\xEF\xBB\xBF", 0)
        + at(b"\xEF\xBB\xBF<a/>", 0)
        + at(b"a\xEF\xBB\xBF", 4)
        + at(b"\xEF\xBB\xBE", 3);
    line(rt, "byte order mark ", right, 4)
}

fn main(rt: HostRuntime) -> io::Result<()> {
    line(&rt, "one-byte ", one_byte(), 256)?;
    line(&rt, "one byte among a hundred ", each_place(), 25600)?;
    line(&rt, "code points that are good: ", code_points(), 1112032)?;
    firsts_and_lasts(&rt)?;
    no_characters(&rt)?;
    overlong(&rt)?;
    stray(&rt)?;
    cut_short(&rt)?;
    byte_order_mark(&rt)
}
