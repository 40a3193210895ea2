// Reads blocks of two lists and a room from its standard input, merges each, and writes the answers in the printed form.
#![tactic(auto)]

ghost use Rattle.std.specs.Prelude.{◌+◌, ◌*◌, ◌≤◌, length};
ghost use Rattle.list_findings.specs.Findings.{width};

use list_findings::Finding;
use refusals::Refusal;
use std::io;

// The records of a list, at most, and its numbers; the numbers of a room, of 64 records.
const RECORDS: usize = 16;

const LIST: usize = RECORDS * list_findings::WIDTH;

const ROOM: usize = 64 * list_findings::WIDTH;

// The bytes of what is printed of a room: a number takes 21 at most.
const TEXT: usize = 64 + 21 * ROOM;

// The number that digits write, if it fits.
fn number(s: &[u8]) -> Option<u32> {
    let mut value: u32 = 0;
    for b in s {
        if !b.is_ascii_digit() {
            return None;
        }
        value = value.checked_mul(10)?.checked_add(u32::from(*b - b'0'))?;
    }
    Some(value)
}

// The numbers of a line, parted by spaces: written from the front of a list, and how many there are. What is no number that fits is 0.
fn numbers(line: &[u8], list: &mut [u32]) -> usize
    ensures { result ≤ length list.old }
{
    let mut words = line.split_inclusive(|b| *b == b' ');
    for (n, place) in list.iter_mut().enumerate() {
        let Some(digits) = words.next() else {
            return n;
        };
        *place = number(digits.strip_suffix(b" ").unwrap_or(digits)).unwrap_or(0);
    }
    list.len()
}

// Prints a list of so many findings.
fn print_list(rt: &impl Print, list: &[u32], n: usize, text: &mut [u8]) -> io::Result<()>
    requires { 64 + 21 * length list.now ≤ length text.old }
{
    let k = program_texts::put_list(text, list, n);
    rt.write_all(&text[..k])
}

fn print_refusal(rt: &impl Print, number: u32, place: usize, text: &mut [u8]) -> io::Result<()>
    requires { 64 ≤ length text.old }
{
    let k = program_texts::put_refusal(text, number, place);
    rt.write_all(&text[..k])
}

// The records of a list from its front. What is missing of a last record that is not whole is 0, so that its start is not below its end.
fn records(list: &[u32]) -> [Finding; RECORDS] {
    let mut made = [Finding::NONE; RECORDS];
    for (record, numbers) in made.iter_mut().zip(list.chunks(list_findings::WIDTH)) {
        let nth = |k: usize| numbers.get(k).copied().unwrap_or(0);
        *record = Finding {
            procedure: nth(0),
            first: nth(1),
            after: nth(2),
        };
    }
    made
}

// How many records n numbers begin.
fn count_of(n: usize) -> usize
    requires { n ≤ 16 * width }
    ensures { result ≤ 16 }
{
    n.div_ceil(list_findings::WIDTH)
}

// Merges the first n of some records with the first m of others.
fn merge_records(
    a: [Finding; RECORDS],
    n: usize,
    b: [Finding; RECORDS],
    m: usize,
    out: &mut [u32],
) -> Result<usize, Refusal>
    requires { (n ≤ 16) × (m ≤ 16) }
{
    list_merge::merge(&a[..n], &b[..m], out)
}

// Merges two lists into a third, and prints the answer.
fn merge_block(rt: &impl Print, a: &[u32], b: &[u32], out: &mut [u32]) -> io::Result<()>
    requires { (length a.now ≤ 16 * width) × (length b.now ≤ 16 * width) × (length out.old ≤ 64 * width) }
{
    let n = count_of(a.len());
    let m = count_of(b.len());
    let answer = merge_records(records(a), n, records(b), m, out);
    let mut text = [0u8; TEXT];
    match answer {
        Ok(count) => print_list(rt, out, count, &mut text),
        Err(refusal) => print_refusal(rt, refusal.reason.number(), refusal.value, &mut text),
    }
}

// The numbers of so many records, of 64 at most.
fn room_for(n: u32) -> usize
    ensures { result ≤ 64 * width }
{
    n.min(64) as usize * list_findings::WIDTH
}

// What stands behind the first n bytes of a line, and nothing where it is shorter.
fn behind(line: &[u8], n: usize) -> &[u8] {
    line.get(n..).unwrap_or(&[])
}

// A block: two lists and a room, a line each.
fn merge_lines(rt: &impl Print, first: &[u8], second: &[u8], third: &[u8]) -> io::Result<()> {
    let mut a = [0u32; LIST];
    let mut b = [0u32; LIST];
    let mut out = [0u32; ROOM];
    let mut room = [0u32; 1];
    let n = numbers(behind(first, 2), &mut a);
    let m = numbers(behind(second, 2), &mut b);
    numbers(behind(third, 5), &mut room);
    let r = room_for(room[0]);
    merge_block(rt, &a[..n], &b[..m], &mut out[..r])
}

// Each line that begins with `a ` begins a block.
fn merge_all(rt: &impl Print, s: &[u8]) -> io::Result<()> {
    let mut rest = s;
    while !rest.is_empty() {
        let (first, after) = program_input::cut(rest, b'\n');
        if first.starts_with(b"a ") {
            let (second, more) = program_input::cut(after, b'\n');
            let (third, _) = program_input::cut(more, b'\n');
            merge_lines(rt, first, second, third)?;
        }
        rest = after;
    }
    Ok(())
}

fn main(rt: HostRuntime) -> io::Result<()> {
    let mut space = [0u8; 65536];
    let n = program_input::read(&mut rt.stdin(), &mut space)?;
    merge_all(&rt, &space[..n])
}
