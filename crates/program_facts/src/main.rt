// Runs the facts on the lines of its standard input, each a fact's name and one or two values parted by tabs, and writes each line
// with the answer behind it: 1 for yes, 0 for no, or the version number.
#![tactic(auto)]

use std::io;

fn judge(fact: &[u8], a: &[u8], b: &[u8]) -> u64 {
    match fact {
        b"day" => u64::from(text_numbers::is_day(a)),
        b"labeler" => u64::from(text_facts::is_labeler_code(a)),
        b"telephone" => u64::from(text_telephones::is_telephone(a)),
        b"guid" => u64::from(text_facts::is_guid(a)),
        b"version" => text_numbers::version(a) as u64,
        b"without space" => u64::from(text_facts::without_space(a)),
        b"same" => u64::from(text_facts::same(a, b)),
        b"same in any case" => u64::from(text_facts::same_in_any_case(a, b)),
        _ => u64::from(text_facts::begins_with(a, b)),
    }
}

fn judge_line(rt: &impl Print, line: &[u8]) -> io::Result<()> {
    let (fact, values) = program_input::cut(line, b'\t');
    let (a, b) = program_input::cut(values, b'\t');
    let answer = judge(fact, a, b);
    rt.write_all(line)?;
    println!(rt; "\t{answer}")
}

fn judge_all(rt: &impl Print, s: &[u8]) -> io::Result<()> {
    for line in s.split_inclusive(|b| *b == b'\n') {
        judge_line(rt, line.strip_suffix(b"\n").unwrap_or(line))?;
    }
    Ok(())
}

fn main(rt: HostRuntime) -> io::Result<()> {
    let mut space = [0u8; 65536];
    let n = program_input::read(&mut rt.stdin(), &mut space)?;
    judge_all(&rt, &space[..n])
}
