// Text in a lent room: each function puts some behind the first bytes, and answers where it ends.
#![tactic(auto)]

mod number;

ghost use Rattle.std.specs.Prelude.{◌+◌, ◌*◌, ◌≤◌, length, ◌++◌};
ghost use Rattle.list_findings.specs.Findings.{width};
ghost use Rattle.table_join.specs.Written.{decimal};
ghost use Rattle.program_texts.specs.Texts.{Put, finding_line, finding_lines, count_text, refusal_text};

use list_findings::Finding;
use number::put_digits;

// Puts a text.
pub fn put(out: &mut [u8], at: usize, text: &[u8]) -> usize
    requires { at + length text.now ≤ length out.old }
    ensures { Put out.old at text.now result out.new }
{
    let end = at + text.len();
    out[at..end].copy_from_slice(text);
    end
}

// Puts a number in decimal, which takes 20 bytes at most, and a text behind it.
pub fn put_number(out: &mut [u8], at: usize, n: u64, end: &[u8]) -> usize
    requires { at + 20 + length end.now ≤ length out.old }
    ensures { Put out.old at (decimal n ++ end.now) result out.new × (result ≤ at + 20 + length end.now) }
{
    let mut digits = [0u8; 20];
    let k = put_digits(n, &mut digits);
    let next = put(out, at, &digits[..k]);
    put(out, next, end)
}

// Puts the line of a finding.
fn put_finding(out: &mut [u8], at: usize, finding: Finding) -> usize
    requires { at + 21 * width ≤ length out.old }
    ensures { Put out.old at (finding_line finding) result out.new × (result ≤ at + 21 * width) }
{
    let first = put_number(out, at, finding.procedure as u64, b" ");
    let after = put_number(out, first, finding.first as u64, b" ");
    put_number(out, after, finding.after as u64, b"\n")
}

// Puts the lines of the first n findings of a list.
fn put_findings(out: &mut [u8], at: usize, list: &[u32], n: usize) -> usize
    requires { at + 21 * length list.now ≤ length out.old }
    ensures { Put out.old at (finding_lines list.now 0 n) result out.new }
{
    let mut next = at;
    for i in 0..n {
        let k = i * list_findings::WIDTH;
        if !list_findings::has_record(list, k) {
            return next;
        }
        next = put_finding(out, next, list_findings::record_at(list, k));
    }
    next
}

// Puts the number of findings, and then a line for each.
pub fn put_list(out: &mut [u8], list: &[u32], n: usize) -> usize
    requires { 64 + 21 * length list.now ≤ length out.old }
    ensures { Put out.old 0 (count_text n ++ finding_lines list.now 0 n) result out.new }
{
    let at = put(out, 0, b"findings ");
    let next = put_number(out, at, n as u64, b"\n");
    put_findings(out, next, list, n)
}

// Puts a refusal.
pub fn put_refusal(out: &mut [u8], number: u32, place: usize) -> usize
    requires { 64 ≤ length out.old }
    ensures { Put out.old 0 (refusal_text number place) result out.new }
{
    let at = put(out, 0, b"refused ");
    let next = put_number(out, at, number as u64, b" at ");
    put_number(out, next, place as u64, b"\n")
}
