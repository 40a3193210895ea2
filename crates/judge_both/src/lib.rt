// Checks a document under two tables files and merges the two lists: what the check under the joined file answers, without that file.
#![tactic(auto)]

ghost use Rattle.std.specs.Prelude.{◌≡◌, ◌*◌, ◌≤◌, length};
ghost use Rattle.list_findings.specs.Findings.{width};
ghost use Rattle.list_records.specs.Kept.{kept_in};
ghost use Rattle.judge_both.specs.Both.{merge_second, check_second, both_of, BothLeft};

use judge_findings::Answer;
use list_findings::Finding;
use refusals::{Reason, Refusal};

// Keeps m findings of a list behind n that are kept, and merges the two.
fn merge_second(
    list: &[u32],
    m: usize,
    records: &mut [Finding],
    n: usize,
    out: &mut [u32],
) -> Answer
    requires { (m * width ≤ length list.now) × (n ≤ length records.old) }
    ensures { (result ≡ (merge_second list.now m records.old n out.old).answer) × (records.new ≡ kept_in list.now m records.old n) × (out.new ≡ (merge_second list.now m records.old n out.old).list) }
{
    if !list_records::keep(list, m, records, n) {
        return Err(Refusal {
            reason: Reason::ShortList,
            value: n + m,
        });
    }
    list_records::merge_parts(records, n, m, out)
}

// Keeps the n findings under the first file, checks under the second, and merges.
fn check_second(
    document: &[u8],
    other: &[u8],
    scratch: &mut [u8],
    elements: &mut [u32],
    list: &mut [u32],
    n: usize,
    records: &mut [Finding],
    out: &mut [u32],
) -> Answer
    ensures { BothLeft (check_second document.now other.now scratch.old elements.old list.old n records.old out.old) result scratch.new elements.new list.new records.new out.new }
{
    if !list_records::keep(list, n, records, 0) {
        return Err(Refusal {
            reason: Reason::ShortList,
            value: n,
        });
    }
    match judge_check::check(document, other, scratch, elements, list) {
        Err(refusal) => Err(refusal),
        Ok(m) => merge_second(list, m, records, n, out),
    }
}

// Checks under the first file, then under the second, each into the list; what was found is kept as records, and merged into `out`.
pub fn check_both(
    document: &[u8],
    one: &[u8],
    other: &[u8],
    scratch: &mut [u8],
    elements: &mut [u32],
    list: &mut [u32],
    records: &mut [Finding],
    out: &mut [u32],
) -> Answer
    ensures { BothLeft (both_of document.now one.now other.now scratch.old elements.old list.old records.old out.old) result scratch.new elements.new list.new records.new out.new }
{
    match judge_check::check(document, one, scratch, elements, list) {
        Err(refusal) => Err(refusal),
        Ok(n) => { check_second(document, other, scratch, elements, list, n, records, out) }
    }
}
