// The merge of two lent lists of findings, slices of records that are walked together. A function over such a slice is thin: it reads a
// record, or hands the slices on. What decides takes values: `decide`, `follows` and `judge`.
// A place in a list is counted in numbers, as in `list_steps`, so that the steps are the same.
#![tactic(auto)]

ghost use Rattle.std.specs.Prelude.{◌≡◌, ◌+◌, ◌/◌, ◌^◌, ◌<◌, ◌≤◌, length, drop, slice_get, None};
ghost use Rattle.text_scan.specs.Choice.{◌and◌};
ghost use Rattle.list_findings.specs.Findings.{width, is_valid, precedes, records, flat, filled};
ghost use Rattle.list_findings.specs.Merge.{first_bad_record, merged, first_fault, IsMerged};
ghost use Rattle.list_steps.specs.Step.{merge_step, survey_of};
ghost use Rattle.list_merge.specs.Next.{decide_of, Place};
ghost use Rattle.list_merge.specs.Judge.{judge_of};

use list_findings::Finding;
use list_steps::{Differ, Stepped};
use refusals::{Reason, Refusal};

// The record at a place, if there is one.
fn next_at(list: &[Finding], place: usize) -> Option<Finding>
    ensures { result ≡ slice_get list.now (place / width) }
{
    list.get(place / list_findings::WIDTH).copied()
}

// What is done with the next records of two lists, at places i and j.
fn decide(x: Option<Finding>, i: usize, y: Option<Finding>, j: usize) -> Stepped
    requires { (i + width < 2 ^ 64) × (j + width < 2 ^ 64) }
    ensures { result ≡ decide_of x i y j }
{
    match (x, y) {
        (None, None) => Stepped::Over,
        (None, Some(g)) => list_steps::alone(g, i, j + list_findings::WIDTH),
        (Some(f), None) => list_steps::alone(f, i + list_findings::WIDTH, j),
        (Some(f), Some(g)) => list_steps::pair(f, g, i, j),
    }
}

// The step at places i and j of two lists.
fn step(a: &[Finding], i: usize, b: &[Finding], j: usize) -> Stepped
    requires { Place a.now i × Place b.now j }
    ensures { result ≡ merge_step (records (drop i (flat a.now))) i (records (drop j (flat b.now))) j }
{
    decide(next_at(a, i), i, next_at(b, j), j)
}

// Whether a record is valid and stands behind the record before it.
fn follows(last: Finding, next: Finding) -> bool
    ensures { result ≡ (is_valid next and precedes last next) }
{
    list_findings::is_valid(next) && list_findings::precedes(last, next)
}

// The number of the first bad record.
fn first_bad(list: &[Finding]) -> Option<usize>
    ensures { result ≡ first_bad_record (flat list.now) }
{
    let mut last = Finding::NONE;
    for (n, next) in list.iter().enumerate() {
        if !follows(last, *next) {
            return Some(n);
        }
        last = *next;
    }
    None
}

// Walks two lists together, and counts what is kept.
fn survey(a: &[Finding], b: &[Finding]) -> Result<usize, Differ>
    ensures { result ≡ survey_of 0 (records (flat a.now)) (records (flat b.now)) }
{
    let mut i = 0;
    let mut j = 0;
    let mut n = 0;
    loop {
        match step(a, i, b, j) {
            Stepped::Over => return Ok(n),
            Stepped::Fault(first) => return Err(Differ { first }),
            Stepped::Leave(x, y) => {
                i = x;
                j = y;
            }
            Stepped::Keep(_, x, y) => {
                n += 1;
                i = x;
                j = y;
            }
        }
    }
}

// Walks two lists together, and appends what is kept to a third.
fn write(a: &[Finding], b: &[Finding], out: &mut [u32])
    requires { (first_fault (records (flat a.now)) (records (flat b.now)) ≡ None) × (length (merged (records (flat a.now)) (records (flat b.now))) ≤ length out.old / width) }
    ensures { out.new ≡ filled (merged (records (flat a.now)) (records (flat b.now))) out.old }
{
    let mut i = 0;
    let mut j = 0;
    let mut n = 0;
    loop {
        match step(a, i, b, j) {
            Stepped::Over => return,
            Stepped::Fault(_) => return,
            Stepped::Leave(x, y) => {
                i = x;
                j = y;
            }
            Stepped::Keep(finding, x, y) => {
                n = list_writer::append_at(out, n, finding);
                i = x;
                j = y;
            }
        }
    }
}

// The refusals in their order, of what was found and the room for records; or how many findings there are.
fn judge(
    first: Option<usize>,
    second: Option<usize>,
    found: Result<usize, Differ>,
    room: usize,
) -> Result<usize, Refusal>
    ensures { result ≡ judge_of first second found room }
{
    if let Some(n) = first {
        return Err(Refusal {
            reason: Reason::BadList,
            value: n,
        });
    }
    if let Some(n) = second {
        return Err(Refusal {
            reason: Reason::BadList,
            value: n,
        });
    }
    match found {
        Err(differ) => Err(Refusal {
            reason: Reason::NoMerge,
            value: differ.first,
        }),
        Ok(n) if room < n => Err(Refusal {
            reason: Reason::ShortList,
            value: n,
        }),
        Ok(n) => Ok(n),
    }
}

// Merges two lists of findings into a third, from its front, and answers how many there are; or refuses, and leaves it as it was.
pub fn merge(a: &[Finding], b: &[Finding], out: &mut [u32]) -> Result<usize, Refusal>
    ensures { IsMerged (flat a.now) (flat b.now) out.old result out.new }
{
    let answer = judge(
        first_bad(a),
        first_bad(b),
        survey(a, b),
        out.len() / list_findings::WIDTH,
    );
    let Ok(_) = answer else {
        return answer;
    };
    write(a, b, out);
    answer
}
