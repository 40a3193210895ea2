// The steps of the merge, on values: what is done with a finding of one list, or with one of each. `list_merge` walks the lists.
// A place in a list is counted in numbers.
#![tactic(auto)]

ghost use Rattle.std.specs.Prelude.{◌≡◌, ◌+◌, ◌^◌, ◌<◌};
ghost use Rattle.list_findings.specs.Findings.{width};
ghost use Rattle.list_steps.specs.Step.{alone_of, pair_of};

use list_findings::{Class, Finding};

// One step of the walk over two lists, with the places that come next: a finding is kept or left out. Or a fault's first byte; or
// the end.
#[derive(Clone, Copy)]
pub enum Stepped {
    Over,
    Fault(usize),
    Leave(usize, usize),
    Keep(Finding, usize, usize),
}

// Why two lists cannot be merged: they differ, first at a finding with this first byte.
#[derive(Clone, Copy, PartialEq, Eq)]
pub struct Differ {
    pub first: usize,
}

// A finding that stands in one list alone, with the places after it.
pub fn alone(finding: Finding, i: usize, j: usize) -> Stepped
    ensures { result ≡ alone_of finding i j }
{
    match list_findings::class_of(finding.procedure) {
        Class::DocumentOnly => Stepped::Fault(finding.first as usize),
        Class::Both => Stepped::Leave(i, j),
        Class::Either => Stepped::Keep(finding, i, j),
    }
}

// Of two records, one of each list, the one that stands first, or both.
pub fn pair(x: Finding, y: Finding, i: usize, j: usize) -> Stepped
    requires { (i + width < 2 ^ 64) × (j + width < 2 ^ 64) }
    ensures { result ≡ pair_of x y i j }
{
    if list_findings::precedes(x, y) {
        return alone(x, i + list_findings::WIDTH, j);
    }
    if list_findings::precedes(y, x) {
        return alone(y, i, j + list_findings::WIDTH);
    }
    if x.after == y.after {
        return Stepped::Keep(x, i + list_findings::WIDTH, j + list_findings::WIDTH);
    }
    Stepped::Fault(x.first as usize)
}
