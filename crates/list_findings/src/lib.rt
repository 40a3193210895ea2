// A finding, the order of findings, the classes of procedures, and records in lent runs of 32-bit numbers.
#![tactic(auto)]

ghost use Rattle.std.specs.Prelude.{◌≡◌, ◌+◌, ◌-◌, ◌≤◌, leb, length};
ghost use Rattle.list_findings.specs.Findings.{width, class_of, is_valid, precedes, record_at, stored};

// The numbers of a record.
pub const WIDTH: usize = 3;

// The last procedure.
pub const LAST_PROCEDURE: u32 = 38;

// The procedures whose findings stay where both lists have them, and where either has; all others stand in both.
const KEPT_BY_BOTH: [u32; 3] = [8, 18, 34];

const KEPT_BY_EITHER: [u32; 4] = [6, 12, 21, 22];

#[repr(C)]
#[derive(Clone, Copy)]
pub struct Finding {
    pub procedure: u32,
    pub first: u32,
    pub after: u32,
}

impl Finding {
    // No finding: procedure 0 at byte 0, which stands before all that are valid.
    pub const NONE: Finding = Finding {
        procedure: 0,
        first: 0,
        after: 0,
    };
}

// What the merge asks of a procedure's findings.
#[derive(Clone, Copy)]
pub enum Class {
    DocumentOnly,
    Both,
    Either,
}

// The class of a procedure, by the lists that name it.
pub fn class_of(procedure: u32) -> Class
    ensures { result ≡ class_of procedure }
{
    if KEPT_BY_BOTH.contains(&procedure) {
        Class::Both
    } else if KEPT_BY_EITHER.contains(&procedure) {
        Class::Either
    } else {
        Class::DocumentOnly
    }
}

// Whether the procedure is one of 1 to the last, and the start below the end.
pub fn is_valid(finding: Finding) -> bool
    ensures { result ≡ is_valid finding }
{
    1 <= finding.procedure && finding.procedure <= LAST_PROCEDURE && finding.first < finding.after
}

// Whether x stands before y: by the first byte, then by the procedure. A derived order would go by the fields as the C interface has them.
pub fn precedes(x: Finding, y: Finding) -> bool
    ensures { result ≡ precedes x y }
{
    (x.first, x.procedure) < (y.first, y.procedure)
}

// Whether a whole record stands at k.
pub fn has_record(s: &[u32], k: usize) -> bool
    ensures { result ≡ leb width (length s.now - k) }
{
    WIDTH <= s.len().saturating_sub(k)
}

// The record at k.
pub fn record_at(s: &[u32], k: usize) -> Finding
    requires { k + width ≤ length s.now }
    ensures { result ≡ record_at s.now k }
{
    Finding {
        procedure: s[k],
        first: s[k + 1],
        after: s[k + 2],
    }
}

// Writes a record at k.
pub fn put(list: &mut [u32], k: usize, finding: Finding)
    requires { k + width ≤ length list.old }
    ensures { list.new ≡ stored list.old k finding }
{
    list[k] = finding.procedure;
    list[k + 1] = finding.first;
    list[k + 2] = finding.after;
}
