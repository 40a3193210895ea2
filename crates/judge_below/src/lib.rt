// The elements below an element that a procedure looks for.
#![tactic(auto)]

ghost use Rattle.std.specs.Prelude.{◌≡◌, ◌+◌, length};
ghost use Rattle.text_scan.specs.Choice.{not};
ghost use Rattle.judge_draft.specs.Drafts.{lent, is_empty};
ghost use Rattle.judge_below.specs.Chosen.{ancestor, chosen, first_one, only_one, is_the, only_kid};
ghost use Rattle.judge_below.specs.Searching.{passes_below, chosen_from};

use judge_draft::Draft;
use judge_tests::{Test, is_passed};

// What is looked for below an element: the elements of a role, so many levels below it, that pass a test.
#[derive(Clone, Copy)]
pub struct Wanted {
    pub role: u32,
    pub levels: usize,
    pub test: Test,
}

// The element so many levels above k.
pub fn ancestor(draft: Draft, levels: usize, k: usize) -> usize
    ensures { result ≡ ancestor (lent draft.entry) levels k }
{
    let mut at = k;
    for _ in 0..levels {
        at = draft.parent(at);
    }
    at
}

// Whether element k stands so many levels below n, and passes the test.
fn is_placed(draft: Draft, wanted: Wanted, n: usize, k: usize) -> bool
    ensures { result ≡ passes_below (lent draft.entry) wanted n k }
{
    let test = wanted.test;
    if ancestor(draft, wanted.levels, k) == n {
        return is_passed(draft, test, k);
    }
    false
}

// The next one below n, of the elements from this one on. Most have another role: the loop itself asks for it, and a call for each would
// cost more than the question.
fn next(draft: Draft, wanted: Wanted, n: usize, from: usize) -> Option<usize>
    ensures { result ≡ first_one (chosen_from (lent draft.entry) wanted n from) }
{
    let end = draft.byte_after(n);
    let sought = wanted.role;
    for k in from..draft.notes.len() / 4 {
        if end <= draft.notes[4 * k + 2] as usize {
            return None;
        }
        if draft.notes[4 * k] != sought {
            continue;
        }
        if is_placed(draft, wanted, n, k) {
            return Some(k);
        }
    }
    None
}

// The only one below n, where there is just one.
pub fn only(draft: Draft, wanted: Wanted, n: usize) -> Option<usize>
    ensures { result ≡ only_one (chosen (lent draft.entry) wanted n) }
{
    if draft.notes.len() <= n {
        return None;
    }
    let Some(k) = next(draft, wanted, n, n + 1) else {
        return None;
    };
    match next(draft, wanted, n, k + 1) {
        None => Some(k),
        Some(_) => None,
    }
}

// The only child of this role.
pub fn only_kid(draft: Draft, n: usize, role: u32) -> Option<usize>
    ensures { result ≡ only_kid (lent draft.entry) n role }
{
    only(
        draft,
        Wanted {
            role: role,
            levels: 1,
            test: Test::Any,
        },
        n,
    )
}

// Whether one below n stands behind element k.
fn is_followed(draft: Draft, wanted: Wanted, n: usize, k: usize) -> bool
    ensures { result ≡ not (is_empty (chosen_from (lent draft.entry) wanted n (k + 1))) }
{
    if draft.notes.len() <= k {
        return false;
    }
    match next(draft, wanted, n, k + 1) {
        None => false,
        Some(_) => true,
    }
}

// Whether element k is the only one below n. One behind k is looked for first: of many, each but the last sees the next.
pub fn is_only(draft: Draft, wanted: Wanted, n: usize, k: usize) -> bool
    ensures { result ≡ is_the (only_one (chosen (lent draft.entry) wanted n)) k }
{
    if draft.notes.len() <= n {
        return false;
    }
    if is_followed(draft, wanted, n, k) {
        return false;
    }
    match next(draft, wanted, n, n + 1) {
        None => false,
        Some(first) => first == k,
    }
}

// Whether element k is the only child of n of this role.
pub fn is_only_kid(draft: Draft, n: usize, role: u32, k: usize) -> bool
    ensures { result ≡ is_the (only_kid (lent draft.entry) n role) k }
{
    is_only(
        draft,
        Wanted {
            role: role,
            levels: 1,
            test: Test::Any,
        },
        n,
        k,
    )
}

// Whether there is none below n.
pub fn none(draft: Draft, wanted: Wanted, n: usize) -> bool
    ensures { result ≡ is_empty (chosen (lent draft.entry) wanted n) }
{
    if draft.notes.len() <= n {
        return true;
    }
    match next(draft, wanted, n, n + 1) {
        None => true,
        Some(_) => false,
    }
}

// How many there are below n.
pub fn how_many(draft: Draft, wanted: Wanted, n: usize) -> usize
    ensures { result ≡ length (chosen (lent draft.entry) wanted n) }
{
    if draft.notes.len() <= n {
        return 0;
    }
    let end = draft.byte_after(n);
    let sought = wanted.role;
    let mut found = 0;
    for k in n + 1..draft.notes.len() / 4 {
        if end <= draft.notes[4 * k + 2] as usize {
            return found;
        }
        if draft.notes[4 * k] != sought {
            continue;
        }
        if is_placed(draft, wanted, n, k) {
            found += 1;
        }
    }
    found
}
