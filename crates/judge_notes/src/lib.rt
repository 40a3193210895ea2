// The notes of a document: the element table with the role of each element in place of its number. A role is asked of the parent's number by
// recursion, which remembers the roles that are noted already.
#![tactic(auto)]

ghost use Rattle.std.specs.Prelude.{◌≡◌, ◌++◌, ◌+◌, ◌*◌, ◌/◌, ◌^◌, ◌≤◌, ◌<◌, length, take, drop, get_or, set};
ghost use Rattle.xml_steps.specs.Reading.{parent_of};
ghost use Rattle.judge_paths.specs.Paths.{role_of};
ghost use Rattle.judge_notes.specs.Notes.{notes_of, noted};

use judge_paths::{DocumentType, role};

// The k-th number of element n's row.
fn row_number(elements: &[u32], n: usize, k: usize) -> usize
    requires { (n < length elements.now / 4) × (k < 4) }
    ensures { (result ≡ get_or elements.now (4 * n + k) 0) × (result < 2 ^ 32) }
{
    elements[4 * n + k] as usize
}

// The role of element n, in a parent of that role.
fn role_in(document: &[u8], elements: &[u32], kind: DocumentType, n: usize, above: u32) -> u32
    requires { (n < length elements.now / 4) × (above ≡ role_of document.now elements.now kind (parent_of elements.now n)) }
    ensures { result ≡ role_of document.now elements.now kind n }
{
    if n == 0 {
        return role::ROOT;
    }
    if n <= row_number(elements, n, 1) {
        return role::UNKNOWN;
    }
    let first = row_number(elements, n, 2);
    if document.len() <= first {
        return role::UNKNOWN;
    }
    if above < role::ROOT {
        return role::UNKNOWN;
    }
    let start = first + 1;
    let end = xml_names::name_end(document, start);
    judge_paths::child_role(kind, above, &document[start..end])
}

// The role of element n: as it is noted, or asked of its parent's number, which stands earlier in document order.
fn role_of(document: &[u8], elements: &[u32], n: usize, kind: DocumentType, stored: &[u32]) -> u32
    requires { (length stored.now ≤ 4 * (length elements.now / 4)) × (stored.now ≡ take (length stored.now) (notes_of document.now elements.now kind)) }
    ensures { result ≡ role_of document.now elements.now kind n }
{
    if n < stored.len() / 4 {
        return stored[4 * n];
    }
    if n == 0 {
        return role::ROOT;
    }
    if elements.len() / 4 <= n {
        return role::UNKNOWN;
    }
    let parent = row_number(elements, n, 1);
    if n <= parent {
        return role::UNKNOWN;
    }
    let above = role_of(document, elements, parent, kind, stored);
    role_in(document, elements, kind, n, above)
}

// The role of element n: that of `last`, which was asked for before, where n is it.
fn role_at(
    document: &[u8],
    elements: &[u32],
    kind: DocumentType,
    n: usize,
    last: usize,
    known: u32,
    stored: &[u32],
) -> u32
    requires { (known ≡ role_of document.now elements.now kind last) × (length stored.now ≤ 4 * (length elements.now / 4)) × (stored.now ≡ take (length stored.now) (notes_of document.now elements.now kind)) }
    ensures { result ≡ role_of document.now elements.now kind n }
{
    if n == last {
        return known;
    }
    role_of(document, elements, n, kind, stored)
}

// Stores the notes of element n: its role, and the rest of its row.
fn put_note(elements: &[u32], n: usize, role: u32, notes: &mut [u32])
    requires { (n < length elements.now / 4) × (4 * n + 4 ≤ length notes.old) }
    ensures { notes.new ≡ set (set (set (set notes.old (4 * n) role) (4 * n + 1) (get_or elements.now (4 * n + 1) 0)) (4 * n + 2) (get_or elements.now (4 * n + 2) 0)) (4 * n + 3) (get_or elements.now (4 * n + 3) 0) }
{
    let k = 4 * n;
    notes[k] = role;
    notes[k + 1] = elements[k + 1];
    notes[k + 2] = elements[k + 2];
    notes[k + 3] = elements[k + 3];
}

// Stores the notes of all elements. Neighbours often have one parent, whose role is then asked for once.
fn fill_all(document: &[u8], elements: &[u32], kind: DocumentType, notes: &mut [u32])
    requires { 4 * (length elements.now / 4) ≤ length notes.old }
    ensures { notes.new ≡ notes_of document.now elements.now kind ++ drop (4 * (length elements.now / 4)) notes.old }
{
    let mut parent = 0;
    let mut above = role::ROOT;
    for k in 0..elements.len() / 4 {
        let next = row_number(elements, k, 1);
        let end = 4 * k;
        above = role_at(
            document,
            elements,
            kind,
            next,
            parent,
            above,
            &notes[0..end],
        );
        parent = next;
        let own = role_in(document, elements, kind, k, above);
        put_note(elements, k, own, notes);
    }
}

// Stores the notes of all elements in the front of a run, if it has room for them.
pub fn fill(document: &[u8], elements: &[u32], kind: DocumentType, notes: &mut [u32])
    ensures { notes.new ≡ noted document.now elements.now kind notes.old }
{
    if 4 * (elements.len() / 4) <= notes.len() {
        fill_all(document, elements, kind, notes);
    }
}
