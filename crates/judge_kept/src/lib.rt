// What is kept of each element of a draft beside its row, so that no tag is walked twice: where its text and the attributes that its role lists stand,
// if they say the bytes there, and whether it has no other attribute. It changes no answer: what is not kept is read of the document.
#![tactic(auto)]

ghost use Rattle.std.specs.Prelude.{◌≡◌, [], ◌∷◌, ◌++◌, ◌+◌, ◌*◌, ◌^◌, ◌≤◌, ◌<◌, length, get_or};
ghost use Rattle.std.proofs.lemmas.List.Edits.{sets};
ghost use Rattle.judge_paths.specs.Attributes.{is_role};
ghost use Rattle.judge_kept.specs.Kept.{kept_width, rows_in, kept_in, first_number, after_number, place_numbers, listed_numbers, text_roles, text_kept, names_of, listed_by, listed_kept, kept_of, standing, text_held, which_of, no_other, attribute_held, flag_of};

use judge_paths::role;
use xml_listed::{Listed, listed_in};
use xml_reader::Reader;
use xml_values::Place;

// How many numbers the notes have for each element: its row of four, and what is kept of it.
pub const NOTE: usize = 13;

pub const KEPT: usize = 9;

// The number at place k of element n's row, or 0 past the last.
pub fn row_number(notes: &[u32], n: usize, k: usize) -> usize
    requires { k < 4 }
    ensures { (result ≡ get_or (rows_in notes.now) (4 * n + k) 0) × (result < 2 ^ 32) }
{
    if n < notes.len() / NOTE {
        return notes[4 * n + k] as usize;
    }
    0
}

// The number at place i of what is kept of element n, or 0 past the last.
fn kept_number(notes: &[u32], n: usize, i: usize) -> usize
    requires { i < kept_width }
    ensures { result ≡ kept_in notes.now n i }
{
    let count = notes.len() / NOTE;
    if n < count {
        return notes[4 * count + KEPT * n + i] as usize;
    }
    0
}

// The place that stands in two numbers, if it is one of the document.
fn place_at(document: &[u8], notes: &[u32], n: usize, i: usize) -> Option<Place>
    requires { i + 1 < kept_width }
    ensures { result ≡ standing document.now (kept_in notes.now n i) (kept_in notes.now n (i + 1)) }
{
    let a = kept_number(notes, n, i);
    let f = kept_number(notes, n, i + 1);
    if a < f && f - 1 <= document.len() {
        Some(Place {
            first: a,
            after: f - 1,
        })
    } else {
        None
    }
}

// Where the text of element n stands, if that is kept.
pub fn text_held(document: &[u8], notes: &[u32], n: usize) -> Option<Place>
    ensures { result ≡ text_held document.now notes.now n }
{
    place_at(document, notes, n, 0)
}

// Whether element n is known to have no attribute that its role does not list.
pub fn has_no_other(notes: &[u32], n: usize) -> bool
    ensures { result ≡ no_other notes.now n }
{
    kept_number(notes, n, 8) == 1
}

// Which of three names it is; 3 for none of them.
fn which(name: &[u8], x: &[u8], y: &[u8], z: &[u8]) -> usize
    ensures { result ≡ which_of name.now (record { x = x.entry.now; y = y.now; z = z.now }) }
{
    if text_facts::same(name, x) {
        return 0;
    }
    if text_facts::same(name, y) {
        return 1;
    }
    if text_facts::same(name, z) {
        return 2;
    }
    3
}

// Which of the names that a role lists it is.
fn slot(role: u32, name: &[u8]) -> usize
    ensures { result ≡ which_of name.now (names_of role) }
{
    match role {
        role::ROOT => which(name, b"xmlns", b"xmlns:xsi", b"xsi:schemaLocation"),
        role::ID | role::ORGANISATION_ID => which(name, b"root", b"extension", b""),
        role::SET_ID => which(name, b"root", b"", b""),
        role::CODE | role::OPERATION_CODE => which(name, b"code", b"codeSystem", b"displayName"),
        role::EFFECTIVE_TIME | role::VERSION_NUMBER | role::TELECOM => which(
            name, b"value", b"", b"",
        ),
        role::TITLE => which(name, b"mediaType", b"", b""),
        _ => which(name, b"", b"", b""),
    }
}

// Where the attribute of this name of element n stands, if that is kept.
pub fn attribute_held(document: &[u8], notes: &[u32], n: usize, name: &[u8]) -> Option<Place>
    ensures { result ≡ attribute_held document.now notes.now n name.now }
{
    let role = row_number(notes, n, 0) as u32;
    let k = slot(role, name);
    if k < 3 {
        return place_at(document, notes, n, 2 + 2 * k);
    }
    if has_no_other(notes, n) {
        return Some(Place { first: 0, after: 0 });
    }
    None
}

// Whether a procedure asks for the text of elements of this role.
fn has_text(number: u32) -> bool
    ensures { result ≡ is_role number text_roles }
{
    matches!(
        number,
        role::ORGANISATION_NAME
            | role::PERSON_NAME
            | role::STREET_ADDRESS_LINE
            | role::CITY
            | role::STATE
            | role::POSTAL_CODE
            | role::COUNTRY
    )
}

// The text of the element that begins at `first`, where a procedure asks for it.
fn text_of(document: &[u8], first: usize, role: u32) -> Option<Place>
    ensures { result ≡ text_kept document.now first role }
{
    if has_text(role) {
        return xml_texts::plain_text(document, first);
    }
    None
}

// The attributes that a role lists, of the element that begins at `first`, and whether it has others.
fn listed_by(document: &[u8], first: usize, role: u32) -> Listed
    ensures { result ≡ listed_by document.now first (names_of role) }
{
    match role {
        role::ROOT => listed_in(
            document,
            first,
            b"xmlns",
            b"xmlns:xsi",
            b"xsi:schemaLocation",
        ),
        role::ID | role::ORGANISATION_ID => listed_in(document, first, b"root", b"extension", b""),
        role::SET_ID => listed_in(document, first, b"root", b"", b""),
        role::CODE | role::OPERATION_CODE => listed_in(
            document,
            first,
            b"code",
            b"codeSystem",
            b"displayName",
        ),
        role::EFFECTIVE_TIME | role::VERSION_NUMBER | role::TELECOM => listed_in(
            document, first, b"value", b"", b"",
        ),
        role::TITLE => listed_in(document, first, b"mediaType", b"", b""),
        _ => listed_in(document, first, b"", b"", b""),
    }
}

// The same where the element is known.
fn listed_of(document: &[u8], first: usize, role: u32) -> Listed
    ensures { result ≡ listed_kept document.now first role }
{
    if role <= role::UNLISTED {
        return Listed {
            x: None,
            y: None,
            z: None,
            other: true,
        };
    }
    listed_by(document, first, role)
}

// A place as two numbers: its first byte, and one more than the place after it.
fn numbers(place: Option<Place>) -> (u32, u32)
    ensures { result ≡ (first_number place, after_number place) }
{
    match place {
        Some(Place { first, after }) if first <= after && after <= Reader::DOCUMENT => {
            (first as u32, (after + 1) as u32)
        }
        _ => (0, 0),
    }
}

// Stores a place.
fn put_place(place: Option<Place>, notes: &mut [u32], at: usize)
    requires { at + 2 ≤ length notes.old }
    ensures { notes.new ≡ sets notes.old at (place_numbers place) }
{
    let (first, after) = numbers(place);
    notes[at] = first;
    notes[at + 1] = after;
}

// Whether there are no others, as a number.
fn flag(other: bool) -> u32
    ensures { result ≡ flag_of other }
{
    if other {
        return 0;
    }
    1
}

// Stores two places, and one with a flag.
fn put_two(x: Option<Place>, y: Option<Place>, notes: &mut [u32], at: usize)
    requires { at + 4 ≤ length notes.old }
    ensures { notes.new ≡ sets notes.old at (place_numbers x ++ place_numbers y) }
{
    put_place(x, notes, at);
    put_place(y, notes, at + 2);
}

fn put_last(z: Option<Place>, other: bool, notes: &mut [u32], at: usize)
    requires { at + 3 ≤ length notes.old }
    ensures { notes.new ≡ sets notes.old at (place_numbers z ++ (flag_of other ∷ [])) }
{
    put_place(z, notes, at);
    notes[at + 2] = flag(other);
}

// Stores the places of attributes.
fn put_listed(l: Listed, notes: &mut [u32], at: usize)
    requires { at + 7 ≤ length notes.old }
    ensures { notes.new ≡ sets notes.old at (listed_numbers l) }
{
    put_two(l.x, l.y, notes, at);
    put_last(l.z, l.other, notes, at + 4);
}

// Stores what is kept of the element that begins at `first` and has this role.
pub fn keep(document: &[u8], first: usize, role: u32, notes: &mut [u32], at: usize)
    requires { at + kept_width ≤ length notes.old }
    ensures { notes.new ≡ sets notes.old at (kept_of document.now first role) }
{
    put_place(text_of(document, first, role), notes, at);
    put_listed(listed_of(document, first, role), notes, at + 2);
}
