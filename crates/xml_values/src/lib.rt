// The values of a tag's attributes, of documents that were read: nothing is judged again. And how a value is shown.
#![tactic(auto)]

ghost use Rattle.std.specs.Prelude.{◌≡◌, [], ◌∷◌, length, ltb};
ghost use Rattle.text_scan.specs.Choice.{◌and◌, not};
ghost use Rattle.text_scan.specs.Lists.{every};
ghost use Rattle.xml_names.specs.Names.{name_end};
ghost use Rattle.xml_values.specs.Attributes.{name_after, is_bare, attribute_place, attribute_of, is_listed, has_other};
ghost use Rattle.xml_values.specs.Views.{is_shown, view_in, said_in, plain_of, seen, InRange, view_within, Shows, as_read, ShowsAt};

use xml_attributes::{Attribute, Attributes};
use xml_reader::Reader;

// Where a raw value stands: its first byte and the place after it.
#[derive(Clone, Copy)]
pub struct Place {
    pub first: usize,
    pub after: usize,
}

// How a value is shown: as a part of the document, or as so many bytes in front of the scratch area.
#[derive(Clone, Copy)]
pub enum View {
    Document(usize, usize),
    Scratch(usize),
}

// The place after the name of the tag that begins at `first`, or the length.
pub fn name_after(s: &[u8], first: usize) -> usize
    ensures { result ≡ name_after s.now first }
{
    if text_scan::byte(s, first) != 60 {
        return s.len();
    }
    let n = xml_names::element_end(s, first + 1);
    if n <= first + 1 {
        return s.len();
    }
    n
}

// Whether the tag that begins at `first` has no attributes, as can be seen behind its name.
pub fn is_bare(s: &[u8], first: usize) -> bool
    ensures { result ≡ is_bare s.now first }
{
    let n = name_after(s, first);
    text_scan::byte(s, n) == 62
}

// The raw value of the attribute `name` of the tag that begins at `first`.
pub fn attribute_place(s: &[u8], first: usize, name: &[u8]) -> Option<Place>
    ensures { result ≡ attribute_place s.now first name.now }
{
    let at = name_after(s, first);
    let found = Attributes { s, at }.find(|a| xml_names::is_named(s, a.at, a.name_end, name));
    let Some(a) = found else {
        return None;
    };
    if a.value_end - a.value <= Reader::VALUE {
        return Some(Place {
            first: a.value,
            after: a.value_end,
        });
    }
    None
}

// Whether an attribute is not empty and has none of three names.
fn is_other(s: &[u8], a: Attribute, x: &[u8], y: &[u8], z: &[u8]) -> bool
    requires { a.name_end ≡ name_end s.now a.at }
    ensures { result ≡ ltb a.value a.value_end and not (is_listed (x.now ∷ y.now ∷ z.now ∷ []) s.now a.at) }
{
    let valued = a.value < a.value_end;
    if valued {
        if xml_names::is_named(s, a.at, a.name_end, x) {
            return false;
        }
        if xml_names::is_named(s, a.at, a.name_end, y) {
            return false;
        }
        if xml_names::is_named(s, a.at, a.name_end, z) {
            return false;
        }
        return true;
    }
    false
}

// Whether the tag that begins at `first` has an attribute that is not empty and has none of three names.
pub fn has_other_attribute(s: &[u8], first: usize, x: &[u8], y: &[u8], z: &[u8]) -> bool
    ensures { result ≡ has_other s.now first (x.now ∷ y.now ∷ z.now ∷ []) }
{
    let at = name_after(s, first);
    Attributes { s, at }.any(|a| is_other(s, a, x, y, z))
}

// Whether raw bytes hold no reference and nothing that is dropped, so that they are shown as they stand.
pub fn all_shown(raw: &[u8]) -> bool
    ensures { result ≡ every is_shown raw.now }
{
    raw.iter().all(|b| *b != b'&' && *b != b'<')
}

// Where a value stands, if it says the bytes there; an absent one is an empty part. Of a place that is not within, the bytes that there are count.
pub fn plain(s: &[u8], place: Option<Place>) -> Option<Place>
    ensures { result ≡ plain_of s.now place }
{
    let Some(there) = place else {
        return Some(Place { first: 0, after: 0 });
    };
    let after = there.after.min(s.len());
    let first = there.first.min(after);
    if all_shown(&s[first..after]) {
        return Some(there);
    }
    None
}

// Where the attribute `name` of the tag that begins at `first` stands, if it says the bytes there.
pub fn plain_attribute(s: &[u8], first: usize, name: &[u8]) -> Option<Place>
    ensures { result ≡ plain_of s.now (attribute_place s.now first name.now) }
{
    plain(s, attribute_place(s, first, name))
}

// What the attribute `name` of the tag that begins at `first` says, shown as a part of s or in front of `out`, which has to have room for a value.
pub fn attribute_value(s: &[u8], first: usize, name: &[u8], out: &mut [u8]) -> View
    ensures { Shows s.now (attribute_place s.now first name.now) (attribute_of s.now first name.now) out.old result out.new }
{
    if out.len() < Reader::VALUE {
        return View::Document(0, 0);
    }
    let Some(place) = attribute_place(s, first, name) else {
        return View::Document(0, 0);
    };
    if all_shown(&s[place.first..place.after]) {
        return View::Document(place.first, place.after);
    }
    View::Scratch(xml_references::decode(s, place.first, place.after, out))
}

// A part of the document lives at least as long as the scratch area: the same part, for as long as `at`.
fn shorter<'d: 's, 's>(document: &'d [u8], at: &'s [u8]) -> &'s [u8]
    ensures { result ≡ document.entry }
{
    document
}

fn either<'r>(document: &'r [u8], scratch: &'r [u8], view: View) -> &'r [u8]
    requires { InRange document.now scratch.now view }
    ensures { ShowsAt document.entry scratch.entry view (seen document.now scratch.now view) result }
{
    match view {
        View::Document(a, e) => &document[a..e],
        View::Scratch(n) => &scratch[..n],
    }
}

// A view of so many bytes of the document and of the scratch area: an empty part of the document where its numbers are out of range.
fn in_range(view: View, document: usize, scratch: usize) -> View
    ensures { result ≡ view_within document scratch view }
{
    match view {
        View::Document(first, after) => {
            if after < first {
                return View::Document(0, 0);
            }
            if document < after {
                return View::Document(0, 0);
            }
            return View::Document(first, after);
        }
        View::Scratch(n) => {
            if scratch < n {
                return View::Document(0, 0);
            }
            return View::Scratch(n);
        }
    }
}

// The bytes that are shown: a part of the document or of the scratch area, which have lifetimes of their own.
pub fn shown<'d: 's, 's>(document: &'d [u8], scratch: &'s [u8], view: View) -> &'s [u8]
    ensures { ShowsAt document.entry scratch.entry (view_within (length document.now) (length scratch.now) view) (seen document.now scratch.now (view_within (length document.now) (length scratch.now) view)) result }
{
    let v = in_range(view, document.len(), scratch.len());
    let d = shorter(document, scratch);
    either(d, scratch, v)
}

// What the attribute `name` of the tag that begins at `first` says: that part of s, or the front of `out`.
pub fn attribute<'d: 's, 's>(s: &'d [u8], first: usize, name: &[u8], out: &'s mut [u8]) -> &'s [u8]
    ensures { ShowsAt s.entry (as_read out.entry) (view_in out.old s.now (attribute_place s.now first name.now) (attribute_of s.now first name.now)) (said_in out.old (attribute_of s.now first name.now)) result }
{
    let view = attribute_value(s, first, name, out);
    let t = &out[..];
    shown(s, t, view)
}
