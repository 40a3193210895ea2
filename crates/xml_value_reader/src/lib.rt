// The value reader: an attribute, or the text, of an element's byte range in any document.
#![tactic(auto)]

ghost use Rattle.std.specs.Prelude.{◌≡◌, ◌≤◌, length, take};
ghost use Rattle.xml_tags.specs.EndTags.{end_tag_end};
ghost use Rattle.xml_values.specs.Views.{Shows, as_read, ShowsAt};
ghost use Rattle.xml_value_reader.specs.Shown.{is_sound, opens, ends_with, is_element, place_in, bytes_in, moved as movedBy, shown_of, value_of, Fills};
ghost use Rattle.xml_value_reader.specs.Moved.{Moves};

use xml_attributes::Tag;
use xml_reader::Reader;
use xml_values::{Place, View};

// Whether the first n bytes have no bad character.
fn is_sound(r: &[u8], n: usize) -> bool
    requires { n ≤ length r.now }
    ensures { result ≡ is_sound (take n r.now) }
{
    text_chars::first_bad(&r[..n]) == n
}

// Whether the range begins with a start or an empty-element tag that has no fault.
fn is_opened(r: &[u8]) -> bool
    ensures { result ≡ opens r.now }
{
    let Ok(tag) = xml_tags::opening_at(r, 0) else {
        return false;
    };
    match tag {
        Tag::Start(after) => is_sound(r, after),
        Tag::Empty(after) => is_sound(r, after),
    }
}

// Whether the end tag at e ends the range, and has the name of the start tag.
fn is_closed(r: &[u8], e: usize) -> bool
    ensures { result ≡ ends_with r.now e (end_tag_end r.now e) }
{
    let Some(after) = xml_tags::end_tag_end(r, e) else {
        return false;
    };
    if after != r.len() {
        return false;
    }
    let n = xml_names::name_end(r, 1);
    xml_names::name_is(r, e + 2, &r[1..n])
}

// Whether the range is one element without fault and without child elements.
fn is_element(r: &[u8]) -> bool
    ensures { result ≡ is_element r.now }
{
    if text_chars::first_bad(r) != r.len() {
        return false;
    }
    if xml_tags::opening_at(r, 0).is_err() {
        return false;
    }
    let Some(place) = xml_texts::text_place(r, 0) else {
        return false;
    };
    is_closed(r, place.after)
}

// Reads the value in a range, and shows it as a part of the range or in front of the scratch area.
fn fill_range(r: &[u8], scratch: &mut [u8], name: &[u8]) -> View
    ensures { Shows r.now (place_in r.now name.now) (bytes_in r.now name.now) scratch.old result scratch.new }
{
    if name.is_empty() {
        if is_element(r) {
            return xml_texts::text_value(r, 0, scratch);
        }
        return View::Document(0, 0);
    }
    if is_opened(r) {
        return xml_values::attribute_value(r, 0, name, scratch);
    }
    View::Document(0, 0)
}

// A view of a range that begins at `first`, as a view of the document.
fn moved(first: usize, view: View) -> View
    requires { Moves first view }
    ensures { result ≡ movedBy first view }
{
    match view {
        View::Document(a, e) => View::Document(first + a, first + e),
        View::Scratch(n) => View::Scratch(n),
    }
}

// Reads the attribute `name`, or the text where the name is empty, of the element from `first` to `after`; stores it in front of the scratch area
// where it is not shown as a part of the document.
pub fn fill(document: &[u8], scratch: &mut [u8], first: usize, after: usize, name: &[u8]) -> View
    ensures { Fills (shown_of document.now scratch.old first after name.now) result scratch.new }
{
    if scratch.len() < Reader::SCRATCH {
        return View::Document(0, 0);
    }
    if after < first {
        return View::Document(0, 0);
    }
    if document.len() < after {
        return View::Document(0, 0);
    }
    moved(first, fill_range(&document[first..after], scratch, name))
}

// The value reader: what the attribute `name`, or the text where the name is empty, of the element from `first` to `after` says, as that part of the
// document or as the front of the scratch area.
pub fn value<'d: 's, 's>(
    document: &'d [u8],
    scratch: &'s mut [u8],
    first: usize,
    after: usize,
    name: &[u8],
) -> &'s [u8]
    ensures { ShowsAt document.entry (as_read scratch.entry) (shown_of document.now scratch.old first after name.now).view (value_of document.now scratch.old first after name.now) result }
{
    let view = fill(document, scratch, first, after, name);
    let t = &scratch[..];
    xml_values::shown(document, t, view)
}
