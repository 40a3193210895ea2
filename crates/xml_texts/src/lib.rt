// The text of an element of a document that was read: nothing is judged again.
#![tactic(auto)]

ghost use Rattle.std.specs.Prelude.{◌≡◌, ◌++◌, ◌-◌, ◌≤◌, length, drop, Some};
ghost use Rattle.xml_attributes.specs.Chains.{ending};
ghost use Rattle.xml_values.specs.Attributes.{tag_from};
ghost use Rattle.xml_texts.specs.Texts.{content_of, content_at, content_from, content_to, text_place, said_from, text_of};
ghost use Rattle.xml_texts.specs.Child.{is_child};
ghost use Rattle.xml_values.specs.Views.{view_in, said_in, plain_of, Shows, as_read, ShowsAt};

use refusals::Reason;
use xml_attributes::{Tag, TagPart};
use xml_pieces::{Kind, Scanned};
use xml_reader::Reader;
use xml_values::{Place, View};

// What a piece is to the content in which it stands: character data up to a place, a part that is dropped up to a place, the end tag, or what
// leaves no text.
#[derive(Clone, Copy)]
pub enum Content {
    Said(usize),
    Dropped(usize),
    Ended,
    Other,
}

// How the tag that begins at `first` ends, which the iterator over attributes does not say.
fn tag_end(s: &[u8], first: usize) -> Result<Tag, Reason>
    ensures { result ≡ ending (tag_from s.now first) }
{
    let mut i = xml_values::name_after(s, first);
    while i < s.len() {
        match xml_attributes::part_at(s, i) {
            TagPart::Read(a) => {
                i = a.value_end + 1;
                continue;
            }
            TagPart::Ended(tag) => return tag,
        }
    }
    Err(Reason::Malformed)
}

fn content_of(got: Scanned) -> Content
    ensures { result ≡ content_of got }
{
    match got {
        Scanned::Piece(kind, after) => match kind {
            Kind::Text => Content::Said(after),
            Kind::Comment => Content::Dropped(after),
            Kind::Instruction => Content::Dropped(after),
            Kind::Declaration => Content::Other,
            Kind::Start => Content::Other,
            Kind::Empty => Content::Other,
            Kind::End => Content::Ended,
        },
        Scanned::Refused(_) => Content::Other,
    }
}

// Whether a start or an empty-element tag begins at i, as can be seen by its first two bytes.
fn is_child(s: &[u8], i: usize) -> bool
    ensures { result ≡ is_child s.now i }
{
    if text_scan::byte(s, i) != 60 {
        return false;
    }
    if text_scan::text_at(s, i, b"<!") {
        return false;
    }
    if text_scan::text_at(s, i, b"<?") {
        return false;
    }
    !text_scan::text_at(s, i, b"</")
}

// The piece of a content that begins at i. The tag of a child element is not read: with or without a fault, it leaves no text.
fn content_at(s: &[u8], i: usize) -> Content
    ensures { result ≡ content_at s.now i }
{
    if is_child(s, i) {
        return Content::Other;
    }
    content_of(xml_pieces::piece(s, i, xml_pieces::DocumentPart::Inside))
}

// The place of the end tag behind the content that begins at a, which has no child elements.
fn content_end(s: &[u8], a: usize) -> Option<usize>
    ensures { result ≡ ending (content_from s.now a) }
{
    let mut i = a;
    while i < s.len() {
        match content_at(s, i) {
            Content::Said(after) => {
                i = after;
                continue;
            }
            Content::Dropped(after) => {
                i = after;
                continue;
            }
            Content::Ended => return Some(i),
            Content::Other => return None,
        }
    }
    None
}

// The content that begins at a and has no child elements, where it is within the limit.
fn content_place(s: &[u8], a: usize) -> Option<Place>
    ensures { result ≡ content_to a (ending (content_from s.now a)) }
{
    let Some(e) = content_end(s, a) else {
        return None;
    };
    if e - a <= Reader::VALUE {
        return Some(Place { first: a, after: e });
    }
    None
}

// The raw content of the element that begins at `first` and has no child elements.
pub fn text_place(s: &[u8], first: usize) -> Option<Place>
    ensures { result ≡ text_place s.now first }
{
    let Ok(tag) = tag_end(s, first) else {
        return None;
    };
    match tag {
        Tag::Start(a) => content_place(s, a),
        Tag::Empty(_) => None,
    }
}

// Where the text of the element that begins at `first` stands, if it says the bytes there.
pub fn plain_text(s: &[u8], first: usize) -> Option<Place>
    ensures { result ≡ plain_of s.now (text_place s.now first) }
{
    xml_values::plain(s, text_place(s, first))
}

// Stores what the content from a to e says at the front of `out`, and answers how many bytes that is.
fn say(s: &[u8], a: usize, e: usize, out: &mut [u8]) -> usize
    requires { (ending (content_from s.now a) ≡ Some e) × (e - a ≤ length out.old) }
    ensures { (result ≡ length (said_from s.now a)) × (out.new ≡ said_from s.now a ++ drop result out.old) }
{
    let mut n = 0;
    let mut i = a;
    while i < e {
        match content_at(s, i) {
            Content::Said(after) => {
                n += xml_references::decode_at(&s[i..after], out, n);
                i = after;
                continue;
            }
            Content::Dropped(after) => {
                i = after;
                continue;
            }
            Content::Ended => return n,
            Content::Other => return n,
        }
    }
    n
}

// What the element that begins at `first` has as its text, shown as a part of s or in front of `out`, which has to have room for a value.
pub fn text_value(s: &[u8], first: usize, out: &mut [u8]) -> View
    ensures { Shows s.now (text_place s.now first) (text_of s.now first) out.old result out.new }
{
    if out.len() < Reader::VALUE {
        return View::Document(0, 0);
    }
    let Some(place) = text_place(s, first) else {
        return View::Document(0, 0);
    };
    if xml_values::all_shown(&s[place.first..place.after]) {
        return View::Document(place.first, place.after);
    }
    View::Scratch(say(s, place.first, place.after, out))
}

// The text of the element that begins at `first`: that part of s, or the front of `out`.
pub fn text<'d: 's, 's>(s: &'d [u8], first: usize, out: &'s mut [u8]) -> &'s [u8]
    ensures { ShowsAt s.entry (as_read out.entry) (view_in out.old s.now (text_place s.now first) (text_of s.now first)) (said_in out.old (text_of s.now first)) result }
{
    let view = text_value(s, first, out);
    let t = &out[..];
    xml_values::shown(s, t, view)
}
