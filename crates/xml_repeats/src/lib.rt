// Whether a tag of many attributes has two of the same name.
#![tactic(auto)]

ghost use Rattle.std.specs.Prelude.{◌≡◌, ◌+◌, ◌*◌, ◌<◌, ◌≤◌, length, set};
ghost use Rattle.std.proofs.lemmas.List.Edits.{sets};
ghost use Rattle.xml_names.specs.Names.{name_at, name_end};
ghost use Rattle.xml_reader.specs.Limits.{document_limit};
ghost use Rattle.xml_attributes.specs.Chains.{items};
ghost use Rattle.xml_attributes.specs.Parts.{attributes, some_named, repeated};

use xml_attributes::{Attribute, Attributes, TagPart};
use xml_reader::Reader;

// Places for the attributes of a tag: an attribute has at least 5 bytes, with the space before it, so no document within the limit has
// more. A sort of them takes half as many again.
const PLACES: usize = Reader::DOCUMENT / 5 + 1;

const HALF: usize = PLACES / 2;

// Whether an attribute of a tag has the name t, from `at` on, behind the tag's name or an attribute.
fn named_from(s: &[u8], t: &[u8], at: usize) -> bool
    ensures { result ≡ some_named t.now s.now (items (attributes s.now at)) }
{
    Attributes { s, at }.any(|a| xml_names::name_is(s, a.at, t))
}

// Whether an attribute behind a has its name.
fn named_behind(s: &[u8], a: Attribute) -> bool
    requires { (a.name_end ≡ name_end s.now a.at) × (a.at ≤ a.name_end) × (a.name_end ≤ length s.now) × (a.value_end < length s.now) }
    ensures { result ≡ some_named (name_at s.now a.at) s.now (items (attributes s.now (a.value_end + 1))) }
{
    named_from(s, &s[a.at..a.name_end], a.value_end + 1)
}

// Whether a tag whose name ends at `at` has two attributes of the same name, however many it has. The time is the square of their number.
fn repeats_slowly(s: &[u8], at: usize) -> bool
    ensures { result ≡ repeated s.now (items (attributes s.now at)) }
{
    Attributes { s, at }.any(|a| named_behind(s, a))
}

// Keeps b at place k, where there is one.
fn keep_place(starts: &mut [u32], k: usize, b: usize)
    requires { b ≤ document_limit }
    ensures { starts.new ≡ set starts.old k b }
{
    if starts.len() <= k {
        return;
    }
    starts[k] = b as u32;
}

// Reads a tag from the end of its name on, within a document. The places of its first attributes go to `starts`, and the answer is how
// many attributes there are.
fn collect(s: &[u8], at: usize, starts: &mut [u32]) -> usize
    requires { length s.now ≤ document_limit }
    ensures { (result ≡ length (items (attributes s.now at))) × (starts.new ≡ sets starts.old 0 (items (attributes s.now at))) }
{
    let mut count = 0;
    for a in (Attributes { s, at }) {
        keep_place(starts, count, a.at);
        count += 1;
    }
    count
}

// Whether a tag whose name ends at `at` has two attributes of the same name, by a sort of their places, with room lent for the places and
// for half as many.
fn repeats_within(s: &[u8], at: usize, starts: &mut [u32], room: &mut [u32]) -> bool
    requires { (length s.now ≤ document_limit) × (length starts.old ≤ 2 * length room.old) }
    ensures { result ≡ repeated s.now (items (attributes s.now at)) }
{
    let count = collect(s, at, starts);
    if starts.len() < count {
        return repeats_slowly(s, at);
    }
    xml_distinct::repeats(s, &mut starts[..count], room)
}

// The same, with room of its own: 1,258,296 bytes of the stack.
fn repeats_sorted(s: &[u8], at: usize) -> bool
    requires { length s.now ≤ document_limit }
    ensures { result ≡ repeated s.now (items (attributes s.now at)) }
{
    let mut starts = [0u32; PLACES];
    let mut room = [0u32; HALF];
    repeats_within(s, at, &mut starts, &mut room)
}

// Whether a tag whose name ends at `at` has two attributes of the same name, where there are `count` of them. One that has no place is
// compared with those behind it. No document within the limit has such a one; but a function that calls itself is not merged into its
// callers, and so tags of few attributes take none of the room above.
pub fn repeats(s: &[u8], at: usize, count: usize) -> bool
    ensures { result ≡ repeated s.now (items (attributes s.now at)) }
{
    if Reader::DOCUMENT < s.len() {
        return repeats_slowly(s, at);
    }
    if count <= PLACES {
        return repeats_sorted(s, at);
    }
    let TagPart::Read(a) = xml_attributes::part_at(s, at) else {
        return false;
    };
    if repeats(s, a.value_end + 1, count - 1) {
        return true;
    }
    named_behind(s, a)
}
