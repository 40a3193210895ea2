// Tags: an element's name and attributes between `<` and `>`.
#![tactic(auto)]

ghost use Rattle.std.specs.Prelude.{◌≡◌, false, eqb, ltb, leb, length, take, get_or, set, Ok, Err};
ghost use Rattle.std.proofs.lemmas.List.Edits.{sets};
ghost use Rattle.refusals.specs.declared.Reason.TheVariants.{PastLimit};
ghost use Rattle.text_scan.specs.Choice.{pick, ◌or◌};
ghost use Rattle.xml_names.specs.Names.{name_at};
ghost use Rattle.xml_reader.specs.Limits.{name_limit, value_limit, attributes_limit};
ghost use Rattle.xml_attributes.specs.declared.Tag.TheVariants.{Start};
ghost use Rattle.xml_attributes.specs.Chains.{items};
ghost use Rattle.xml_attributes.specs.Parts.{attributes, some_named, repeated};
ghost use Rattle.xml_tags.specs.Tags.{tag_at, faultless, opening_at};
ghost use Rattle.xml_tags.specs.Reading.{body_of};
ghost use Rattle.xml_tags.specs.EndTags.{end_tag_end};

use refusals::Reason;
use xml_attributes::{Attributes, Tag, TagPart};
use xml_reader::Reader;

// What one reading of a tag brings: how it ends, its attributes' number, and whether one of them passes a limit.
#[derive(Clone, Copy)]
struct Body {
    ending: Result<Tag, Reason>,
    count: usize,
    over: bool,
}

// The place after the end tag that begins at `at`.
pub fn end_tag_end(s: &[u8], at: usize) -> Option<usize>
    ensures { result ≡ end_tag_end s.now at }
{
    if text_scan::text_at(s, at, b"</") {
        let n = xml_names::element_end(s, at + 2);
        if n <= at + 2 {
            return None;
        }
        let j = xml_names::space_end(s, n);
        if text_scan::byte(s, j) == 62 {
            return Some(j + 1);
        }
        return None;
    }
    None
}

// Whether an attribute at one of these places has the name t.
fn some_named(s: &[u8], t: &[u8], starts: &[usize]) -> bool
    ensures { result ≡ some_named t.now s.now starts.now }
{
    starts.iter().any(|b| xml_names::name_is(s, *b, t))
}

// Whether an attribute at one of the places behind b has the name of that at b.
fn named_again(s: &[u8], b: usize, behind: &[usize]) -> bool
    ensures { result ≡ some_named (name_at s.now b) s.now behind.now }
{
    if behind.is_empty() {
        return false;
    }
    let e = xml_names::name_end(s, b);
    if s.len() < e {
        return some_named(s, b"", behind);
    }
    some_named(s, &s[b..e], behind)
}

// Whether two of the attributes at these places have the same name.
fn repeats_few(s: &[u8], starts: &[usize]) -> bool
    ensures { result ≡ repeated s.now starts.now }
{
    for (k, b) in starts.iter().enumerate() {
        if named_again(s, *b, &starts[k + 1..]) {
            return true;
        }
    }
    false
}

// Keeps b at place k, where there is one.
fn keep(starts: &mut [usize], k: usize, b: usize)
    ensures { starts.new ≡ set starts.old k b }
{
    if starts.len() <= k {
        return;
    }
    starts[k] = b;
}

// Whether a limit is passed, before or by an attribute with a name and a value of so many bytes.
fn passes(over: bool, name: usize, value: usize) -> bool
    ensures { result ≡ over or ltb name_limit name or ltb value_limit value }
{
    if over {
        return true;
    }
    if Reader::NAME < name {
        return true;
    }
    Reader::VALUE < value
}

// Reads a tag from the end of its name on. The places of its first attributes go to `starts`. The parts are read here, and not by the iterator over
// attributes, which does not say how the tag ends.
fn read(s: &[u8], at: usize, starts: &mut [usize]) -> Body
    ensures { (result ≡ body_of s.now 0 false (attributes s.now at)) × (starts.new ≡ sets starts.old 0 (items (attributes s.now at))) }
{
    let mut i = at;
    let mut count = 0;
    let mut over = false;
    while i < s.len() {
        match xml_attributes::part_at(s, i) {
            TagPart::Read(a) => {
                keep(starts, count, a.at);
                over = passes(over, a.name_end - a.at, a.value_end - a.value);
                count += 1;
                i = a.value_end + 1;
                continue;
            }
            TagPart::Ended(t) => {
                return Body {
                    ending: t,
                    count,
                    over,
                };
            }
        }
    }
    Body {
        ending: Err(Reason::Malformed),
        count,
        over,
    }
}

// Whether two of a tag's attributes have the same name. Their places are in `starts` if it has room for all of them.
fn repeats_any(s: &[u8], at: usize, starts: &[usize], count: usize) -> bool
    ensures { result ≡ pick (leb count (length starts.now)) (repeated s.now (take count starts.now)) (repeated s.now (items (attributes s.now at))) }
{
    if count <= starts.len() {
        return repeats_few(s, &starts[..count]);
    }
    xml_repeats::repeats(s, at, count)
}

// Whether `>` stands at n.
fn closes(s: &[u8], n: usize) -> bool
    ensures { result ≡ eqb (get_or s.now n 0) 62 }
{
    text_scan::byte(s, n) == 62
}

// A start tag that is a name of m bytes alone.
fn bare(m: usize, after: usize) -> Result<Tag, Reason>
    ensures { result ≡ pick (ltb name_limit m) (Err PastLimit) (Ok (Start after)) }
{
    if Reader::NAME < m {
        return Err(Reason::PastLimit);
    }
    Ok(Tag::Start(after))
}

// The start tag or empty-element tag that begins at `at`. Most have no attributes and end straight behind the name: that is asked first.
pub fn tag_at(s: &[u8], at: usize) -> Result<Tag, Reason>
    ensures { result ≡ tag_at s.now at }
{
    if text_scan::byte(s, at) != 60 {
        return Err(Reason::Malformed);
    }
    let n = xml_names::element_end(s, at + 1);
    if n <= at + 1 {
        return Err(Reason::Malformed);
    }
    if closes(s, n) {
        let after = n + 1;
        return bare(n - (at + 1), after);
    }
    let mut starts = [0usize; Reader::ATTRIBUTES];
    let body = read(s, n, &mut starts);
    let count = body.count;
    let ending = body.ending;
    if ending.is_err() {
        return Err(Reason::Malformed);
    }
    if repeats_any(s, n, &starts, count) {
        return Err(Reason::Malformed);
    }
    if Reader::ATTRIBUTES < count {
        return Err(Reason::PastLimit);
    }
    if passes(body.over, n - (at + 1), 0) {
        return Err(Reason::PastLimit);
    }
    ending
}

// Whether a tag whose name ends at `at` has more attributes than the limit allows. No more is read than the first one past it.
fn is_crowded(s: &[u8], at: usize) -> bool
    ensures { result ≡ ltb attributes_limit (length (items (attributes s.now at))) }
{
    Attributes { s, at }.nth(Reader::ATTRIBUTES).is_some()
}

fn without_fault(t: Result<Tag, Reason>) -> Result<Tag, Reason>
    ensures { result ≡ faultless t }
{
    if t.is_err() {
        return Err(Reason::Malformed);
    }
    t
}

// The start tag or empty-element tag that begins at `at`, where it has no fault. Too many attributes are a fault whatever stands behind them, so that
// the time is that of reading the tag, for any bytes.
pub fn opening_at(s: &[u8], at: usize) -> Result<Tag, Reason>
    ensures { result ≡ opening_at s.now at }
{
    if text_scan::byte(s, at) != 60 {
        return Err(Reason::Malformed);
    }
    let n = xml_names::element_end(s, at + 1);
    if n <= at + 1 {
        return Err(Reason::Malformed);
    }
    if is_crowded(s, n) {
        return Err(Reason::Malformed);
    }
    without_fault(tag_at(s, at))
}
