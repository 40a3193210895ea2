// The attributes of a tag, one after the other, and how the tag ends.
#![tactic(auto)]

ghost use Rattle.std.specs.Iterator.{YieldsFirst, item_count};
ghost use Rattle.std.specs.Prelude.{◌≡◌};
ghost use Rattle.xml_attributes.specs.Attributes.{attribute_at};
ghost use Rattle.xml_attributes.specs.Listed.{left};
ghost use Rattle.xml_attributes.specs.Parts.{part_at};

use refusals::Reason;

// An attribute: where its name begins and ends, the first byte of its value, and the quote that closes it.
#[derive(Clone, Copy)]
pub struct Attribute {
    pub at: usize,
    pub name_end: usize,
    pub value: usize,
    pub value_end: usize,
}

// A start tag or an empty-element tag, with the place after it.
#[derive(Clone, Copy)]
pub enum Tag {
    Start(usize),
    Empty(usize),
}

// What stands in a tag behind its name or behind an attribute: the next attribute, or how the tag ends.
#[derive(Clone, Copy)]
pub enum TagPart {
    Read(Attribute),
    Ended(Result<Tag, Reason>),
}

// The attribute at `at`.
pub fn attribute_at(s: &[u8], at: usize) -> Option<Attribute>
    ensures { result ≡ attribute_at s.now at }
{
    let n = xml_names::name_end(s, at);
    if n <= at {
        return None;
    }
    let Some(v) = xml_names::value_start(s, n) else {
        return None;
    };
    let Some(e) = xml_references::value_end(s, v, s[v - 1]) else {
        return None;
    };
    Some(Attribute {
        at,
        name_end: n,
        value: v,
        value_end: e,
    })
}

// What stands in a tag from `i` on, behind its name or an attribute.
pub fn part_at(s: &[u8], i: usize) -> TagPart
    ensures { result ≡ part_at s.now i }
{
    let j = xml_names::space_end(s, i);
    if text_scan::byte(s, j) == 62 {
        return TagPart::Ended(Ok(Tag::Start(j + 1)));
    }
    if text_scan::text_at(s, j, b"/>") {
        return TagPart::Ended(Ok(Tag::Empty(j + 2)));
    }
    if j <= i {
        return TagPart::Ended(Err(Reason::Malformed));
    }
    let Some(a) = attribute_at(s, j) else {
        return TagPart::Ended(Err(Reason::Malformed));
    };
    TagPart::Read(a)
}

// The attributes of a tag, one after the other, from a place on that is behind its name or an attribute.
#[derive(Clone, Copy)]
pub struct Attributes<'a> {
    pub s: &'a [u8],
    pub at: usize,
}

impl Iterator for Attributes<'_> {
    type Item = Attribute;

    ghost next_gives = { YieldsFirst left };

    ghost remaining = { item_count left };

    fn next(&mut self) -> Option<Attribute> {
        let TagPart::Read(a) = part_at(self.s, self.at) else {
            return None;
        };
        self.at = a.value_end + 1;
        Some(a)
    }
}
