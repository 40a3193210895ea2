// A draft that was read, for the procedures: what an attribute or the text of an element says, put to a test. The tests look at the document itself
// where a value says the bytes that stand there, and take a room for it only where it has to be decoded.
#![tactic(auto)]

ghost use Rattle.std.specs.Prelude.{◌≡◌, ◌+◌, ◌*◌, ◌^◌, ◌<◌, get_or};
ghost use Rattle.text_facts.specs.Strings.{equal, begins_with};
ghost use Rattle.judge_draft.specs.Forms.{has_form};
ghost use Rattle.judge_draft.specs.Drafts.{lent, role, parent, first, after, is, is_known, attribute, said, is_empty};

use judge_paths::DocumentType;
use xml_reader::Reader;
use xml_values::Place;

// What a procedure demands of an element, from the document alone: nothing, that it is broken, a row of the code list or the register
// that is there, or a row of the history that is not. It holds the numbers of the elements whose values the row is asked for.
#[derive(Clone, Copy)]
pub enum Demand {
    Nothing,
    Broken,
    CodeRow(usize),
    NameRow(usize, usize),
    NoDocument(usize),
    NoVersion(usize, usize),
    NoKeyElsewhere(DocumentType, usize, usize),
    NoOtherKey(usize, usize),
}

// The forms that a procedure asks of a value.
#[derive(Clone, Copy)]
pub enum Form {
    Guid,
    Day,
    Version,
    LabelerCode,
    Telephone,
    WithoutSpace,
}

// A draft as it is lent: its document, and its notes, which hold of each element its role, its parent's number, its first byte and the byte behind it.
// It may hold any document and any notes.
#[derive(Clone, Copy)]
pub struct Draft<'a> {
    pub document: &'a [u8],
    pub notes: &'a [u32],
}

// Whether a value has this form.
fn has_form(value: &[u8], form: Form) -> bool
    ensures { result ≡ has_form form value.now }
{
    match form {
        Form::Guid => text_facts::is_guid(value),
        Form::Day => text_numbers::is_day(value),
        Form::Version => 0 < text_numbers::version(value),
        Form::LabelerCode => text_facts::is_labeler_code(value),
        Form::Telephone => text_telephones::is_telephone(value),
        Form::WithoutSpace => text_facts::without_space(value),
    }
}

impl<'a> Draft<'a> {
    // The number at place k of element n's notes, or 0 past their end.
    pub fn number(self, n: usize, k: usize) -> usize
        requires { k < 4 }
        ensures { (result ≡ get_or self.entry.notes.now (4 * n + k) 0) × (result < 2 ^ 32) }
    {
        if self.notes.len() <= n {
            return 0;
        }
        let i = 4 * n + k;
        if i < self.notes.len() {
            return self.notes[i] as usize;
        }
        0
    }

    // The role of element n.
    pub fn role_at(self, n: usize) -> u32
        ensures { result ≡ role (lent self.entry) n }
    {
        self.number(n, 0) as u32
    }

    // Whether element n has this role.
    pub fn is_role(self, n: usize, wanted: u32) -> bool
        ensures { result ≡ is (lent self.entry) wanted n }
    {
        self.number(n, 0) == wanted as usize
    }

    // Whether element n is known.
    pub fn is_known(self, n: usize) -> bool
        ensures { result ≡ is_known (lent self.entry) n }
    {
        1 < self.number(n, 0)
    }

    // The number of element n's parent.
    pub fn parent(self, n: usize) -> usize
        ensures { result ≡ parent (lent self.entry) n }
    {
        self.number(n, 1)
    }

    // The byte after element n.
    pub fn byte_after(self, n: usize) -> usize
        ensures { result ≡ after (lent self.entry) n }
    {
        self.number(n, 3)
    }

    // The first byte of element n.
    pub fn first_byte(self, n: usize) -> usize
        ensures { result ≡ first (lent self.entry) n }
    {
        self.number(n, 2)
    }

    pub fn attribute_is(self, n: usize, name: &[u8], wanted: &[u8]) -> bool
        ensures { result ≡ equal (attribute (lent self.entry) n name.now) wanted.now }
    {
        let first = self.first_byte(n);
        xml_compare::attribute_is(self.document, first, name, wanted)
    }

    pub fn attribute_begins(self, n: usize, name: &[u8], start: &[u8]) -> bool
        ensures { result ≡ begins_with start.now (attribute (lent self.entry) n name.now) }
    {
        let first = self.first_byte(n);
        let Some(place) = xml_values::plain_attribute(self.document, first, name) else {
            let mut room = [0u8; Reader::VALUE];
            return text_facts::begins_with(
                xml_values::attribute(self.document, first, name, &mut room),
                start,
            );
        };
        text_facts::begins_with(&self.document[place.first..place.after], start)
    }

    pub fn attribute_is_empty(self, n: usize, name: &[u8]) -> bool
        ensures { result ≡ is_empty (attribute (lent self.entry) n name.now) }
    {
        let first = self.first_byte(n);
        xml_compare::attribute_is(self.document, first, name, b"")
    }

    pub fn attribute_has(self, n: usize, name: &[u8], form: Form) -> bool
        ensures { result ≡ has_form form (attribute (lent self.entry) n name.now) }
    {
        let first = self.first_byte(n);
        let Some(place) = xml_values::plain_attribute(self.document, first, name) else {
            let mut room = [0u8; Reader::VALUE];
            return has_form(
                xml_values::attribute(self.document, first, name, &mut room),
                form,
            );
        };
        has_form(&self.document[place.first..place.after], form)
    }

    pub fn text_is(self, n: usize, wanted: &[u8]) -> bool
        ensures { result ≡ equal (said (lent self.entry) n) wanted.now }
    {
        let first = self.first_byte(n);
        let Some(place) = xml_texts::plain_text(self.document, first) else {
            let mut room = [0u8; Reader::VALUE];
            return text_facts::same(xml_texts::text(self.document, first, &mut room), wanted);
        };
        text_facts::same(&self.document[place.first..place.after], wanted)
    }

    pub fn text_is_empty(self, n: usize) -> bool
        ensures { result ≡ is_empty (said (lent self.entry) n) }
    {
        let first = self.first_byte(n);
        let Some(place) = xml_texts::plain_text(self.document, first) else {
            let mut room = [0u8; Reader::VALUE];
            return xml_texts::text(self.document, first, &mut room).len() == 0;
        };
        text_facts::same(&self.document[place.first..place.after], b"")
    }
}
