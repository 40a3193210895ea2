// One piece of a document: its kind with the place after it, or why it is refused.
#![tactic(auto)]

ghost use Rattle.std.specs.Prelude.{◌≡◌};
ghost use Rattle.xml_pieces.specs.Pieces.{found, only_space, text_piece_at, bang_at, instructed, question_at, end_at, tagged, start_at, markup_at, piece_at};

use refusals::Reason;
use xml_attributes::Tag;

#[derive(Clone, Copy)]
pub enum Kind {
    Text,
    Comment,
    Instruction,
    Declaration,
    Start,
    Empty,
    End,
}

// The part of the document in which a piece stands: before the root, inside it or after it.
#[derive(Clone, Copy)]
pub enum DocumentPart {
    Before,
    Inside,
    After,
}

#[derive(Clone, Copy)]
pub enum Scanned {
    Piece(Kind, usize),
    Refused(Reason),
}

// What is found is a piece of this kind; what is not, malformed.
fn found_as(kind: Kind, place: Option<usize>) -> Scanned
    ensures { result ≡ found kind place }
{
    match place {
        Some(after) => Scanned::Piece(kind, after),
        None => Scanned::Refused(Reason::Malformed),
    }
}

// White space outside the root, up to j.
fn only_space(s: &[u8], j: usize) -> Scanned
    ensures { result ≡ only_space s.now j }
{
    if j == s.len() {
        return Scanned::Piece(Kind::Text, j);
    }
    if text_scan::byte(s, j) == 60 {
        return Scanned::Piece(Kind::Text, j);
    }
    Scanned::Refused(Reason::Malformed)
}

// A run without `<`.
fn text(s: &[u8], at: usize, part: DocumentPart) -> Scanned
    ensures { result ≡ text_piece_at s.now at part }
{
    match part {
        DocumentPart::Before => only_space(s, xml_names::space_end(s, at)),
        DocumentPart::Inside => found_as(Kind::Text, xml_references::text_end(s, at)),
        DocumentPart::After => only_space(s, xml_names::space_end(s, at)),
    }
}

// A piece that begins `<!`.
fn bang(s: &[u8], at: usize) -> Scanned
    ensures { result ≡ bang_at s.now at }
{
    if text_scan::text_at(s, at, b"<!--") {
        return found_as(Kind::Comment, xml_markup::comment_end(s, at));
    }
    if text_scan::text_at(s, at, b"<!DOCTYPE") {
        return Scanned::Refused(Reason::Unsupported);
    }
    if text_scan::text_at(s, at, b"<![CDATA[") {
        return Scanned::Refused(Reason::Unsupported);
    }
    Scanned::Refused(Reason::Malformed)
}

fn instruction(got: Result<usize, Reason>) -> Scanned
    ensures { result ≡ instructed got }
{
    match got {
        Ok(after) => Scanned::Piece(Kind::Instruction, after),
        Err(number) => Scanned::Refused(number),
    }
}

// A piece that begins `<?`.
fn question(s: &[u8], at: usize) -> Scanned
    ensures { result ≡ question_at s.now at }
{
    if at == 0 {
        if xml_declaration::is_declaration(s) {
            return found_as(Kind::Declaration, xml_declaration::declaration_end(s));
        }
        return instruction(xml_markup::instruction_end(s, at));
    }
    instruction(xml_markup::instruction_end(s, at))
}

// A piece that begins `</`.
fn end_tag(s: &[u8], at: usize, part: DocumentPart) -> Scanned
    ensures { result ≡ end_at s.now at part }
{
    match part {
        DocumentPart::Before => Scanned::Refused(Reason::Malformed),
        DocumentPart::Inside => found_as(Kind::End, xml_tags::end_tag_end(s, at)),
        DocumentPart::After => Scanned::Refused(Reason::Malformed),
    }
}

fn tag(got: Result<Tag, Reason>) -> Scanned
    ensures { result ≡ tagged got }
{
    let tag = match got {
        Ok(tag) => tag,
        Err(reason) => return Scanned::Refused(reason),
    };
    match tag {
        Tag::Start(after) => Scanned::Piece(Kind::Start, after),
        Tag::Empty(after) => Scanned::Piece(Kind::Empty, after),
    }
}

// A start or an empty-element tag.
fn start_tag(s: &[u8], at: usize, part: DocumentPart) -> Scanned
    ensures { result ≡ start_at s.now at part }
{
    match part {
        DocumentPart::Before => tag(xml_tags::tag_at(s, at)),
        DocumentPart::Inside => tag(xml_tags::tag_at(s, at)),
        DocumentPart::After => Scanned::Refused(Reason::Malformed),
    }
}

// A piece that begins `<`.
fn markup_piece(s: &[u8], at: usize, part: DocumentPart) -> Scanned
    ensures { result ≡ markup_at s.now at part }
{
    if text_scan::text_at(s, at, b"<!") {
        return bang(s, at);
    }
    if text_scan::text_at(s, at, b"<?") {
        return question(s, at);
    }
    if text_scan::text_at(s, at, b"</") {
        return end_tag(s, at, part);
    }
    start_tag(s, at, part)
}

// The piece that starts at `at`.
pub fn piece(s: &[u8], at: usize, part: DocumentPart) -> Scanned
    ensures { result ≡ piece_at s.now at part }
{
    if text_scan::byte(s, at) == 60 {
        return markup_piece(s, at, part);
    }
    text(s, at, part)
}
