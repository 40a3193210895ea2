// The type of a document that was read, told by its header.
#![tactic(auto)]

ghost use Rattle.std.specs.Prelude.{◌≡◌, ◌*◌, ◌/◌, ◌≤◌, length};
ghost use Rattle.xml_nesting.specs.Nested.{Nested};
ghost use Rattle.judge_paths.specs.declared.DocumentType.TheVariants.{Neither};
ghost use Rattle.judge_notes.specs.Notes.{noted};
ghost use Rattle.judge_type.specs.Drafted.{type_in};

use judge_draft::Draft;
use judge_paths::DocumentType;

// The type of a document with this element table, which is in document order; the room is for its notes.
pub fn type_in(document: &[u8], elements: &[u32], notes: &mut [u32]) -> DocumentType
    requires { Nested elements.now (length elements.now / 4) × (4 * (length elements.now / 4) ≤ length notes.old) }
    ensures { (result ≡ type_in document.now elements.now) × (notes.new ≡ noted document.now elements.now Neither notes.old) }
{
    judge_notes::fill(document, elements, DocumentType::Neither, notes);
    let end = 4 * (elements.len() / 4);
    let draft = Draft {
        document,
        notes: &notes[0..end],
    };
    let header = judge_header::header_of(draft);
    judge_header::type_of(draft, header)
}
