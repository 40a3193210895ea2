// The findings of a document that was read, under tables that were accepted: its type is told, and its notes are taken.
#![tactic(auto)]

ghost use Rattle.std.specs.Prelude.{◌≡◌, ◌*◌, ◌/◌, ◌≤◌, length};
ghost use Rattle.xml_reader.specs.Limits.{elements_limit};
ghost use Rattle.xml_nesting.specs.Nested.{Nested};
ghost use Rattle.judge_answers.specs.Answers.{tables_at};
ghost use Rattle.judge_findings.specs.Listed.{findings_of};
ghost use Rattle.judge_findings.specs.Room.{FindingsLeft};
ghost use Rattle.judge_input.specs.Input.{section_tables};
ghost use Rattle.judge_type.specs.Drafted.{draft_as, draft_of};
ghost use Rattle.judge_document.specs.Typed.{few, places_for};

use judge_answers::Places;
use judge_draft::Draft;
use judge_findings::Answer;
use judge_input::Sections;
use judge_paths::DocumentType;
use xml_reader::Reader;

// The elements of a small document: a room has to be cleared, so these have a small one.
const FEW: usize = 512;

// The findings of a document of the type that is told by the places, whose notes are taken first.
fn judge_typed(
    document: &[u8],
    elements: &[u32],
    tables: &[u8],
    places: Places,
    notes: &mut [u32],
    marks: &mut [u64],
    list: &mut [u32],
) -> Answer
    requires { Nested elements.now (length elements.now / 4) × (4 * (length elements.now / 4) ≤ length notes.old) × (length elements.now / 4 ≤ length marks.old) × (length marks.old ≤ elements_limit) }
    ensures { FindingsLeft (findings_of (draft_as places.kind document.now elements.now) (tables_at tables.now places)) list.old result list.new }
{
    let kind = places.kind;
    judge_notes::fill(document, elements, kind, notes);
    let end = 4 * (elements.len() / 4);
    let draft = Draft {
        document,
        notes: &notes[0..end],
    };
    judge_noted::judge(draft, tables, places, marks, list)
}

// The places of these sections, for a document of this type.
fn places_for(sections: Sections, kind: DocumentType) -> Places
    ensures { result ≡ places_for sections kind }
{
    Places {
        codes: sections.codes,
        ncodes: sections.ncodes,
        names: sections.names,
        nnames: sections.nnames,
        history: sections.history,
        nhistory: sections.nhistory,
        kind: kind,
        set: 0,
        first: 0,
        several: false,
    }
}

// The findings of a document that was read, with this element table and room for the notes and marks of its elements.
fn judge_within(
    document: &[u8],
    elements: &[u32],
    tables: &[u8],
    sections: Sections,
    notes: &mut [u32],
    marks: &mut [u64],
    list: &mut [u32],
) -> Answer
    requires { Nested elements.now (length elements.now / 4) × (4 * (length elements.now / 4) ≤ length notes.old) × (length elements.now / 4 ≤ length marks.old) × (length marks.old ≤ elements_limit) }
    ensures { FindingsLeft (findings_of (draft_of document.now elements.now) (section_tables tables.now sections)) list.old result list.new }
{
    let kind = judge_type::type_in(document, elements, notes);
    judge_typed(
        document,
        elements,
        tables,
        places_for(sections, kind),
        notes,
        marks,
        list,
    )
}

// The same of few elements, with room for these.
fn judge_small(
    document: &[u8],
    elements: &[u32],
    tables: &[u8],
    sections: Sections,
    list: &mut [u32],
) -> Answer
    requires { Nested elements.now (length elements.now / 4) × (length elements.now / 4 ≤ few) }
    ensures { FindingsLeft (findings_of (draft_of document.now elements.now) (section_tables tables.now sections)) list.old result list.new }
{
    let mut notes = [0u32; 4 * FEW];
    let mut marks = [0u64; FEW];
    judge_within(
        document, elements, tables, sections, &mut notes, &mut marks, list,
    )
}

// The same of as many elements as there can be.
fn judge_large(
    document: &[u8],
    elements: &[u32],
    tables: &[u8],
    sections: Sections,
    list: &mut [u32],
) -> Answer
    requires { Nested elements.now (length elements.now / 4) × (length elements.now / 4 ≤ elements_limit) }
    ensures { FindingsLeft (findings_of (draft_of document.now elements.now) (section_tables tables.now sections)) list.old result list.new }
{
    let mut notes = [0u32; 4 * Reader::ELEMENTS];
    let mut marks = [0u64; Reader::ELEMENTS];
    judge_within(
        document, elements, tables, sections, &mut notes, &mut marks, list,
    )
}

// The same with the room that the number of elements asks for.
pub fn judge(
    document: &[u8],
    elements: &[u32],
    tables: &[u8],
    sections: Sections,
    list: &mut [u32],
) -> Answer
    requires { Nested elements.now (length elements.now / 4) × (length elements.now / 4 ≤ elements_limit) }
    ensures { FindingsLeft (findings_of (draft_of document.now elements.now) (section_tables tables.now sections)) list.old result list.new }
{
    if elements.len() / 4 <= FEW {
        return judge_small(document, elements, tables, sections, list);
    }
    judge_large(document, elements, tables, sections, list)
}
