// The findings of a draft whose notes are taken: each element marked once, and the list written of the marks.
#![tactic(auto)]

ghost use Rattle.std.specs.Prelude.{◌≡◌, ◌*◌, ◌/◌, ◌≤◌, length};
ghost use Rattle.xml_reader.specs.Limits.{elements_limit};
ghost use Rattle.judge_draft.specs.Drafts.{lent};
ghost use Rattle.judge_header.specs.Header.{header_of};
ghost use Rattle.judge_answers.specs.Answers.{tables_at};
ghost use Rattle.judge_answers.specs.Served.{room, Served};
ghost use Rattle.judge_lookup.specs.Serving.{Sized};
ghost use Rattle.judge_findings.specs.Listed.{findings_of};
ghost use Rattle.judge_findings.specs.Room.{FindingsLeft};

use judge_answers::{Places, SIZE};
use judge_draft::Draft;
use judge_findings::Answer;
use judge_header::Header;

// Marks each element, and answers by the marks.
fn judge_served(
    draft: Draft,
    header: Header,
    tables: &[u8],
    places: Places,
    index: &[u32],
    marks: &mut [u64],
    list: &mut [u32],
) -> Answer
    requires { (header ≡ header_of (lent draft)) × (length draft.notes.now / 4 ≤ length marks.old) × (length marks.old ≤ elements_limit) × Served (lent draft) tables.now places index.now }
    ensures { FindingsLeft (findings_of (lent draft.entry) (tables_at tables.now places)) list.old result list.new }
{
    let total = judge_asking::fill(draft, header, tables, places, index, marks);
    judge_marks::answer(draft, marks, total, list)
}

// The same, with the rows of the tables indexed before, in a run that is lent.
fn judge_by(
    draft: Draft,
    header: Header,
    tables: &[u8],
    places: Places,
    index: &mut [u32],
    marks: &mut [u64],
    list: &mut [u32],
) -> Answer
    requires { (header ≡ header_of (lent draft)) × (length draft.notes.now / 4 ≤ length marks.old) × (length marks.old ≤ elements_limit) × (3 * room ≤ length index.old) × Sized tables.now places }
    ensures { FindingsLeft (findings_of (lent draft.entry) (tables_at tables.now places)) list.old result list.new }
{
    let one = header.set;
    let set = judge_header::the(one);
    let kind = places.kind;
    let served = judge_lookup::serve(draft, tables, places, kind, set, index);
    judge_served(draft, header, tables, served, index, marks, list)
}

// The same in a run of its own.
fn judge_indexed(
    draft: Draft,
    header: Header,
    tables: &[u8],
    places: Places,
    marks: &mut [u64],
    list: &mut [u32],
) -> Answer
    requires { (header ≡ header_of (lent draft)) × (length draft.notes.now / 4 ≤ length marks.old) × (length marks.old ≤ elements_limit) × Sized tables.now places }
    ensures { FindingsLeft (findings_of (lent draft.entry) (tables_at tables.now places)) list.old result list.new }
{
    let mut index = [0u32; 3 * SIZE];
    judge_by(draft, header, tables, places, &mut index, marks, list)
}

// The findings of a draft, by an index of the tables where that is worth it.
pub fn judge(
    draft: Draft,
    tables: &[u8],
    places: Places,
    marks: &mut [u64],
    list: &mut [u32],
) -> Answer
    requires { (length draft.notes.now / 4 ≤ length marks.old) × (length marks.old ≤ elements_limit) }
    ensures { FindingsLeft (findings_of (lent draft.entry) (tables_at tables.now places)) list.old result list.new }
{
    let header = judge_header::header_of(draft);
    let asked = judge_lookup::how_many_ask(draft.notes);
    if judge_lookup::is_large(asked, tables.len(), places) {
        return judge_indexed(draft, header, tables, places, marks, list);
    }
    judge_served(
        draft,
        header,
        tables,
        places,
        &draft.notes[0..0],
        marks,
        list,
    )
}
