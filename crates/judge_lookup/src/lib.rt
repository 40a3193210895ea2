// The run in which the rows of a tables file are looked up, filled for one draft. What is left in it is for `judge_answers::is_broken` alone.
#![tactic(auto)]

ghost use Rattle.std.specs.Prelude.{◌≡◌, true, ◌*◌, ◌<◌, ◌≤◌, length};
ghost use Rattle.text_scan.specs.Bytes.{text};
ghost use Rattle.table_index.specs.Indexed.{keeps_row, Serves};
ghost use Rattle.judge_paths.specs.Attributes.{is_role};
ghost use Rattle.judge_draft.specs.Drafts.{lent, attribute};
ghost use Rattle.judge_answers.specs.Answers.{type_code, tables_at};
ghost use Rattle.judge_answers.specs.Served.{room, run_of, CodesServed, NamesServed, KeysServed, Served};
ghost use Rattle.judge_lookup.specs.Serving.{asking_roles, asking, is_large, Fitting, Kept, told_at};

use judge_answers::{Places, SIZE};
use judge_draft::Draft;
use judge_paths::{DocumentType, role};
use table_index::Lookup;
use xml_reader::Reader;

// Whether the elements of a role can ask for a row.
fn is_asking(number: u32) -> bool
    ensures { result ≡ is_role number asking_roles }
{
    if number == role::CODE {
        return true;
    }
    if number == role::OPERATION_CODE {
        return true;
    }
    if number == role::ORGANISATION_ID {
        return true;
    }
    number == role::ORGANISATION_NAME
}

// How many elements can ask for a row.
pub fn how_many_ask(notes: &[u32]) -> usize
    ensures { result ≡ asking notes.now }
{
    let mut found = 0;
    for n in 0..notes.len() / 4 {
        if is_asking(notes[4 * n]) {
            found += 1;
        }
    }
    found
}

// Whether so many elements that ask are worth an index of these tables, and the run is long enough for it: for few of them, walks along all
// rows cost less.
pub fn is_large(count: usize, length: usize, places: Places) -> bool
    ensures { result ≡ is_large count length places }
{
    if Reader::ELEMENTS < count {
        return false;
    }
    if Reader::TABLES < length {
        return false;
    }
    if Reader::ROWS < places.ncodes {
        return false;
    }
    if Reader::ROWS < places.nnames {
        return false;
    }
    if Reader::ROWS < places.nhistory {
        return false;
    }
    if count < 24 {
        return false;
    }
    262144 < count * length
}

// Indexes the rows of a section for a question in the run's part of number i, and leaves the other parts as they are.
fn fill_part(
    q: Lookup,
    tables: &[u8],
    from: usize,
    count: usize,
    a: &[u8],
    c: &[u8],
    index: &mut [u32],
    i: usize,
)
    requires { (i < 3) × (3 * room ≤ length index.old) × Fitting tables.now count index.old }
    ensures { Serves q (keeps_row q a.now c.now) tables.now from count (run_of index.new i) × Kept i index.old index.new }
{
    let start = i * SIZE;
    let end = start + SIZE;
    table_index::fill(q, tables, from, count, a, c, &mut index[start..end]);
}

// Indexes the code list and the register.
fn serve_rows(tables: &[u8], places: Places, index: &mut [u32])
    requires { (3 * room ≤ length index.old) × Fitting tables.now places.ncodes index.old × Fitting tables.now places.nnames index.old }
    ensures { CodesServed tables.now places (run_of index.new 0) × NamesServed tables.now places (run_of index.new 1) }
{
    fill_part(
        Lookup::Code,
        tables,
        places.codes,
        places.ncodes,
        b"",
        b"",
        index,
        0,
    );
    fill_part(
        Lookup::Name,
        tables,
        places.names,
        places.nnames,
        b"",
        b"",
        index,
        1,
    );
}

// Indexes the keys of the history's rows of this type under another set id than that of element `set`.
fn fill_keys_of(
    draft: Draft,
    tables: &[u8],
    places: Places,
    code: &[u8],
    set: usize,
    index: &mut [u32],
)
    requires { (3 * room ≤ length index.old) × Fitting tables.now places.nhistory index.old }
    ensures { KeysServed code.now (attribute (lent draft.entry) set (text "root")) tables.now places (run_of index.new 2) × Kept 2 index.old index.new }
{
    let mut room = [0u8; Reader::VALUE];
    let at = draft.first_byte(set);
    let id = xml_values::attribute(draft.document, at, b"root", &mut room);
    fill_part(
        Lookup::KeyElsewhere,
        tables,
        places.history,
        places.nhistory,
        code,
        id,
        index,
        2,
    );
}

// The same of a type.
fn fill_keys(
    draft: Draft,
    tables: &[u8],
    places: Places,
    kind: DocumentType,
    set: usize,
    index: &mut [u32],
)
    requires { (3 * room ≤ length index.old) × Fitting tables.now places.nhistory index.old }
    ensures { KeysServed (type_code kind) (attribute (lent draft.entry) set (text "root")) tables.now places (run_of index.new 2) × Kept 2 index.old index.new }
{
    match kind {
        DocumentType::Neither => fill_keys_of(draft, tables, places, b"", set, index),
        DocumentType::Registration => fill_keys_of(draft, tables, places, b"51725-0", set, index),
        DocumentType::Request => fill_keys_of(draft, tables, places, b"51726-8", set, index),
    }
}

// The places, with the type, and with what the history tells of the keys of the set id of element `set`.
fn told(draft: Draft, tables: &[u8], places: Places, kind: DocumentType, set: usize) -> Places
    ensures { result ≡ told_at (lent draft.entry) tables.now places kind set }
{
    let mut room = [0u8; Reader::VALUE];
    let at = draft.first_byte(set);
    let id = xml_values::attribute(draft.document, at, b"root", &mut room);
    let keys = table_sets::keys_of(tables, places.history, places.nhistory, b"51726-8", id);
    Places {
        codes: places.codes,
        ncodes: places.ncodes,
        names: places.names,
        nnames: places.nnames,
        history: places.history,
        nhistory: places.nhistory,
        kind,
        set,
        first: keys.first,
        several: keys.several,
    }
}

// Fills the run for a type and the setId of number `set`, and answers the places with what is told of its keys.
pub fn serve(
    draft: Draft,
    tables: &[u8],
    places: Places,
    kind: DocumentType,
    set: usize,
    index: &mut [u32],
) -> Places
    requires { (3 * room ≤ length index.old) × Fitting tables.now places.ncodes index.old × Fitting tables.now places.nnames index.old × Fitting tables.now places.nhistory index.old }
    ensures { (tables_at tables.now result ≡ tables_at tables.now places) × Served (lent draft.entry) tables.now result index.new }
{
    serve_rows(tables, places, index);
    fill_keys(draft, tables, places, kind, set, index);
    told(draft, tables, places, kind, set)
}
