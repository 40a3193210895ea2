// Whether a demand is broken under the tables.
#![tactic(auto)]

ghost use Rattle.std.specs.Prelude.{◌≡◌, [], ◌<◌, eqb};
ghost use Rattle.text_scan.specs.Choice.{pick};
ghost use Rattle.text_scan.specs.Bytes.{text};
ghost use Rattle.table_lines.specs.Lines.{rows_at};
ghost use Rattle.table_rows.specs.Rows.{some_row, is_key_elsewhere, is_other_key};
ghost use Rattle.judge_draft.specs.Drafts.{lent, attribute};
ghost use Rattle.judge_header.specs.Header.{request_code};
ghost use Rattle.judge_answers.specs.Answers.{type_code, tables_at, is_broken};
ghost use Rattle.judge_answers.specs.Served.{run_of, type_number, is_told, KeysServed, KeysTold, Served};

use judge_draft::{Demand, Draft};
use judge_paths::DocumentType;
use table_sets::Keys;
use xml_reader::Reader;

// Where the rows of each section of a tables file stand, and how many there are; the type and the setId whose keys in the history are indexed, where
// its first row stands, and whether its rows have several keys.
#[derive(Clone, Copy)]
pub struct Places {
    pub codes: usize,
    pub ncodes: usize,
    pub names: usize,
    pub nnames: usize,
    pub history: usize,
    pub nhistory: usize,
    pub kind: DocumentType,
    pub set: usize,
    pub first: usize,
    pub several: bool,
}

// How long a part of the run is: a count, and a place for each row that a section may have.
pub const SIZE: usize = Reader::ROWS + 1;

// The run's part of number i: the places of the code list's rows, of the register's, of the keys. A run that is too short has none.
fn part(index: &[u32], i: usize) -> &[u32]
    requires { i < 3 }
    ensures { result.now ≡ run_of index.now i }
{
    if index.len() < 3 * SIZE {
        return &index[0..0];
    }
    let a = i * SIZE;
    let e = a + SIZE;
    &index[a..e]
}

// A number for each type, by which types are compared.
fn type_number(kind: DocumentType) -> usize
    ensures { result ≡ type_number kind }
{
    match kind {
        DocumentType::Neither => 0,
        DocumentType::Registration => 1,
        DocumentType::Request => 2,
    }
}

// The run of the keys; where it is for rows of another type or for another setId, none of it.
fn keys_of(keys: &[u32], places: Places, kind: DocumentType, s: usize) -> &[u32]
    ensures { result.now ≡ pick (eqb places.set s) (pick (eqb (type_number places.kind) (type_number kind)) keys.now []) [] }
{
    if places.set == s {
        let own = places.kind;
        if type_number(own) == type_number(kind) {
            return keys;
        }
        return &keys[0..0];
    }
    &keys[0..0]
}

// Whether a row of the history of a type has the key of id k under another set id than that of s. It is looked up where the run is for this type and
// setId.
fn has_key_elsewhere(
    draft: Draft,
    tables: &[u8],
    places: Places,
    keys: &[u32],
    kind: DocumentType,
    k: usize,
    s: usize,
) -> bool
    requires { KeysServed (type_code places.kind) (attribute (lent draft) places.set (text "root")) tables.now places keys.now }
    ensures { result ≡ some_row (is_key_elsewhere (type_code kind) (attribute (lent draft.entry) k (text "extension")) (attribute (lent draft.entry) s (text "root"))) (rows_at tables.now places.history places.nhistory) }
{
    let own = keys_of(keys, places, kind, s);
    let at = draft.first_byte(k);
    let set = draft.first_byte(s);
    let from = places.history;
    let count = places.nhistory;
    match kind {
        DocumentType::Neither => judge_history::has_key_elsewhere(
            draft.document,
            at,
            set,
            tables,
            from,
            count,
            own,
            b"",
        ),
        DocumentType::Registration => judge_history::has_key_elsewhere(
            draft.document,
            at,
            set,
            tables,
            from,
            count,
            own,
            b"51725-0",
        ),
        DocumentType::Request => judge_history::has_key_elsewhere(
            draft.document,
            at,
            set,
            tables,
            from,
            count,
            own,
            b"51726-8",
        ),
    }
}

// Whether something is known of the keys: where there is a run, and it is for this setId.
fn is_told(keys: &[u32], places: Places, s: usize) -> bool
    ensures { result ≡ is_told places keys.now s }
{
    if places.set == s {
        return 0 < keys.len();
    }
    false
}

// Whether a row of the history of a request with the set id of s has another key than that of id k.
fn has_other_key(
    draft: Draft,
    tables: &[u8],
    places: Places,
    keys: &[u32],
    k: usize,
    s: usize,
) -> bool
    requires { KeysTold (attribute (lent draft) places.set (text "root")) tables.now places keys.now }
    ensures { result ≡ some_row (is_other_key request_code (attribute (lent draft.entry) s (text "root")) (attribute (lent draft.entry) k (text "extension"))) (rows_at tables.now places.history places.nhistory) }
{
    let known = is_told(keys, places, s);
    let at = draft.first_byte(k);
    let set = draft.first_byte(s);
    let told = Keys {
        first: places.first,
        several: places.several,
    };
    judge_history::has_other_key(
        draft.document,
        at,
        set,
        tables,
        places.history,
        places.nhistory,
        known,
        told,
    )
}

// Whether a row of the code list or the register, which is demanded, is missing, or a row of the history is there that must not be: the demand is
// broken under the tables.
pub fn is_broken(draft: Draft, tables: &[u8], places: Places, index: &[u32], demand: Demand) -> bool
    requires { Served (lent draft) tables.now places index.now }
    ensures { result ≡ is_broken (lent draft.entry) (tables_at tables.now places) demand }
{
    match demand {
        Demand::Nothing => false,
        Demand::Broken => true,
        Demand::CodeRow(k) => !judge_rows::has_code(
            draft.document,
            draft.first_byte(k),
            tables,
            places.codes,
            places.ncodes,
            part(index, 0),
        ),
        Demand::NameRow(i, k) => !judge_rows::has_name(
            draft.document,
            draft.first_byte(i),
            draft.first_byte(k),
            tables,
            places.names,
            places.nnames,
            part(index, 1),
        ),
        Demand::NoDocument(k) => judge_history::has_document(
            draft.document,
            draft.first_byte(k),
            tables,
            places.history,
            places.nhistory,
        ),
        Demand::NoVersion(s, k) => judge_history::has_version(
            draft.document,
            draft.first_byte(s),
            draft.first_byte(k),
            tables,
            places.history,
            places.nhistory,
        ),
        Demand::NoKeyElsewhere(kind, k, s) => has_key_elsewhere(
            draft,
            tables,
            places,
            part(index, 2),
            kind,
            k,
            s,
        ),
        Demand::NoOtherKey(k, s) => has_other_key(draft, tables, places, part(index, 2), k, s),
    }
}
