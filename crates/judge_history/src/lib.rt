// The rows of the history, asked for with what the elements of a document say. A value that many elements ask with is asked with as its bytes stand in
// the document, and takes a room only where it has to be decoded. An element is the place of its first byte.
#![tactic(auto)]

ghost use Rattle.std.specs.Prelude.{◌≡◌};
ghost use Rattle.text_scan.specs.Bytes.{text};
ghost use Rattle.table_lines.specs.Lines.{rows_at};
ghost use Rattle.table_rows.specs.Rows.{some_row, is_document, is_version, is_key_elsewhere, is_other_key};
ghost use Rattle.table_index.specs.Indexed.{keeps_row, Serves};
ghost use Rattle.xml_values.specs.Attributes.{attribute_of};
ghost use Rattle.judge_header.specs.Header.{request_code};
ghost use Rattle.judge_history.specs.Told.{Told};

use table_index::Lookup;
use table_sets::Keys;
use xml_reader::Reader;
use xml_values::Place;

// Whether a row has the document id of the element at `at`.
pub fn has_document(document: &[u8], at: usize, tables: &[u8], from: usize, count: usize) -> bool
    ensures { result ≡ some_row (is_document (attribute_of document.now at (text "root"))) (rows_at tables.now from count) }
{
    let mut room = [0u8; Reader::VALUE];
    let id = xml_values::attribute(document, at, b"root", &mut room);
    table_rows::has_document(tables, from, count, id)
}

// Whether a row of the set id of the element at `set` has the version of the element at `at`, or a higher one.
pub fn has_version(
    document: &[u8],
    set: usize,
    at: usize,
    tables: &[u8],
    from: usize,
    count: usize,
) -> bool
    ensures { result ≡ some_row (is_version (attribute_of document.now set (text "root")) (attribute_of document.now at (text "value"))) (rows_at tables.now from count) }
{
    let mut room0 = [0u8; Reader::VALUE];
    let mut room1 = [0u8; Reader::VALUE];
    let id = xml_values::attribute(document, set, b"root", &mut room0);
    let version = xml_values::attribute(document, at, b"value", &mut room1);
    table_rows::has_version(tables, from, count, id, version)
}

// Whether a row of this type has this key under another set id than that of the element at `set`.
fn has_key_outside(
    document: &[u8],
    set: usize,
    tables: &[u8],
    from: usize,
    count: usize,
    keys: &[u32],
    code: &[u8],
    key: &[u8],
) -> bool
    requires { Serves Lookup.KeyElsewhere (keeps_row Lookup.KeyElsewhere code.now (attribute_of document.now set (text "root"))) tables.now from count keys.now }
    ensures { result ≡ some_row (is_key_elsewhere code.now key.now (attribute_of document.now set (text "root"))) (rows_at tables.now from count) }
{
    let Some(place) = xml_values::plain_attribute(document, set, b"root") else {
        let mut room = [0u8; Reader::VALUE];
        let id = xml_values::attribute(document, set, b"root", &mut room);
        return table_search::some_row(
            Lookup::KeyElsewhere,
            tables,
            from,
            count,
            keys,
            code,
            key,
            id,
        );
    };
    table_search::some_row(
        Lookup::KeyElsewhere,
        tables,
        from,
        count,
        keys,
        code,
        key,
        &document[place.first..place.after],
    )
}

// Whether a row of this type has the key of the id at `at` under another set id than that of the element at `set`.
pub fn has_key_elsewhere(
    document: &[u8],
    at: usize,
    set: usize,
    tables: &[u8],
    from: usize,
    count: usize,
    keys: &[u32],
    code: &[u8],
) -> bool
    requires { Serves Lookup.KeyElsewhere (keeps_row Lookup.KeyElsewhere code.now (attribute_of document.now set (text "root"))) tables.now from count keys.now }
    ensures { result ≡ some_row (is_key_elsewhere code.now (attribute_of document.now at (text "extension")) (attribute_of document.now set (text "root"))) (rows_at tables.now from count) }
{
    let Some(place) = xml_values::plain_attribute(document, at, b"extension") else {
        let mut room = [0u8; Reader::VALUE];
        let key = xml_values::attribute(document, at, b"extension", &mut room);
        return has_key_outside(document, set, tables, from, count, keys, code, key);
    };
    has_key_outside(
        document,
        set,
        tables,
        from,
        count,
        keys,
        code,
        &document[place.first..place.after],
    )
}

// Whether a row of a request with this set id has another key than this one: by what is known of its keys, or along all rows.
fn is_other_key(
    tables: &[u8],
    from: usize,
    count: usize,
    known: bool,
    keys: Keys,
    set: &[u8],
    key: &[u8],
) -> bool
    requires { Told known keys set.now tables.now from count }
    ensures { result ≡ some_row (is_other_key request_code set.now key.now) (rows_at tables.now from count) }
{
    if known {
        return table_sets::has_other_key(tables, from, count, b"51726-8", set, keys, key);
    }
    table_rows::has_other_key(tables, from, count, b"51726-8", set, key)
}

// Whether a row of a request with the set id of the element at `set` has another key than this one.
fn has_key_beside(
    document: &[u8],
    set: usize,
    tables: &[u8],
    from: usize,
    count: usize,
    known: bool,
    keys: Keys,
    key: &[u8],
) -> bool
    requires { Told known keys (attribute_of document.now set (text "root")) tables.now from count }
    ensures { result ≡ some_row (is_other_key request_code (attribute_of document.now set (text "root")) key.now) (rows_at tables.now from count) }
{
    let Some(place) = xml_values::plain_attribute(document, set, b"root") else {
        let mut room = [0u8; Reader::VALUE];
        let id = xml_values::attribute(document, set, b"root", &mut room);
        return is_other_key(tables, from, count, known, keys, id, key);
    };
    is_other_key(
        tables,
        from,
        count,
        known,
        keys,
        &document[place.first..place.after],
        key,
    )
}

// Whether a row of a request with the set id of the element at `set` has another key than that of the id at `at`.
pub fn has_other_key(
    document: &[u8],
    at: usize,
    set: usize,
    tables: &[u8],
    from: usize,
    count: usize,
    known: bool,
    keys: Keys,
) -> bool
    requires { Told known keys (attribute_of document.now set (text "root")) tables.now from count }
    ensures { result ≡ some_row (is_other_key request_code (attribute_of document.now set (text "root")) (attribute_of document.now at (text "extension"))) (rows_at tables.now from count) }
{
    let Some(place) = xml_values::plain_attribute(document, at, b"extension") else {
        let mut room = [0u8; Reader::VALUE];
        let key = xml_values::attribute(document, at, b"extension", &mut room);
        return has_key_beside(document, set, tables, from, count, known, keys, key);
    };
    has_key_beside(
        document,
        set,
        tables,
        from,
        count,
        known,
        keys,
        &document[place.first..place.after],
    )
}
