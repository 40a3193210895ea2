// The rows of the code list and the register, asked for with what the elements of a document say. A value is asked with as its bytes stand in the
// document, and takes a room only where it has to be decoded. An element is the place of its first byte.
#![tactic(auto)]

ghost use Rattle.std.specs.Prelude.{◌≡◌, []};
ghost use Rattle.text_scan.specs.Bytes.{text};
ghost use Rattle.table_lines.specs.Lines.{rows_at};
ghost use Rattle.table_rows.specs.Rows.{some_row, is_code, is_registered};
ghost use Rattle.table_index.specs.Indexed.{keeps_row, Serves};
ghost use Rattle.xml_values.specs.Attributes.{attribute_of};
ghost use Rattle.xml_texts.specs.Texts.{text_of};

use table_index::Lookup;
use xml_reader::Reader;
use xml_values::Place;

// Whether a row of the code list has this code and system, and the display name of the element at `at`.
fn has_display(
    document: &[u8],
    at: usize,
    tables: &[u8],
    from: usize,
    count: usize,
    codes: &[u32],
    code: &[u8],
    system: &[u8],
) -> bool
    requires { Serves Lookup.Code (keeps_row Lookup.Code [] []) tables.now from count codes.now }
    ensures { result ≡ some_row (is_code code.now system.now (attribute_of document.now at (text "displayName"))) (rows_at tables.now from count) }
{
    let Some(place) = xml_values::plain_attribute(document, at, b"displayName") else {
        let mut room = [0u8; Reader::VALUE];
        let display = xml_values::attribute(document, at, b"displayName", &mut room);
        return table_search::some_row(
            Lookup::Code,
            tables,
            from,
            count,
            codes,
            code,
            system,
            display,
        );
    };
    table_search::some_row(
        Lookup::Code,
        tables,
        from,
        count,
        codes,
        code,
        system,
        &document[place.first..place.after],
    )
}

// Whether a row of the code list has this code, and the system and display name of the element at `at`.
fn has_system(
    document: &[u8],
    at: usize,
    tables: &[u8],
    from: usize,
    count: usize,
    codes: &[u32],
    code: &[u8],
) -> bool
    requires { Serves Lookup.Code (keeps_row Lookup.Code [] []) tables.now from count codes.now }
    ensures { result ≡ some_row (is_code code.now (attribute_of document.now at (text "codeSystem")) (attribute_of document.now at (text "displayName"))) (rows_at tables.now from count) }
{
    let Some(place) = xml_values::plain_attribute(document, at, b"codeSystem") else {
        let mut room = [0u8; Reader::VALUE];
        let system = xml_values::attribute(document, at, b"codeSystem", &mut room);
        return has_display(document, at, tables, from, count, codes, code, system);
    };
    has_display(
        document,
        at,
        tables,
        from,
        count,
        codes,
        code,
        &document[place.first..place.after],
    )
}

// Whether a row of the code list has the code, system and display name of the element at `at`.
pub fn has_code(
    document: &[u8],
    at: usize,
    tables: &[u8],
    from: usize,
    count: usize,
    codes: &[u32],
) -> bool
    requires { Serves Lookup.Code (keeps_row Lookup.Code [] []) tables.now from count codes.now }
    ensures { result ≡ some_row (is_code (attribute_of document.now at (text "code")) (attribute_of document.now at (text "codeSystem")) (attribute_of document.now at (text "displayName"))) (rows_at tables.now from count) }
{
    let Some(place) = xml_values::plain_attribute(document, at, b"code") else {
        let mut room = [0u8; Reader::VALUE];
        let code = xml_values::attribute(document, at, b"code", &mut room);
        return has_system(document, at, tables, from, count, codes, code);
    };
    has_system(
        document,
        at,
        tables,
        from,
        count,
        codes,
        &document[place.first..place.after],
    )
}

// Whether a row of the register has this number, and the text of the element at `at` as its name.
fn has_name_of(
    document: &[u8],
    at: usize,
    tables: &[u8],
    from: usize,
    count: usize,
    names: &[u32],
    number: &[u8],
) -> bool
    requires { Serves Lookup.Name (keeps_row Lookup.Name [] []) tables.now from count names.now }
    ensures { result ≡ some_row (is_registered number.now (text_of document.now at)) (rows_at tables.now from count) }
{
    let Some(place) = xml_texts::plain_text(document, at) else {
        let mut room = [0u8; Reader::VALUE];
        let name = xml_texts::text(document, at, &mut room);
        return table_search::some_row(Lookup::Name, tables, from, count, names, number, name, b"");
    };
    table_search::some_row(
        Lookup::Name,
        tables,
        from,
        count,
        names,
        number,
        &document[place.first..place.after],
        b"",
    )
}

// Whether a row of the register has the number of the id at `id`, and the text of the element at `at` as its name.
pub fn has_name(
    document: &[u8],
    id: usize,
    at: usize,
    tables: &[u8],
    from: usize,
    count: usize,
    names: &[u32],
) -> bool
    requires { Serves Lookup.Name (keeps_row Lookup.Name [] []) tables.now from count names.now }
    ensures { result ≡ some_row (is_registered (attribute_of document.now id (text "extension")) (text_of document.now at)) (rows_at tables.now from count) }
{
    let Some(place) = xml_values::plain_attribute(document, id, b"extension") else {
        let mut room = [0u8; Reader::VALUE];
        let number = xml_values::attribute(document, id, b"extension", &mut room);
        return has_name_of(document, at, tables, from, count, names, number);
    };
    has_name_of(
        document,
        at,
        tables,
        from,
        count,
        names,
        &document[place.first..place.after],
    )
}
