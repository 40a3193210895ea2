// The rows of a section, as parts of the tables file: whether some row is what a procedure asks for. A section is the place of its first
// row and the count of its rows.
#![tactic(auto)]

ghost use Rattle.std.specs.Prelude.{◌≡◌};
ghost use Rattle.text_facts.specs.Strings.{equal, equal_in_any_case};
ghost use Rattle.text_numbers.specs.Numbers.{version_of};
ghost use Rattle.table_lines.specs.Lines.{other, front, field, fields_of, rows_at};
ghost use Rattle.table_rows.specs.Rows.{some_row, is_asked, is_code, is_registered, is_document, is_version, is_key_elsewhere, is_other_key};

// What can be asked of a row.
#[derive(Clone, Copy)]
pub enum Question {
    Code,
    Name,
    Document,
    Version,
    KeyElsewhere,
    OtherKey,
}

// Whether the field in front is this value: most are told by their first bytes, and their ends are not looked for.
fn begins_with(rest: &[u8], value: &[u8]) -> bool
    ensures { result ≡ equal (front (other 9) rest.now) value.now }
{
    for j in 0..value.len() {
        if rest.len() <= j {
            return false;
        }
        let b = rest[j];
        if b != value[j] || b == b'\t' {
            return false;
        }
    }
    rest.len() <= value.len() || rest[value.len()] == b'\t'
}

// Whether the field of number k of a line is this value.
pub fn field_is(line: &[u8], k: usize, value: &[u8]) -> bool
    ensures { result ≡ equal (field (fields_of line.now) k) value.now }
{
    let at = table_lines::field_start(line, k);
    begins_with(&line[at..], value)
}

// The same, ASCII case ignored.
fn field_is_in_any_case(line: &[u8], k: usize, value: &[u8]) -> bool
    ensures { result ≡ equal_in_any_case (field (fields_of line.now) k) value.now }
{
    text_facts::same_in_any_case(table_lines::field(line, k), value)
}

// The version that the field of number k of a line says, or 0.
fn field_version(line: &[u8], k: usize) -> u32
    ensures { result ≡ version_of (field (fields_of line.now) k) }
{
    text_numbers::version(table_lines::field(line, k))
}

fn is_code(line: &[u8], code: &[u8], system: &[u8], display: &[u8]) -> bool
    ensures { result ≡ is_code code.now system.now display.now (fields_of line.now) }
{
    field_is(line, 0, code) && field_is(line, 1, system) && field_is_in_any_case(line, 2, display)
}

fn is_registered(line: &[u8], number: &[u8], name: &[u8]) -> bool
    ensures { result ≡ is_registered number.now name.now (fields_of line.now) }
{
    field_is(line, 0, number) && field_is(line, 1, name)
}

fn is_version(line: &[u8], set: &[u8], version: &[u8]) -> bool
    ensures { result ≡ is_version set.now version.now (fields_of line.now) }
{
    field_is(line, 1, set) && text_numbers::version(version) <= field_version(line, 2)
}

fn is_key_elsewhere(line: &[u8], kind: &[u8], key: &[u8], set: &[u8]) -> bool
    ensures { result ≡ is_key_elsewhere kind.now key.now set.now (fields_of line.now) }
{
    field_is(line, 0, kind) && field_is(line, 4, key) && !field_is(line, 1, set)
}

fn is_other_key(line: &[u8], kind: &[u8], set: &[u8], key: &[u8]) -> bool
    ensures { result ≡ is_other_key kind.now set.now key.now (fields_of line.now) }
{
    field_is(line, 0, kind) && field_is(line, 1, set) && !field_is(line, 4, key)
}

// Whether a line is the row that is asked for.
pub fn is_asked(q: Question, line: &[u8], a: &[u8], b: &[u8], c: &[u8]) -> bool
    ensures { result ≡ is_asked q a.now b.now c.now (fields_of line.now) }
{
    match q {
        Question::Code => is_code(line, a, b, c),
        Question::Name => is_registered(line, a, b),
        Question::Document => field_is(line, 3, a),
        Question::Version => is_version(line, a, b),
        Question::KeyElsewhere => is_key_elsewhere(line, a, b, c),
        Question::OtherKey => is_other_key(line, a, b, c),
    }
}

// Whether some row of a section is the row that is asked for.
pub fn some_row(
    q: Question,
    s: &[u8],
    at: usize,
    count: usize,
    a: &[u8],
    b: &[u8],
    c: &[u8],
) -> bool
    ensures { result ≡ some_row (is_asked q a.now b.now c.now) (rows_at s.now at count) }
{
    let mut i = at;
    for _ in 0..count {
        if s.len() <= i {
            return false;
        }
        let e = table_lines::line_end(s, i);
        if is_asked(q, &s[i..e], a, b, c) {
            return true;
        }
        i = e + 1;
    }
    false
}

// Procedure 6: whether a row of the history has this document id.
pub fn has_document(tables: &[u8], at: usize, count: usize, document: &[u8]) -> bool
    ensures { result ≡ some_row (is_document document.now) (rows_at tables.now at count) }
{
    some_row(
        Question::Document,
        tables,
        at,
        count,
        document,
        document,
        document,
    )
}

// Procedure 12: whether a row of the history of this set id has this or a higher version.
pub fn has_version(tables: &[u8], at: usize, count: usize, set: &[u8], version: &[u8]) -> bool
    ensures { result ≡ some_row (is_version set.now version.now) (rows_at tables.now at count) }
{
    some_row(Question::Version, tables, at, count, set, version, version)
}

// Procedure 21: whether a row of the history of this type has this key under another set id.
pub fn has_key_elsewhere(
    tables: &[u8],
    at: usize,
    count: usize,
    kind: &[u8],
    key: &[u8],
    set: &[u8],
) -> bool
    ensures { result ≡ some_row (is_key_elsewhere kind.now key.now set.now) (rows_at tables.now at count) }
{
    some_row(Question::KeyElsewhere, tables, at, count, kind, key, set)
}

// Procedure 22: whether a row of the history of this type with this set id has another key.
pub fn has_other_key(
    tables: &[u8],
    at: usize,
    count: usize,
    kind: &[u8],
    set: &[u8],
    key: &[u8],
) -> bool
    ensures { result ≡ some_row (is_other_key kind.now set.now key.now) (rows_at tables.now at count) }
{
    some_row(Question::OtherKey, tables, at, count, kind, set, key)
}
