// The tables file: whether it keeps the rules, and where the rows of its three sections stand.
#![tactic(auto)]

ghost use Rattle.std.specs.Prelude.{◌≡◌};
ghost use Rattle.table_lines.specs.Lines.{field_count};
ghost use Rattle.table_file.specs.Accepted.{is_row, count_of, rows_end, section_at, accepted};

use xml_reader::Reader;

// The three sections.
#[derive(Clone, Copy)]
pub enum Kind {
    CodeList,
    Register,
    History,
}

// The rows of a section: the place of the first, and their count.
#[derive(Clone, Copy)]
pub struct Rows {
    pub first: usize,
    pub count: usize,
}

// A section: its rows, and the place after them.
#[derive(Clone, Copy)]
pub struct Section {
    pub rows: Rows,
    pub after: usize,
}

// The rows of the three sections.
#[derive(Clone, Copy)]
pub struct Sections {
    pub codes: Rows,
    pub names: Rows,
    pub history: Rows,
}

// Why a file is refused: the first bad line, or what follows the last section, by its place.
#[derive(Clone, Copy)]
pub struct BadLine {
    pub place: usize,
}

// Whether a line with these fields is a row of a section.
fn is_row(kind: Kind, line: &[u8], fields: Option<usize>) -> bool
    requires { fields ≡ field_count line.now }
    ensures { result ≡ is_row kind line.now }
{
    if Reader::ROW < line.len() {
        return false;
    }
    let Some(n) = fields else {
        return false;
    };
    match kind {
        Kind::CodeList => n == 3,
        Kind::Register => n == 2,
        Kind::History => n == 5 && 0 < text_numbers::version(table_lines::field(line, 2)),
    }
}

// The count that a line says.
fn read_count(line: &[u8]) -> Option<usize>
    ensures { result ≡ count_of line.now }
{
    if line.is_empty() {
        return None;
    }
    if line[0] == b'0' && line.len() != 1 {
        return None;
    }
    let mut v: usize = 0;
    for b in line {
        if text_scan::is_digit(*b) {
            v = v * 10 + usize::from(*b - b'0');
            if Reader::ROWS < v {
                return None;
            }
            continue;
        }
        return None;
    }
    Some(v)
}

// Where n rows from the line at `at` on end.
fn rows_end(kind: Kind, s: &[u8], at: usize, n: usize) -> Result<usize, BadLine>
    ensures { result ≡ rows_end kind s.now at n }
{
    let mut i = at;
    for _ in 0..n {
        let line = table_lines::line_at(s, i);
        let e = line.end;
        if s.len() <= e {
            return Err(BadLine { place: s.len() });
        }
        if is_row(kind, &s[i..e], line.fields) {
            i = e + 1;
            continue;
        }
        return Err(BadLine { place: i });
    }
    Ok(i)
}

// The section whose count stands at `at`.
fn section_at(kind: Kind, s: &[u8], at: usize) -> Result<Section, BadLine>
    ensures { result ≡ section_at kind s.now at }
{
    let e = table_lines::line_end(s, at);
    if s.len() <= e {
        return Err(BadLine { place: s.len() });
    }
    let Some(count) = read_count(&s[at..e]) else {
        return Err(BadLine { place: at });
    };
    let first = e + 1;
    let after = rows_end(kind, s, first, count)?;
    Ok(Section {
        rows: Rows { first, count },
        after,
    })
}

// What the tables file is: where the rows of each section stand, or refusal 4.
pub fn accept(s: &[u8]) -> Result<Sections, BadLine>
    ensures { result ≡ accepted s.now }
{
    let codes = section_at(Kind::CodeList, s, 0)?;
    let names = section_at(Kind::Register, s, codes.after)?;
    let history = section_at(Kind::History, s, names.after)?;
    if history.after != s.len() {
        return Err(BadLine {
            place: history.after,
        });
    }
    Ok(Sections {
        codes: codes.rows,
        names: names.rows,
        history: history.rows,
    })
}
