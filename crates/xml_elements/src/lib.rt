// The elements of a document: refusals 1 and 5 to 9, and the element table.
#![tactic(auto)]

ghost use Rattle.std.specs.Prelude.{◌≡◌, ◌+◌, ◌*◌, ◌≤◌, ◌++◌, length, take, drop, get_or, set};
ghost use Rattle.xml_reader.specs.Limits.{document_limit, elements_limit};
ghost use Rattle.xml_pieces.specs.Pieces.{piece_at};
ghost use Rattle.xml_elements.specs.Elements.{read_from, elements_of, ElementsLeft};
ghost use Rattle.xml_steps.specs.Reading.{fresh, document_part, elements as elements'};
ghost use Rattle.xml_elements.specs.Walked.{read_of, piece_refused, stop_of};
ghost use Rattle.xml_steps.specs.Walked.{Roomy};

use refusals::{Reason, Refusal};
use xml_pieces::{Kind, Scanned};
use xml_reader::Reader;

// Bytes of a document that is read with the small room.
const FEW: usize = 2048;

// What a refused piece answers.
fn refusal(got: Scanned, at: usize) -> Result<usize, Refusal>
    ensures { result ≡ piece_refused got at }
{
    match got {
        Scanned::Piece(_, _) => Err(Refusal {
            reason: Reason::Malformed,
            value: at,
        }),
        Scanned::Refused(number) => Err(Refusal {
            reason: number,
            value: at,
        }),
    }
}

// What a refused step answers.
fn stop(next: Result<Reader, Reason>, at: usize) -> Result<usize, Refusal>
    ensures { result ≡ stop_of next at }
{
    match next {
        Ok(_) => Err(Refusal {
            reason: Reason::Malformed,
            value: at,
        }),
        Err(number) => Err(Refusal {
            reason: number,
            value: at,
        }),
    }
}

// The piece at `at`. White space between two tags, which is every other piece inside the root, is told here, with no call.
fn scan(s: &[u8], at: usize, count: usize, depth: usize) -> Scanned
    ensures { result ≡ piece_at s.now at (document_part count depth) }
{
    let e = xml_names::space_end(s, at);
    if at < e {
        if 0 < depth {
            if text_scan::byte(s, e) == 60 {
                return Scanned::Piece(Kind::Text, e);
            }
        }
    }
    xml_pieces::piece(s, at, xml_steps::part_of(count, depth))
}

// All pieces of a document, with the rows in the front of a lent run of numbers.
fn walk(s: &[u8], rows: &mut [u32]) -> Result<usize, Refusal>
    requires { (length s.now ≤ document_limit) × Roomy (length s.now) rows.old }
    ensures { (read_of result rows.new ≡ read_from s.now fresh) × (length rows.new ≡ length rows.old) }
{
    let mut reader = Reader::new();
    while reader.at < s.len() {
        let at = reader.at;
        let got = scan(s, at, reader.count, reader.depth);
        let Scanned::Piece(kind, after) = got else {
            return refusal(got, at);
        };
        let next = xml_steps::step(s, reader, kind, after, rows);
        let Ok(further) = next else {
            return stop(next, at);
        };
        reader = further;
    }
    if 0 < reader.depth {
        return Err(Refusal {
            reason: Reason::Malformed,
            value: s.len(),
        });
    }
    if reader.count < 1 {
        return Err(Refusal {
            reason: Reason::Malformed,
            value: s.len(),
        });
    }
    Ok(reader.count)
}

// Writes the four numbers of element k to the table.
fn put_row(rows: &[u32], k: usize, table: &mut [u32])
    requires { (4 * k + 4 ≤ length rows.now) × (4 * k + 4 ≤ length table.old) }
    ensures { table.new ≡ set (set (set (set table.old (4 * k) (get_or rows.now (4 * k) 0)) (4 * k + 1) (get_or rows.now (4 * k + 1) 0)) (4 * k + 2) (get_or rows.now (4 * k + 2) 0)) (4 * k + 3) (get_or rows.now (4 * k + 3) 0) }
{
    let at = 4 * k;
    table[at] = rows[at];
    table[at + 1] = rows[at + 1];
    table[at + 2] = rows[at + 2];
    table[at + 3] = rows[at + 3];
}

// Writes the rows of n elements to the front of the table.
fn put_rows(rows: &[u32], n: usize, table: &mut [u32])
    requires { (4 * n ≤ length rows.now) × (4 * n ≤ length table.old) }
    ensures { table.new ≡ take (4 * n) rows.now ++ drop (4 * n) table.old }
{
    for k in 0..n {
        put_row(rows, k, table);
    }
}

// The rows go to the table, where it has room for them.
fn deliver(rows: &[u32], n: usize, elements: &mut [u32]) -> Result<usize, Refusal>
    requires { (4 * n ≤ length rows.now) × (n ≤ elements_limit) }
    ensures { ElementsLeft (elements' n (take (4 * n) rows.now)) elements.old result elements.new }
{
    if elements.len() < 4 * n {
        return Err(Refusal {
            reason: Reason::ShortElements,
            value: n,
        });
    }
    put_rows(rows, n, elements);
    Ok(n)
}

// Reads the pieces of a document, with room for the rows lent.
fn read_pieces(document: &[u8], rows: &mut [u32], elements: &mut [u32]) -> Result<usize, Refusal>
    requires { (length document.now ≤ document_limit) × Roomy (length document.now) rows.old }
    ensures { ElementsLeft (read_from document.now fresh) elements.old result elements.new }
{
    let got = walk(document, rows);
    let Ok(n) = got else {
        return got;
    };
    deliver(rows, n, elements)
}

// The same of a document of few bytes, with a room for as many elements, so that the large room is not cleared for it.
fn read_small(document: &[u8], elements: &mut [u32]) -> Result<usize, Refusal>
    requires { length document.now ≤ 2048 }
    ensures { ElementsLeft (read_from document.now fresh) elements.old result elements.new }
{
    let mut rows = [0u32; 4 * FEW];
    read_pieces(document, &mut rows, elements)
}

// Reads a document: refuses it with 1 or 5 to 9 and leaves the table as it was, or fills the front of the table with the rows of
// all elements and answers how many there are.
pub fn read(document: &[u8], elements: &mut [u32]) -> Result<usize, Refusal>
    ensures { ElementsLeft (elements_of document.now) elements.old result elements.new }
{
    if Reader::DOCUMENT < document.len() {
        return Err(Refusal {
            reason: Reason::LongDocument,
            value: document.len(),
        });
    }
    let bad = text_chars::first_bad(document);
    if bad < document.len() {
        return Err(Refusal {
            reason: Reason::BadCharacter,
            value: bad,
        });
    }
    if document.len() <= FEW {
        return read_small(document, elements);
    }
    let mut rows = [0u32; 4 * Reader::ELEMENTS];
    read_pieces(document, &mut rows, elements)
}
