// What one piece of a document does to the reading of it: elements are added and closed, within the limits.
#![tactic(auto)]

ghost use Rattle.std.specs.Prelude.{◌≡◌, ◌+◌, ◌*◌, ◌≤◌, ◌<◌, ◌++◌, length, take, get_or, Ok};
ghost use Rattle.text_scan.specs.Choice.{◌and◌, not};
ghost use Rattle.xml_reader.specs.Limits.{document_limit, elements_limit};
ghost use Rattle.xml_names.specs.Names.{is_name_start, is_name_char, name_at};
ghost use Rattle.text_facts.specs.Strings.{equal};
ghost use Rattle.xml_pieces.specs.declared.Kind.TheVariants.{End};
ghost use Rattle.xml_pieces.specs.declared.Scanned.{Scanned};
ghost use Rattle.xml_steps.specs.Reading.{element_row, document_part, adding, closing, by_piece, content_fits};
ghost use Rattle.xml_steps.specs.Walked.{reading, turn_of, name_bytes, Roomy, Steps};

use refusals::Reason;
use xml_pieces::{DocumentPart, Kind, Scanned};
use xml_reader::Reader;

pub fn part_of(count: usize, depth: usize) -> DocumentPart
    ensures { result ≡ document_part count depth }
{
    if 0 < depth {
        return DocumentPart::Inside;
    }
    if 0 < count {
        return DocumentPart::After;
    }
    DocumentPart::Before
}

// Writes the row of element n.
fn put_row(rows: &mut [u32], n: usize, parent: usize, first: usize, after: usize)
    requires { (4 * n + 4 ≤ length rows.old) × (n < elements_limit) × (parent ≤ document_limit) × (first ≤ document_limit) × (after ≤ document_limit) }
    ensures { (take (4 * n + 4) rows.new ≡ take (4 * n) rows.old ++ element_row n parent first after) × (length rows.new ≡ length rows.old) }
{
    let k = 4 * n;
    rows[k] = n as u32;
    rows[k + 1] = parent as u32;
    rows[k + 2] = first as u32;
    rows[k + 3] = after as u32;
}

// A tag adds an element, where the limits leave room; then `depth` are open, the innermost of number `top`.
fn add(
    reader: Reader,
    after: usize,
    depth: usize,
    top: usize,
    rows: &mut [u32],
) -> Result<Reader, Reason>
    requires { Roomy (reader.count + 1) rows.old × (reader.at ≤ document_limit) × (reader.top ≤ document_limit) × (after ≤ document_limit) }
    ensures { (turn_of reader.at result rows.new ≡ adding (reading reader rows.old) after depth top) × (length rows.new ≡ length rows.old) }
{
    let count = reader.count;
    if Reader::ELEMENTS <= count {
        return Err(Reason::PastLimit);
    }
    if Reader::DEPTH <= reader.depth {
        return Err(Reason::PastLimit);
    }
    put_row(rows, count, reader.top, reader.at, after);
    Ok(Reader {
        at: after,
        count: count + 1,
        depth,
        top,
    })
}

// Whether the innermost open element has child elements, or a content within the limit.
fn content_fits(reader: Reader, rows: &[u32]) -> bool
    requires { (reader.top < reader.count) × (4 * reader.count ≤ length rows.now) × (get_or rows.now (4 * reader.top + 3) 0 ≤ reader.at) × (reader.count ≤ elements_limit) }
    ensures { result ≡ content_fits (reading reader rows.now) }
{
    let top = reader.top;
    if top + 1 < reader.count {
        return true;
    }
    let k = 4 * top;
    let start = rows[k + 3] as usize;
    reader.at - start <= Reader::VALUE
}

// Whether a name starts at k.
fn starts_name(s: &[u8], k: usize) -> bool
    ensures { result ≡ is_name_start (get_or s.now k 0) }
{
    if s.len() <= k {
        return false;
    }
    xml_names::is_name_start(s[k])
}

// Whether no byte of a name stands at k.
fn name_over(s: &[u8], k: usize) -> bool
    ensures { result ≡ not (is_name_char (get_or s.now k 0)) }
{
    if s.len() <= k {
        return true;
    }
    !xml_names::is_name_char(s[k])
}

// Whether no byte of a name stands at either place.
fn both_over(s: &[u8], a: usize, b: usize) -> bool
    ensures { result ≡ not (is_name_char (get_or s.now a 0)) and not (is_name_char (get_or s.now b 0)) }
{
    if name_over(s, a) {
        return name_over(s, b);
    }
    false
}

// Whether the bytes of names from two places on are the same. As long as they are, those of one tell whether both names go on. No `zip`: where the
// bytes run out, the place reached behind i is asked.
fn same_bytes(s: &[u8], i: usize, j: usize) -> bool
    requires { i ≤ j }
    ensures { result ≡ equal (name_bytes s.now i) (name_bytes s.now j) }
{
    let mut a = i;
    let mut b = j;
    while b < s.len() {
        let y = s[b];
        let x = s[a];
        if x != y {
            return both_over(s, a, b);
        }
        if xml_names::is_name_char(y) {
            a += 1;
            b += 1;
            continue;
        }
        return true;
    }
    name_over(s, a)
}

// Whether the names at two places are the same. Where a name starts at the first, its first byte tells whether one starts at the
// second, so that place is not asked.
fn same_name(s: &[u8], i: usize, j: usize) -> bool
    requires { i ≤ j }
    ensures { result ≡ equal (name_at s.now i) (name_at s.now j) }
{
    if starts_name(s, i) {
        return same_bytes(s, i, j);
    }
    !starts_name(s, j)
}

// An end tag closes the innermost open element.
fn close(s: &[u8], reader: Reader, after: usize, rows: &mut [u32]) -> Result<Reader, Reason>
    requires { Steps s.now (reading reader rows.old) End after × (4 * reader.top + 4 ≤ length rows.old) }
    ensures { (turn_of reader.at result rows.new ≡ closing s.now (reading reader rows.old) after) × (length rows.new ≡ length rows.old) }
{
    let k = 4 * reader.top;
    let parent = rows[k + 1] as usize;
    let first = rows[k + 2] as usize;
    if same_name(s, first + 1, reader.at + 2) {
        if content_fits(reader, rows) {
            rows[k + 3] = after as u32;
            return Ok(Reader {
                at: after,
                depth: reader.depth - 1,
                top: parent,
                ..reader
            });
        }
        return Err(Reason::PastLimit);
    }
    Err(Reason::Malformed)
}

// A piece that is no tag is read over.
fn pass(reader: Reader, after: usize) -> Result<Reader, Reason>
    ensures { result ≡ Ok (record { at = after; count = reader.count; depth = reader.depth; top = reader.top }) }
{
    Ok(Reader {
        at: after,
        ..reader
    })
}

// One piece.
pub fn step(
    s: &[u8],
    reader: Reader,
    kind: Kind,
    after: usize,
    rows: &mut [u32],
) -> Result<Reader, Reason>
    requires { Steps s.now (reading reader rows.old) kind after × Roomy (length s.now) rows.old }
    ensures { (turn_of reader.at result rows.new ≡ by_piece s.now (reading reader rows.old) (Scanned.Piece kind after)) × (length rows.new ≡ length rows.old) }
{
    match kind {
        Kind::Start => add(reader, after, reader.depth + 1, reader.count, rows),
        Kind::Empty => add(reader, after, reader.depth, reader.top, rows),
        Kind::End => close(s, reader, after, rows),
        Kind::Text => pass(reader, after),
        Kind::Comment => pass(reader, after),
        Kind::Instruction => pass(reader, after),
        Kind::Declaration => pass(reader, after),
    }
}
