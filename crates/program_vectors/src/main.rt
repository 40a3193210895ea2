// Holds the small program's answer to what is expected of it. A list has blocks, each a line `== NAME` and then the text that is expected
// of NAME.xml under NAME.tables: what is printed, or the element table that the check fills. Writes a line for each block that differs,
// and the counts of each list.
#![tactic(auto)]

ghost use Rattle.std.specs.Prelude.{◌+◌, ◌*◌, ◌/◌, ◌≤◌, ◌<◌, ◌≡◌, length, IfOk};
ghost use Rattle.program_vectors.specs.Counts.{IsPrefixLen};

use list_findings::WIDTH;
use std::io::ErrorKind;
use std::rt::Files;
use std::{fs, io, str};

// A block of a list: the name of its files, the text that is expected, and whether that is the text of the element table.
#[derive(Clone, Copy)]
struct Block<'a> {
    name: &'a [u8],
    expected: &'a [u8],
    rows: bool,
}

fn say(rt: &impl Print, text: &[u8]) -> io::Result<()> {
    rt.write_all(text)
}

// Tells on standard error why the files of a name were not read.
fn fail(rt: &impl Eprint, name: &[u8], e: io::Error) -> io::Result<()> {
    match str::from_utf8(name) {
        Ok(name) => eprintln!(rt; "{name}: {e}"),
        Err(_) => eprintln!(rt; "{e}"),
    }
}

// The line of s at i, without its line feed; nothing past the end.
fn say_line(rt: &impl Print, s: &[u8], i: usize) -> io::Result<()> {
    let e = table_lines::line_end(s, i);
    match s.get(i..e) {
        Some(line) => say(rt, line),
        None => Ok(()),
    }
}

// The place of the first line in which two texts differ.
fn differing(a: &[u8], b: &[u8]) -> usize {
    let mut line = 0;
    for (i, (x, y)) in a.iter().zip(b).enumerate() {
        if x != y {
            return line;
        }
        if *x == b'\n' {
            line = i + 1;
        }
    }
    line
}

// Whether a text is the expected one; if not, says the first lines that differ.
fn compare(rt: &impl Print, name: &[u8], text: &[u8], expected: &[u8]) -> io::Result<bool> {
    if text_facts::same(text, expected) {
        return Ok(true);
    }
    let line = differing(text, expected);
    say(rt, name)?;
    say(rt, b": `")?;
    say_line(rt, text, line)?;
    say(rt, b"`, expected `")?;
    say_line(rt, expected, line)?;
    say(rt, b"`\n")?;
    Ok(false)
}

// The rows in the front of an element table that held zeros: an element ends behind byte 0.
fn row_count(rows: &[u32]) -> usize
    ensures { 4 * result ≤ length rows.now }
{
    for (k, row) in rows.chunks_exact(4).enumerate() {
        if row[3] == 0 {
            return k;
        }
    }
    rows.len() / 4
}

// Puts the four numbers of a row.
fn put_row(rows: &[u32], k: usize, out: &mut [u8], at: usize) -> usize
    requires { (4 * k + 4 ≤ length rows.now) × (at + 84 ≤ length out.old) }
    ensures { (result ≤ at + 84) × (length out.new ≡ length out.old) }
{
    let parent = program_texts::put_number(out, at, rows[4 * k] as u64, b" ");
    let first = program_texts::put_number(out, parent, rows[4 * k + 1] as u64, b" ");
    let after = program_texts::put_number(out, first, rows[4 * k + 2] as u64, b" ");
    program_texts::put_number(out, after, rows[4 * k + 3] as u64, b"\n")
}

// Puts the first rows of a table.
fn put_rows(rows: &[u32], count: usize, out: &mut [u8], at: usize) -> usize
    requires { (4 * count ≤ length rows.now) × (at + 84 * count ≤ length out.old) }
    ensures { IsPrefixLen result out.new }
{
    let mut next = at;
    for k in 0..count {
        next = put_row(rows, k, out, next);
    }
    next
}

// The text of an element table: the number of its elements, and a line for each where there are at most twelve.
fn print_rows(rows: &[u32], out: &mut [u8]) -> usize
    requires { 2048 ≤ length out.old }
    ensures { IsPrefixLen result out.new }
{
    let count = row_count(rows);
    let at = program_texts::put(out, 0, b"elements ");
    let next = program_texts::put_number(out, at, count as u64, b"\n");
    let shown = if count <= 12 { count } else { 0 };
    put_rows(rows, shown, out, next)
}

// The text of an answer, or of the element table that the check filled.
fn answer(
    document: &[u8],
    tables: &[u8],
    rows: bool,
    elements: &mut [u32],
    list: &mut [u32],
    out: &mut [u8],
) -> usize
    requires { (64 + 21 * length list.old ≤ length out.old) × (2048 ≤ length out.old) }
    ensures { IsPrefixLen result out.new }
{
    let n = program_answer::run(document, tables, elements, list, out);
    if rows { print_rows(elements, out) } else { n }
}

fn hold_answer(
    rt: &impl Print,
    block: Block<'_>,
    document: &[u8],
    tables: &[u8],
    elements: &mut [u32],
    list: &mut [u32],
    out: &mut [u8],
) -> io::Result<bool>
    requires { (64 + 21 * length list.old ≤ length out.old) × (2048 ≤ length out.old) }
{
    let n = answer(document, tables, block.rows, elements, list, out);
    compare(rt, block.name, &out[..n], block.expected)
}

// The rooms are those of the small program.
fn hold_pair(
    rt: &impl Print,
    block: Block<'_>,
    document: &[u8],
    tables: &[u8],
) -> io::Result<bool> {
    let mut elements = [0u32; 4 * program_answer::ELEMENTS];
    let mut list = [0u32; WIDTH * program_answer::FINDINGS];
    let mut out = [0u8; program_answer::TEXT];
    hold_answer(
        rt,
        block,
        document,
        tables,
        &mut elements,
        &mut list,
        &mut out,
    )
}

// Opens the file whose name is put together of two texts in a room.
fn open<R: Files>(rt: &R, name: &[u8], ending: &[u8], path: &mut [u8]) -> io::Result<R::File>
    requires { length name.now + length ending.now ≤ length path.old }
{
    let n = program_texts::put(path, 0, name);
    let m = program_texts::put(path, n, ending);
    match str::from_utf8(&path[..m]) {
        Ok(path) => fs::open(rt, path),
        Err(_) => Err(io::Error::new(ErrorKind::InvalidInput, "the name is not UTF-8")),
    }
}

// Opens such a file; names are short.
fn open_short<R: Files>(rt: &R, name: &[u8], ending: &[u8]) -> io::Result<R::File> {
    let mut path = [0u8; 256];
    if 248 < name.len() {
        return Err(io::Error::new(ErrorKind::InvalidInput, "the name is too long"));
    }
    if 8 < ending.len() {
        return Err(io::Error::new(ErrorKind::InvalidInput, "the ending is too long"));
    }
    open(rt, name, ending, &mut path)
}

fn read_file(rt: &impl Files, name: &[u8], ending: &[u8], room: &mut [u8]) -> io::Result<usize>
    ensures { IfOk result (λ n. n ≤ length room.new) }
{
    let mut file = open_short(rt, name, ending)?;
    program_answer::read(&mut file, room)
}

fn hold_files(
    rt: &(impl Files + Print + Eprint),
    block: Block<'_>,
    document: &mut [u8],
    tables: &mut [u8],
) -> io::Result<bool> {
    let n = match read_file(rt, block.name, b".xml", document) {
        Ok(n) => n,
        Err(e) => {
            fail(rt, block.name, e)?;
            return Ok(false);
        }
    };
    let m = match read_file(rt, block.name, b".tables", tables) {
        Ok(m) => m,
        Err(e) => {
            fail(rt, block.name, e)?;
            return Ok(false);
        }
    };
    hold_pair(rt, block, &document[..n], &tables[..m])
}

// One byte more than the limit is read, so that a longer file is seen.
fn hold(rt: &(impl Files + Print + Eprint), block: Block<'_>) -> io::Result<bool> {
    let mut document = [0u8; program_answer::LIMIT + 1];
    let mut tables = [0u8; program_answer::LIMIT + 1];
    hold_files(rt, block, &mut document, &mut tables)
}

// A block that has no name, or no line behind its name, is none that could be held to.
fn say_no_block(rt: &impl Print) -> io::Result<bool> {
    say(rt, b"a block has no name or no text\n")?;
    Ok(false)
}

// Whether the answer is the one of a block: its first line and the text behind it.
fn hold_block(rt: &(impl Files + Print + Eprint), s: &[u8], rows: bool) -> io::Result<bool> {
    let e = table_lines::line_end(s, 0);
    if e < 3 || s.len() <= e {
        return say_no_block(rt);
    }
    let block = Block {
        name: &s[3..e],
        expected: &s[e + 1..],
        rows,
    };
    hold(rt, block)
}

// The place of the first block behind `at`, or the length.
fn next_block(s: &[u8], at: usize) -> usize
    requires { at < length s.now }
    ensures { (at < result) × (result ≤ length s.now) }
{
    for i in at..s.len() {
        if text_scan::text_at(s, i, b"\n== ") {
            return i + 1;
        }
    }
    s.len()
}

fn say_count(rt: &impl Print, n: u64, what: &[u8]) -> io::Result<()> {
    print!(rt; "{n}")?;
    say(rt, what)
}

// Holds the answers to all blocks, and says how many there are and how many differ.
fn hold_blocks(
    rt: &(impl Files + Print + Eprint),
    s: &[u8],
    rows: bool,
    what: &[u8],
) -> io::Result<()> {
    let mut held = 0;
    let mut differ = 0;
    let mut i = 0;
    while i < s.len() {
        let e = next_block(s, i);
        if hold_block(rt, &s[i..e], rows)? {
            held += 1;
        } else {
            differ += 1;
        }
        i = e;
    }
    say_count(rt, held, what)?;
    say_count(rt, differ, b" differ\n")
}

fn hold_list(
    rt: &(impl Files + Print + Eprint),
    name: &[u8],
    rows: bool,
    what: &[u8],
    room: &mut [u8],
) -> io::Result<()> {
    match read_file(rt, name, b".txt", room) {
        Ok(n) => hold_blocks(rt, &room[..n], rows, what),
        Err(e) => fail(rt, name, e),
    }
}

fn run(rt: &(impl Files + Print + Eprint), name: &[u8], rows: bool, what: &[u8]) -> io::Result<()> {
    let mut room = [0u8; 65536];
    hold_list(rt, name, rows, what, &mut room)
}

fn main(rt: HostRuntime) -> io::Result<()> {
    run(&rt, b"elements", true, b" element tables as expected, ")?;
    run(&rt, b"examples", false, b" examples as expected, ")?;
    run(&rt, b"expected", false, b" vectors as expected, ")?;
    run(&rt, b"own", false, b" cases of our own as expected, ")
}
