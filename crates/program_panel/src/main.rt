// Reads tables.txt and a document from standard input, and prints the findings of the document under the tables, or the refusal.
#![tactic(auto)]

ghost use Rattle.std.specs.Prelude.{◌+◌, ◌*◌, ◌≤◌, length};

use list_findings::WIDTH;
use std::rt::Files;
use std::{fs, io};

fn print(
    rt: &(impl Print + Eprint),
    document: &[u8],
    tables: &[u8],
    elements: &mut [u32],
    list: &mut [u32],
    out: &mut [u8],
) -> io::Result<()>
    requires { 64 + 21 * length list.old ≤ length out.old }
{
    let n = program_answer::run(document, tables, elements, list, out);
    match rt.write_all(&out[..n]) {
        Ok(()) => Ok(()),
        Err(e) => eprintln!(rt; "panel: cannot write the answer: {e}"),
    }
}

// Checks in the rooms of the small program.
fn judge(rt: &(impl Print + Eprint), document: &[u8], tables: &[u8]) -> io::Result<()> {
    let mut elements = [0u32; 4 * program_answer::ELEMENTS];
    let mut list = [0u32; WIDTH * program_answer::FINDINGS];
    let mut out = [0u8; program_answer::TEXT];
    print(rt, document, tables, &mut elements, &mut list, &mut out)
}

fn read_document(
    rt: &(impl Print + Eprint + Input),
    tables: &[u8],
    room: &mut [u8],
) -> io::Result<()> {
    match program_answer::read(&mut rt.reader(), room) {
        Ok(n) => judge(rt, &room[..n], tables),
        Err(e) => eprintln!(rt; "panel: cannot read the document: {e}"),
    }
}

// One byte more than the limit is read, so that a longer document is seen.
fn with_tables(rt: &(impl Print + Eprint + Input), tables: &[u8]) -> io::Result<()> {
    let mut room = [0u8; program_answer::LIMIT + 1];
    read_document(rt, tables, &mut room)
}

fn read_tables(rt: &(impl Print + Eprint + Input + Files), room: &mut [u8]) -> io::Result<()> {
    let mut file = match fs::open(rt, "tables.txt") {
        Ok(file) => file,
        Err(e) => return eprintln!(rt; "panel: cannot open tables.txt: {e}"),
    };
    let got = program_answer::read(&mut file, room);
    drop(file);
    match got {
        Ok(n) => with_tables(rt, &room[..n]),
        Err(e) => eprintln!(rt; "panel: cannot read tables.txt: {e}"),
    }
}

fn main(rt: HostRuntime) -> io::Result<()> {
    let mut room = [0u8; program_answer::LIMIT + 1];
    read_tables(&rt, &mut room)
}
