// Checks documents under two tables files each, merges the two lists, and prints the answer, which is that of the check under the joined file.
#![tactic(auto)]

ghost use Rattle.std.specs.Prelude.{◌+◌, ◌*◌, ◌≤◌, length, IfOk};

use list_findings::{Finding, WIDTH};
use refusals::Refusal;
use std::rt::Files;
use std::{fs, io};
use xml_reader::Reader;

// Checks under both files and merges, in the rooms that are lent and one for the records of both: 256 findings under each file.
fn check_both(
    document: &[u8],
    one: &[u8],
    other: &[u8],
    scratch: &mut [u8],
    elements: &mut [u32],
    list: &mut [u32],
    merged: &mut [u32],
) -> Result<usize, Refusal> {
    let mut records = [Finding::NONE; 512];
    judge_both::check_both(
        document,
        one,
        other,
        scratch,
        elements,
        list,
        &mut records,
        merged,
    )
}

// Prints an answer, with the findings of a list.
fn print(
    rt: &impl Print,
    answer: Result<usize, Refusal>,
    list: &[u32],
    out: &mut [u8],
) -> io::Result<()>
    requires { 64 + 21 * length list.now ≤ length out.old }
{
    match answer {
        Ok(n) => {
            let k = program_texts::put_list(out, list, n);
            rt.write_all(&out[..k])
        }
        Err(refusal) => {
            let k = program_texts::put_refusal(out, refusal.reason.number(), refusal.value);
            rt.write_all(&out[..k])
        }
    }
}

// Checks and prints, with room for 256 findings in each list.
fn judge(rt: &impl Print, document: &[u8], one: &[u8], other: &[u8]) -> io::Result<()> {
    let mut scratch = [0u8; Reader::SCRATCH];
    let mut elements = [0u32; 4 * program_answer::ELEMENTS];
    let mut list = [0u32; WIDTH * 256];
    let mut merged = [0u32; WIDTH * 256];
    let mut out = [0u8; 16384];
    let answer = check_both(
        document,
        one,
        other,
        &mut scratch,
        &mut elements,
        &mut list,
        &mut merged,
    );
    print(rt, answer, &merged, &mut out)
}

// How many bytes of a file were read into the room; none where it cannot be read, which is told.
fn read(rt: &(impl Files + Eprint), name: &str, room: &mut [u8]) -> io::Result<usize>
    ensures { IfOk result (λ n. n ≤ length room.new) }
{
    let mut file = match fs::open(rt, name) {
        Ok(file) => file,
        Err(e) => {
            eprintln!(rt; "pairs: cannot open a file: {e}")?;
            return Ok(0);
        }
    };
    match program_answer::read(&mut file, room) {
        Ok(n) => Ok(n),
        Err(e) => {
            eprintln!(rt; "pairs: cannot read a file: {e}")?;
            Ok(0)
        }
    }
}

// A document and two tables files of at most 8,192 bytes each.
fn pair(
    rt: &(impl Files + Print + Eprint),
    document: &str,
    one: &str,
    other: &str,
) -> io::Result<()> {
    let mut a = [0u8; 8192];
    let mut b = [0u8; 8192];
    let mut c = [0u8; 8192];
    let n = read(rt, document, &mut a)?;
    let m = read(rt, one, &mut b)?;
    let k = read(rt, other, &mut c)?;
    judge(rt, &a[..n], &b[..m], &c[..k])
}

fn main(rt: HostRuntime) -> io::Result<()> {
    pair(&rt, "request.xml", "request.one", "request.other")?;
    pair(&rt, "document.xml", "document.one", "document.other")?;
    pair(&rt, "version.xml", "version.one", "version.other")?;
    pair(&rt, "key.xml", "key.one", "key.other")?;
    pair(&rt, "other.xml", "other.one", "other.other")?;
    pair(&rt, "usa.xml", "usa.one", "usa.other")?;
    pair(&rt, "irl.xml", "irl.one", "irl.other")?;
    pair(&rt, "none.xml", "none.one", "none.other")
}
