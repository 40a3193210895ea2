// The small program's answer: the check within its rooms, and the text that is printed of it.
#![tactic(auto)]

#[cfg(test)]
mod tests;

ghost use Rattle.std.specs.Prelude.{◌+◌, ◌*◌, ◌≡◌, ◌<◌, ◌≤◌, length};
ghost use Rattle.program_texts.specs.Texts.{Put};
ghost use Rattle.program_answer.specs.Small.{AnswerLeft, small_of, printed, Prints};

pub use program_input::read;
use refusals::{Reason, Refusal};
use xml_reader::Reader;

// The most bytes of a document, and of tables.
pub const LIMIT: usize = 65536;

// The rooms of the small program: elements, findings, and bytes for the text of as many.
pub const ELEMENTS: usize = 1024;

pub const FINDINGS: usize = 1024;

pub const TEXT: usize = 65536;

// The check with as many scratch bytes as it asks for, of a document and tables within the limit.
fn answer(
    document: &[u8],
    tables: &[u8],
    elements: &mut [u32],
    list: &mut [u32],
) -> Result<usize, Refusal>
    ensures { AnswerLeft (small_of document.now tables.now elements.old list.old) result elements.new list.new }
{
    if LIMIT < document.len() {
        return Err(Refusal {
            reason: Reason::LongDocument,
            value: LIMIT,
        });
    }
    if LIMIT < tables.len() {
        return Err(Refusal {
            reason: Reason::LongTables,
            value: LIMIT,
        });
    }
    let mut scratch = [0u8; Reader::SCRATCH];
    judge_check::check(document, tables, &mut scratch, elements, list)
}

// Puts the text of an answer, with the findings of a list, into the front of a room: its length.
fn put_answer(answer: Result<usize, Refusal>, list: &[u32], out: &mut [u8]) -> usize
    requires { 64 + 21 * length list.now ≤ length out.old }
    ensures { Put out.old 0 (printed answer list.now) result out.new }
{
    match answer {
        Ok(n) => program_texts::put_list(out, list, n),
        Err(refusal) => program_texts::put_refusal(out, refusal.reason.number(), refusal.value),
    }
}

// Puts the same text into the front of a room of any length: its length; or 0, where the room has less than 64 bytes and 21 for each number of the list, and stays as it was.
pub fn print(answer: Result<usize, Refusal>, list: &[u32], out: &mut [u8]) -> usize
    ensures { (64 + 21 * length list.now ≤ length out.old → Put out.old 0 (printed answer list.now) result out.new) × (length out.old < 64 + 21 * length list.now → (result ≡ 0) × (out.new ≡ out.old)) }
{
    if out.len() < 64 || (out.len() - 64) / 21 < list.len() {
        return 0;
    }
    put_answer(answer, list, out)
}

// Answers, and puts the text of the answer into the front of a room: its length.
pub fn run(
    document: &[u8],
    tables: &[u8],
    elements: &mut [u32],
    list: &mut [u32],
    out: &mut [u8],
) -> usize
    requires { 64 + 21 * length list.old ≤ length out.old }
    ensures { Prints (small_of document.now tables.now elements.old list.old) result elements.new list.new out.old out.new }
{
    let given = answer(document, tables, elements, list);
    put_answer(given, list, out)
}
