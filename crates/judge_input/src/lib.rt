// What is handed in, before the document is read: refusals 1 to 4, or where the rows of the tables stand; and the scratch area as an
// unrefused check leaves it.
#![tactic(auto)]

ghost use Rattle.std.specs.Prelude.{◌≡◌, ◌≤◌, length};
ghost use Rattle.xml_reader.specs.Limits.{scratch_limit};
ghost use Rattle.judge_input.specs.Input.{admitted};
ghost use Rattle.judge_input.specs.Scratch.{cleared};

use refusals::{Reason, Refusal};
use xml_reader::Reader;

// Where the rows of each section start, and how many there are.
#[derive(Clone, Copy)]
pub struct Sections {
    pub codes: usize,
    pub ncodes: usize,
    pub names: usize,
    pub nnames: usize,
    pub history: usize,
    pub nhistory: usize,
}

// Whether document, tables and a scratch area of so many bytes can be taken.
pub fn admit(document: &[u8], tables: &[u8], scratch: usize) -> Result<Sections, Refusal>
    ensures { result ≡ admitted document.now tables.now scratch }
{
    if Reader::DOCUMENT < document.len() {
        return Err(Refusal {
            reason: Reason::LongDocument,
            value: document.len(),
        });
    }
    if Reader::TABLES < tables.len() {
        return Err(Refusal {
            reason: Reason::LongTables,
            value: tables.len(),
        });
    }
    if scratch < Reader::SCRATCH {
        return Err(Refusal {
            reason: Reason::ShortScratch,
            value: Reader::SCRATCH,
        });
    }
    match table_file::accept(tables) {
        Err(refusal) => Err(Refusal {
            reason: Reason::BadTables,
            value: refusal.place,
        }),
        Ok(t) => Ok(Sections {
            codes: t.codes.first,
            ncodes: t.codes.count,
            names: t.names.first,
            nnames: t.names.count,
            history: t.history.first,
            nhistory: t.history.count,
        }),
    }
}

// Writes zeros over the front of the scratch area.
pub fn clear(scratch: &mut [u8])
    requires { scratch_limit ≤ length scratch.old }
    ensures { scratch.new ≡ cleared scratch.old }
{
    for k in 0..Reader::SCRATCH {
        scratch[k] = 0;
    }
}
