// What programs in C and other languages call: the check, the merge, the value reader, and which interface this is. `host/benchdowel.h` declares them.
#![tactic(auto)]

ghost use Rattle.std.specs.Prelude.{◌≡◌};
ghost use Rattle.program_exports.specs.Numbers.{version, check_numbers, merge_numbers, shown_part, Checks, Merges, Reads};
ghost use Rattle.judge_check.specs.Check.{check_of};
ghost use Rattle.list_findings.specs.Findings.{flat};
ghost use Rattle.list_findings.specs.Merge.{merge_of};
ghost use Rattle.xml_value_reader.specs.Shown.{shown_of};

use list_findings::Finding;
use refusals::Refusal;
use xml_values::View;

// A refusal's number with what it returns; or 0 with how many findings there are.
#[repr(C)]
#[derive(Clone, Copy)]
pub struct Numbers {
    pub refusal: u32,
    pub value: usize,
}

// The bytes from `first` to `after`, of the document where `in_scratch` is 0, and of the scratch area where it is 1.
#[repr(C)]
#[derive(Clone, Copy)]
pub struct Part {
    pub in_scratch: u32,
    pub first: usize,
    pub after: usize,
}

// What is returned of the answer of a check and of a merge: the number of the refusal, or 0, and the value.
fn numbers_of(answer: Result<usize, Refusal>) -> Numbers
    ensures of_check { result ≡ check_numbers answer }
    ensures of_merge { result ≡ merge_numbers answer }
{
    match answer {
        Ok(count) => Numbers {
            refusal: 0,
            value: count,
        },
        Err(refusal) => Numbers {
            refusal: refusal.reason.number(),
            value: refusal.value,
        },
    }
}

fn part_of(view: View) -> Part
    ensures { result ≡ shown_part view }
{
    match view {
        View::Document(a, e) => Part {
            in_scratch: 0,
            first: a,
            after: e,
        },
        View::Scratch(n) => Part {
            in_scratch: 1,
            first: 0,
            after: n,
        },
    }
}

// The number of this interface: one more wherever a function takes, answers or leaves something else than before.
#[unsafe(no_mangle)]
pub extern "C" fn bd_version() -> u32
    ensures { result ≡ version }
{
    2
}

// Checks a document under the tables, and stores its findings from the front of the list.
#[unsafe(no_mangle)]
pub extern "C" fn bd_check(
    document: &[u8],
    tables: &[u8],
    scratch: &mut [u8],
    elements: &mut [u32],
    list: &mut [u32],
) -> Numbers
    ensures { Checks (check_of document.now tables.now scratch.old elements.old list.old) result scratch.new elements.new list.new }
{
    numbers_of(judge_check::check(document, tables, scratch, elements, list))
}

// Merges two lists of findings into a third, from its front.
#[unsafe(no_mangle)]
pub extern "C" fn bd_merge(a: &[Finding], b: &[Finding], out: &mut [u32]) -> Numbers
    ensures { Merges (merge_of (flat a.now) (flat b.now) out.old) result out.new }
{
    numbers_of(list_merge::merge(a, b, out))
}

// Reads the attribute `name`, or the text where the name is empty, of the element from `first` to `after`.
#[unsafe(no_mangle)]
pub extern "C" fn bd_value(
    document: &[u8],
    scratch: &mut [u8],
    first: usize,
    after: usize,
    name: &[u8],
) -> Part
    ensures { Reads (shown_of document.now scratch.old first after name.now) result scratch.new }
{
    part_of(xml_value_reader::fill(document, scratch, first, after, name))
}
