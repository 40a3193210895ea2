// The check: refusals 1 to 11, and the findings of a draft under the tables.
#![tactic(auto)]

ghost use Rattle.std.specs.Prelude.{◌≤◌, length};
ghost use Rattle.xml_reader.specs.Limits.{scratch_limit};
ghost use Rattle.xml_elements.specs.Elements.{elements_of};
ghost use Rattle.judge_input.specs.Input.{section_tables};
ghost use Rattle.judge_check.specs.Check.{after_reading, check_of, CheckLeft};

use judge_document::judge;
use judge_findings::Answer;
use judge_input::Sections;

// The findings under tables that were accepted: reads the document, and clears the scratch area once it is not refused.
fn check_under(
    document: &[u8],
    tables: &[u8],
    sections: Sections,
    scratch: &mut [u8],
    elements: &mut [u32],
    list: &mut [u32],
) -> Answer
    requires { scratch_limit ≤ length scratch.old }
    ensures { CheckLeft (after_reading document.now (section_tables tables.now sections) scratch.old elements.old list.old (elements_of document.now)) result scratch.new elements.new list.new }
{
    match xml_elements::read(document, elements) {
        Err(unread) => Err(unread),
        Ok(count) => {
            judge_input::clear(scratch);
            judge(document, &elements[0..4 * count], tables, sections, list)
        }
    }
}

// Checks a document under the tables: how many findings there are, stored from the front of the list, or a refusal.
pub fn check(
    document: &[u8],
    tables: &[u8],
    scratch: &mut [u8],
    elements: &mut [u32],
    list: &mut [u32],
) -> Answer
    ensures { CheckLeft (check_of document.now tables.now scratch.old elements.old list.old) result scratch.new elements.new list.new }
{
    match judge_input::admit(document, tables, scratch.len()) {
        Err(refusal) => Err(refusal),
        Ok(sections) => check_under(document, tables, sections, scratch, elements, list),
    }
}
