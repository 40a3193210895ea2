// The tests that an element which a procedure counts is put to.
#![tactic(auto)]

ghost use Rattle.std.specs.Prelude.{◌≡◌};
ghost use Rattle.judge_draft.specs.Drafts.{lent};
ghost use Rattle.judge_tests.specs.Passing.{passes};

use judge_draft::Draft;

// What an element that is looked for passes: anything, the root of its id, the start of its telecom value, its operation code, no text.
#[derive(Clone, Copy)]
pub enum Test {
    Any,
    DunsRoot,
    LabelerRoot,
    Telephone,
    Mail,
    Agent,
    Import,
    Empty,
}

// Whether element k passes the test.
pub fn is_passed(draft: Draft, test: Test, k: usize) -> bool
    ensures { result ≡ passes (lent draft.entry) test k }
{
    match test {
        Test::Any => true,
        Test::DunsRoot => draft.attribute_is(k, b"root", b"1.3.6.1.4.1.519.1"),
        Test::LabelerRoot => draft.attribute_is(k, b"root", b"2.16.840.1.113883.6.69"),
        Test::Telephone => draft.attribute_begins(k, b"value", b"tel:"),
        Test::Mail => draft.attribute_begins(k, b"value", b"mailto:"),
        Test::Agent => draft.attribute_is(k, b"code", b"C73330"),
        Test::Import => draft.attribute_is(k, b"code", b"C73599"),
        Test::Empty => draft.text_is_empty(k),
    }
}
