// Procedures 23 and 26 to 30: the contacts and telecoms of a draft.
#![tactic(auto)]

ghost use Rattle.std.specs.Prelude.{◌≡◌};
ghost use Rattle.judge_draft.specs.Drafts.{lent};
ghost use Rattle.judge_contacts.specs.Contacts.{has_contact, breaks23, has_telecoms, breaks26, breaks27, breaks28, breaks29, person_holds, breaks30};

use judge_addresses::one_said;
use judge_below::{Wanted, how_many, is_only_kid, none, only_kid};
use judge_draft::{Draft, Form};
use judge_organisations::has_one;
use judge_paths::role;
use judge_tests::Test;

// Whether 23 and 30 judge element n.
fn has_contact(draft: Draft, n: usize) -> bool
    ensures { result ≡ has_contact (lent draft.entry) n }
{
    match draft.role_at(n) {
        role::REGISTRANT | role::ESTABLISHMENT | role::REQUEST_LABELER => true,
        _ => false,
    }
}

// Whether 23 is broken at element n.
pub fn breaks_23(draft: Draft, n: usize) -> bool
    ensures { result ≡ breaks23 (lent draft.entry) n }
{
    if !has_contact(draft, n) {
        return false;
    }
    !has_one(draft, n, role::CONTACT_PARTY)
}

// Whether 26 to 28 judge element n.
fn has_telecoms(draft: Draft, n: usize) -> bool
    ensures { result ≡ has_telecoms (lent draft.entry) n }
{
    match draft.role_at(n) {
        role::AGENT | role::CONTACT_PARTY => true,
        _ => false,
    }
}

// Whether 26 is broken at element n.
pub fn breaks_26(draft: Draft, n: usize) -> bool
    ensures { result ≡ breaks26 (lent draft.entry) n }
{
    if !has_telecoms(draft, n) {
        return false;
    }
    let telecom = Wanted {
        role: role::TELECOM,
        levels: 1,
        test: Test::Any,
    };
    how_many(draft, telecom, n) < 2
}

// Whether 27 is broken at element n.
pub fn breaks_27(draft: Draft, n: usize) -> bool
    ensures { result ≡ breaks27 (lent draft.entry) n }
{
    if !has_telecoms(draft, n) {
        return false;
    }
    let telephone = Wanted {
        role: role::TELECOM,
        levels: 1,
        test: Test::Telephone,
    };
    none(draft, telephone, n)
}

// Whether 28 is broken at element n.
pub fn breaks_28(draft: Draft, n: usize) -> bool
    ensures { result ≡ breaks28 (lent draft.entry) n }
{
    if !has_telecoms(draft, n) {
        return false;
    }
    let mail = Wanted {
        role: role::TELECOM,
        levels: 1,
        test: Test::Mail,
    };
    none(draft, mail, n)
}

// Whether 29 is broken at element n.
pub fn breaks_29(draft: Draft, n: usize) -> bool
    ensures { result ≡ breaks29 (lent draft.entry) n }
{
    if !draft.is_role(n, role::TELECOM) {
        return false;
    }
    if !draft.attribute_begins(n, b"value", b"tel:") {
        return false;
    }
    !draft.attribute_has(n, b"value", Form::Telephone)
}

// Whether element n has one contactPerson, and that one name with a text.
fn person_holds(draft: Draft, n: usize) -> bool
    ensures { result ≡ person_holds (lent draft.entry) n }
{
    let Some(k) = only_kid(draft, n, role::CONTACT_PERSON) else {
        return false;
    };
    one_said(draft, k, role::PERSON_NAME)
}

// Whether 30 is broken at element n.
// The person mostly decides, so whether the party is the only one is asked last.
pub fn breaks_30(draft: Draft, n: usize) -> bool
    ensures { result ≡ breaks30 (lent draft.entry) n }
{
    if !draft.is_role(n, role::CONTACT_PARTY) {
        return false;
    }
    let holder = draft.parent(n);
    if !has_contact(draft, holder) {
        return false;
    }
    if person_holds(draft, n) {
        return false;
    }
    is_only_kid(draft, holder, role::CONTACT_PARTY, n)
}
