// Procedures 19 to 22: the labeler code, and the keys of the history.
#![tactic(auto)]

ghost use Rattle.std.specs.Prelude.{◌≡◌};
ghost use Rattle.text_scan.specs.Choice.{◌and◌};
ghost use Rattle.text_scan.specs.Bytes.{text};
ghost use Rattle.judge_paths.specs.Roles.{OrganisationId};
ghost use Rattle.judge_draft.specs.declared.Demand.TheVariants.{NoKeyElsewhere};
ghost use Rattle.judge_draft.specs.Drafts.{lent, parent, is, attribute_is};
ghost use Rattle.judge_draft.specs.Demands.{demand_if};
ghost use Rattle.judge_below.specs.Chosen.{chosen, wanted, only_one, the, is_the};
ghost use Rattle.judge_header.specs.Header.{set_holds};
ghost use Rattle.judge_organisations.specs.Organisations.{has_extension};
ghost use Rattle.judge_keys.specs.Keys.{labeler_id, labeler_holds, breaks19, is_labeler_id, is_registrant_id, breaks20, demand21, demand22};

use judge_below::{Wanted, is_only, only};
use judge_draft::{Demand, Draft, Form};
use judge_header::{Header, set_holds};
use judge_organisations::has_extension;
use judge_paths::{DocumentType, role};
use judge_tests::Test;

// The one id of labeler n with the root of labeler codes.
fn labeler_id(draft: Draft, n: usize) -> Option<usize>
    ensures { result ≡ labeler_id (lent draft.entry) n }
{
    let wanted = Wanted {
        role: role::ORGANISATION_ID,
        levels: 1,
        test: Test::LabelerRoot,
    };
    only(draft, wanted, n)
}

// Whether 19 holds of labeler n.
fn labeler_holds(draft: Draft, n: usize) -> bool
    ensures { result ≡ labeler_holds (lent draft.entry) n }
{
    let Some(k) = labeler_id(draft, n) else {
        return false;
    };
    has_extension(draft, k)
}

// Whether element n breaks 19.
pub fn breaks_19(draft: Draft, n: usize) -> bool
    ensures { result ≡ breaks19 (lent draft.entry) n }
{
    if draft.is_role(n, role::REQUEST_LABELER) {
        return !labeler_holds(draft, n);
    }
    false
}

// Whether element n is an id with this root, of an organisation of this role.
fn is_id_of(draft: Draft, organisation: u32, root: &[u8], n: usize) -> bool
    ensures { result ≡ is (lent draft.entry) OrganisationId n and is (lent draft.entry) organisation (parent (lent draft.entry) n) and attribute_is (lent draft.entry) (text "root") root.now n }
{
    if draft.is_role(n, role::ORGANISATION_ID) {
        let holder = draft.parent(n);
        if draft.is_role(holder, organisation) {
            return draft.attribute_is(n, b"root", root);
        }
        return false;
    }
    false
}

// Whether element n is the only id of its holder with this root, and has an extension.
fn is_only_id(draft: Draft, root: Test, n: usize) -> bool
    ensures { result ≡ is_the (only_one (chosen (lent draft.entry) (wanted OrganisationId 1 root) (parent (lent draft.entry) n))) n and has_extension (lent draft.entry) n }
{
    let holder = draft.parent(n);
    let wanted = Wanted {
        role: role::ORGANISATION_ID,
        levels: 1,
        test: root,
    };
    if is_only(draft, wanted, holder, n) {
        return has_extension(draft, n);
    }
    false
}

// Whether 19 holds of the labeler of a request that element n is in, and n is that id. Its own root, which mostly decides, is asked for first.
fn is_labeler_id(draft: Draft, n: usize) -> bool
    ensures { result ≡ is_labeler_id (lent draft.entry) n }
{
    if is_id_of(draft, role::REQUEST_LABELER, b"2.16.840.1.113883.6.69", n) {
        return is_only_id(draft, Test::LabelerRoot, n);
    }
    false
}

// Whether 16 holds of the registrant that element n is in, and n is that id.
fn is_registrant_id(draft: Draft, n: usize) -> bool
    ensures { result ≡ is_registrant_id (lent draft.entry) n }
{
    if is_id_of(draft, role::REGISTRANT, b"1.3.6.1.4.1.519.1", n) {
        return is_only_id(draft, Test::DunsRoot, n);
    }
    false
}

// Whether element n breaks 20.
pub fn breaks_20(draft: Draft, n: usize) -> bool
    ensures { result ≡ breaks20 (lent draft.entry) n }
{
    if is_labeler_id(draft, n) {
        return !draft.attribute_has(n, b"extension", Form::LabelerCode);
    }
    false
}

// What 21 demands of the key n of a document of this type: if 10 holds, no row of the history with this key under another set id.
fn key_elsewhere(draft: Draft, header: Header, kind: DocumentType, n: usize) -> Demand
    ensures { result ≡ demand_if (set_holds (lent draft.entry) header) (NoKeyElsewhere kind n (the header.set)) }
{
    let set = header.set;
    let Some(k) = set else {
        return Demand::Nothing;
    };
    if set_holds(draft, header) {
        return Demand::NoKeyElsewhere(kind, n, k);
    }
    Demand::Nothing
}

// What 21 demands of element n.
pub fn demand_21(draft: Draft, header: Header, n: usize) -> Demand
    ensures { result ≡ demand21 (lent draft.entry) header n }
{
    if is_labeler_id(draft, n) {
        return key_elsewhere(draft, header, DocumentType::Request, n);
    }
    if is_registrant_id(draft, n) {
        return key_elsewhere(draft, header, DocumentType::Registration, n);
    }
    Demand::Nothing
}

// What 22 demands of element n: no row of the history with this set id and another key.
pub fn demand_22(draft: Draft, header: Header, n: usize) -> Demand
    ensures { result ≡ demand22 (lent draft.entry) header n }
{
    if is_labeler_id(draft, n) {
        let set = header.set;
        let Some(k) = set else {
            return Demand::Nothing;
        };
        if set_holds(draft, header) {
            return Demand::NoOtherKey(n, k);
        }
        return Demand::Nothing;
    }
    Demand::Nothing
}
