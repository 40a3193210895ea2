// Procedures 14 to 18: the organisations of a draft.
#![tactic(auto)]

ghost use Rattle.std.specs.Prelude.{◌≡◌};
ghost use Rattle.judge_draft.specs.declared.Demand.TheVariants.{NameRow};
ghost use Rattle.judge_draft.specs.Drafts.{lent};
ghost use Rattle.judge_draft.specs.Demands.{demand_if};
ghost use Rattle.judge_below.specs.Chosen.{one, the, only_kid};
ghost use Rattle.judge_organisations.specs.Organisations.{organisation_in, breaks14, is_organisation, right_ids, breaks15, has_extension, duns_id, duns_holds, breaks16, is_said, is_one_name, breaks17, demand18};

use judge_below::{Wanted, how_many, is_only_kid, only, only_kid};
use judge_draft::{Demand, Draft};
use judge_paths::role;
use judge_tests::Test;

// Whether element n has one child of this role.
pub fn has_one(draft: Draft, n: usize, role: u32) -> bool
    ensures { result ≡ one (only_kid (lent draft.entry) n role) }
{
    match only_kid(draft, n, role) {
        None => false,
        Some(_) => true,
    }
}

// The role of the organisation in an entity of this role.
fn organisation_in(entity: u32) -> u32
    ensures { result ≡ organisation_in entity }
{
    if entity == role::REQUEST_ENTITY {
        return role::REQUEST_LABELER;
    }
    if entity == role::ENTITY_1 {
        return role::LABELER;
    }
    if entity == role::ENTITY_2 {
        return role::REGISTRANT;
    }
    if entity == role::ENTITY_3 {
        return role::ESTABLISHMENT;
    }
    if entity == role::ENTITY_4 {
        return role::AGENT;
    }
    role::UNKNOWN
}

// Whether element n breaks 14.
pub fn breaks_14(draft: Draft, n: usize) -> bool
    ensures { result ≡ breaks14 (lent draft.entry) n }
{
    let organisation = organisation_in(draft.role_at(n));
    if role::UNLISTED < organisation {
        return !has_one(draft, n, organisation);
    }
    false
}

// Whether element n is an organisation that 15 to 18 judge.
fn is_organisation(draft: Draft, n: usize) -> bool
    ensures { result ≡ is_organisation (lent draft.entry) n }
{
    let is = draft.role_at(n);
    if is == role::REQUEST_LABELER {
        return true;
    }
    if is == role::REGISTRANT {
        return true;
    }
    if is == role::ESTABLISHMENT {
        return true;
    }
    is == role::AGENT
}

// Whether organisation n has as many ids as 15 asks for.
fn right_ids(draft: Draft, n: usize) -> bool
    ensures { result ≡ right_ids (lent draft.entry) n }
{
    let wanted = Wanted {
        role: role::ORGANISATION_ID,
        levels: 1,
        test: Test::Any,
    };
    let ids = how_many(draft, wanted, n);
    let is = draft.role_at(n);
    if is == role::REQUEST_LABELER {
        return ids == 2;
    }
    if is == role::ESTABLISHMENT {
        if 1 <= ids {
            return ids <= 2;
        }
        return false;
    }
    ids == 1
}

// Whether element n breaks 15.
pub fn breaks_15(draft: Draft, n: usize) -> bool
    ensures { result ≡ breaks15 (lent draft.entry) n }
{
    if is_organisation(draft, n) {
        return !right_ids(draft, n);
    }
    false
}

// Whether element k has an extension.
pub fn has_extension(draft: Draft, k: usize) -> bool
    ensures { result ≡ has_extension (lent draft.entry) k }
{
    !draft.attribute_is_empty(k, b"extension")
}

// The one id of organisation n with the DUNS root.
fn duns_id(draft: Draft, n: usize) -> Option<usize>
    ensures { result ≡ duns_id (lent draft.entry) n }
{
    let wanted = Wanted {
        role: role::ORGANISATION_ID,
        levels: 1,
        test: Test::DunsRoot,
    };
    only(draft, wanted, n)
}

// Whether 16 holds of organisation n.
fn duns_holds(draft: Draft, n: usize) -> bool
    ensures { result ≡ duns_holds (lent draft.entry) n }
{
    let Some(k) = duns_id(draft, n) else {
        return false;
    };
    has_extension(draft, k)
}

// Whether element n breaks 16.
pub fn breaks_16(draft: Draft, n: usize) -> bool
    ensures { result ≡ breaks16 (lent draft.entry) n }
{
    if is_organisation(draft, n) {
        return !duns_holds(draft, n);
    }
    false
}

// Whether element k has a text.
pub fn is_said(draft: Draft, k: usize) -> bool
    ensures { result ≡ is_said (lent draft.entry) k }
{
    !draft.text_is_empty(k)
}

// Whether element n is the one name of an organisation that is judged.
fn is_one_name(draft: Draft, n: usize) -> bool
    ensures { result ≡ is_one_name (lent draft.entry) n }
{
    if draft.is_role(n, role::ORGANISATION_NAME) {
        let holder = draft.parent(n);
        if is_organisation(draft, holder) {
            return is_only_kid(draft, holder, role::ORGANISATION_NAME, n);
        }
        return false;
    }
    false
}

// Whether element n breaks 17: a wrong number is found at the organisation, an empty name at the name.
// Few elements are names, and few names are empty: whose name it is, the dearest question, is asked last.
pub fn breaks_17(draft: Draft, n: usize) -> bool
    ensures { result ≡ breaks17 (lent draft.entry) n }
{
    if is_organisation(draft, n) {
        return !has_one(draft, n, role::ORGANISATION_NAME);
    }
    if !draft.is_role(n, role::ORGANISATION_NAME) {
        return false;
    }
    if is_said(draft, n) {
        return false;
    }
    is_one_name(draft, n)
}

// What 18 demands for the name n of organisation holder, where 17 holds: the row of the register with the extension of its one id and this name.
fn row_of(draft: Draft, holder: usize, n: usize) -> Demand
    ensures { result ≡ demand_if (duns_holds (lent draft.entry) holder) (NameRow (the (duns_id (lent draft.entry) holder)) n) }
{
    let Some(k) = duns_id(draft, holder) else {
        return Demand::Nothing;
    };
    if has_extension(draft, k) {
        return Demand::NameRow(k, n);
    }
    Demand::Nothing
}

// What 18 demands of element n. Of the one name of its organisation 17 asks that it is not empty.
pub fn demand_18(draft: Draft, n: usize) -> Demand
    ensures { result ≡ demand18 (lent draft.entry) n }
{
    if is_one_name(draft, n) {
        if is_said(draft, n) {
            let holder = draft.parent(n);
            return row_of(draft, holder, n);
        }
        return Demand::Nothing;
    }
    Demand::Nothing
}
