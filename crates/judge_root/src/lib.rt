// Procedures 5 to 13: the children of the root, each of which there is one of, and the labeler.
#![tactic(auto)]

ghost use Rattle.std.specs.Prelude.{◌≡◌, eqb, length};
ghost use Rattle.judge_draft.specs.Drafts.{lent};
ghost use Rattle.judge_tests.specs.declared.Test.TheVariants.{Any};
ghost use Rattle.judge_below.specs.Chosen.{chosen, wanted};
ghost use Rattle.judge_header.specs.Header.{has_property};
ghost use Rattle.judge_root.specs.Root.{one_of_root, breaks5, demand6, breaks7, demand8, breaks9, breaks10, breaks11, demand12, labelers, breaks13};

use judge_below::{Wanted, how_many};
use judge_draft::{Demand, Draft};
use judge_header::{
    Header, Property, has_property, has_type, id_holds, is_one, set_holds, the, version_holds,
};
use judge_paths::role;
use judge_tests::Test;

// Whether element n breaks that the root has one child of this role, with this property: a wrong number is found at the root, any other fault at
// the child.
fn one_of_root(draft: Draft, found: Option<usize>, role: u32, property: Property, n: usize) -> bool
    ensures { result ≡ one_of_root (lent draft.entry) found role (has_property (lent draft.entry) property) n }
{
    let is = draft.role_at(n);
    if is == role::ROOT {
        return !is_one(found);
    }
    if is == role {
        if is_one(found) {
            return !has_property(draft, property, n);
        }
        return false;
    }
    false
}

// Whether 5 is broken at element n.
pub fn breaks_5(draft: Draft, header: Header, n: usize) -> bool
    ensures { result ≡ breaks5 (lent draft.entry) header n }
{
    let id = header.id;
    one_of_root(draft, id, role::ID, Property::GuidRoot, n)
}

// What 6 demands of element n.
pub fn demand_6(draft: Draft, header: Header, n: usize) -> Demand
    ensures { result ≡ demand6 (lent draft.entry) header n }
{
    if draft.is_role(n, role::ID) {
        if id_holds(draft, header) {
            return Demand::NoDocument(n);
        }
        return Demand::Nothing;
    }
    Demand::Nothing
}

// Whether 7 is broken at element n.
pub fn breaks_7(draft: Draft, header: Header, n: usize) -> bool
    ensures { result ≡ breaks7 (lent draft.entry) header n }
{
    let code = header.code;
    one_of_root(draft, code, role::CODE, Property::OfType, n)
}

// What 8 demands of element n.
pub fn demand_8(draft: Draft, header: Header, n: usize) -> Demand
    ensures { result ≡ demand8 (lent draft.entry) header n }
{
    if draft.is_role(n, role::CODE) {
        if has_type(draft, header) {
            return Demand::CodeRow(n);
        }
        return Demand::Nothing;
    }
    Demand::Nothing
}

// Whether 9 is broken at element n.
pub fn breaks_9(draft: Draft, header: Header, n: usize) -> bool
    ensures { result ≡ breaks9 (lent draft.entry) header n }
{
    let time = header.time;
    one_of_root(draft, time, role::EFFECTIVE_TIME, Property::Day, n)
}

// Whether 10 is broken at element n.
pub fn breaks_10(draft: Draft, header: Header, n: usize) -> bool
    ensures { result ≡ breaks10 (lent draft.entry) header n }
{
    let set = header.set;
    one_of_root(draft, set, role::SET_ID, Property::GuidRoot, n)
}

// Whether 11 is broken at element n.
pub fn breaks_11(draft: Draft, header: Header, n: usize) -> bool
    ensures { result ≡ breaks11 (lent draft.entry) header n }
{
    let version = header.version;
    one_of_root(draft, version, role::VERSION_NUMBER, Property::Version, n)
}

// What 12 demands of element n.
pub fn demand_12(draft: Draft, header: Header, n: usize) -> Demand
    ensures { result ≡ demand12 (lent draft.entry) header n }
{
    let set = header.set;
    if draft.is_role(n, role::VERSION_NUMBER) {
        if set_holds(draft, header) {
            if version_holds(draft, header) {
                return Demand::NoVersion(the(set), n);
            }
            return Demand::Nothing;
        }
        return Demand::Nothing;
    }
    Demand::Nothing
}

// How many elements of this role stand three levels below element n.
fn three_below(draft: Draft, role: u32, n: usize) -> usize
    ensures { result ≡ length (chosen (lent draft.entry) (wanted role 3 Any) n) }
{
    let wanted = Wanted {
        role: role,
        levels: 3,
        test: Test::Any,
    };
    how_many(draft, wanted, n)
}

// Whether there is one labeler, of a request or of a registration, three levels below element n.
fn has_one_labeler(draft: Draft, n: usize) -> bool
    ensures { result ≡ eqb (labelers (lent draft.entry) n) 1 }
{
    let requesting = three_below(draft, role::REQUEST_LABELER, n);
    let registering = three_below(draft, role::LABELER, n);
    if requesting == 0 {
        return registering == 1;
    }
    if requesting == 1 {
        return registering == 0;
    }
    false
}

// Whether 13 is broken at element n.
pub fn breaks_13(draft: Draft, header: Header, n: usize) -> bool
    ensures { result ≡ breaks13 (lent draft.entry) header n }
{
    if draft.is_role(n, role::ROOT) {
        if has_type(draft, header) {
            return !has_one_labeler(draft, n);
        }
        return false;
    }
    false
}
