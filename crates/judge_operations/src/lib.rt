// Procedures 33, 34, 37 and 38: the operation codes of an entity.
#![tactic(auto)]

ghost use Rattle.std.specs.Prelude.{◌≡◌};
ghost use Rattle.judge_draft.specs.Drafts.{lent};
ghost use Rattle.judge_operations.specs.Operations.{of_nci, is_agency, breaks33, demand34, has_establishment, breaks37, breaks38};
ghost use Rattle.judge_operations.specs.Met.{entity_at};

use judge_below::{Wanted, ancestor, none, only};
use judge_draft::{Demand, Draft};
use judge_paths::role;
use judge_tests::Test;

// Whether code k is of the NCI system.
fn of_nci(draft: Draft, k: usize) -> bool
    ensures { result ≡ of_nci (lent draft.entry) k }
{
    draft.attribute_is(k, b"codeSystem", b"2.16.840.1.113883.3.26.1.1")
}

// Whether code k is of the NCI system, and agent or import.
fn is_agency(draft: Draft, k: usize) -> bool
    ensures { result ≡ is_agency (lent draft.entry) k }
{
    if !of_nci(draft, k) {
        return false;
    }
    if draft.attribute_is(k, b"code", b"C73330") {
        return true;
    }
    draft.attribute_is(k, b"code", b"C73599")
}

// Whether 33 is broken at element n.
pub fn breaks_33(draft: Draft, n: usize) -> bool
    ensures { result ≡ breaks33 (lent draft.entry) n }
{
    if !draft.is_role(n, role::ENTITY_4) {
        return false;
    }
    let operation = Wanted {
        role: role::OPERATION_CODE,
        levels: 3,
        test: Test::Any,
    };
    let Some(k) = only(draft, operation, n) else {
        return true;
    };
    !is_agency(draft, k)
}

// What 34 demands of element n.
pub fn demand_34(draft: Draft, n: usize) -> Demand
    ensures { result ≡ demand34 (lent draft.entry) n }
{
    if draft.is_role(n, role::OPERATION_CODE) {
        return Demand::CodeRow(n);
    }
    Demand::Nothing
}

// Whether element n is the entity of an establishment.
pub fn has_establishment(draft: Draft, n: usize) -> bool
    ensures { result ≡ has_establishment (lent draft.entry) n }
{
    if !draft.is_role(n, role::ENTITY_3) {
        return false;
    }
    let establishment = Wanted {
        role: role::ESTABLISHMENT,
        levels: 1,
        test: Test::Any,
    };
    !none(draft, establishment, n)
}

// The entity of level 3 that was met last: n, or the one before it.
pub fn entity_at(draft: Draft, last: usize, n: usize) -> usize
    ensures { result ≡ entity_at (lent draft.entry) last n }
{
    if draft.is_role(n, role::ENTITY_3) {
        return n;
    }
    last
}

// Whether element n is the entity of an establishment, where that was found out before of `last`.
pub fn held_at(draft: Draft, last: usize, held: bool, n: usize) -> bool
    requires { held ≡ has_establishment (lent draft) last }
    ensures { result ≡ has_establishment (lent draft.entry) n }
{
    if n == last {
        return held;
    }
    has_establishment(draft, n)
}

// Whether 37 is broken at element n.
pub fn breaks_37(draft: Draft, n: usize) -> bool
    ensures { result ≡ breaks37 (lent draft.entry) n }
{
    if !has_establishment(draft, n) {
        return false;
    }
    let operation = Wanted {
        role: role::OPERATION_CODE,
        levels: 3,
        test: Test::Any,
    };
    none(draft, operation, n)
}

// Whether 38 is broken at element n, where it was found out before whether `entity` is the entity of an establishment. In document order an
// operation code's entity is the one of level 3 that was met last.
pub fn breaks_38(draft: Draft, entity: usize, held: bool, n: usize) -> bool
    requires { held ≡ has_establishment (lent draft) entity }
    ensures { result ≡ breaks38 (lent draft.entry) n }
{
    if !draft.is_role(n, role::OPERATION_CODE) {
        return false;
    }
    if of_nci(draft, n) {
        return false;
    }
    let above = ancestor(draft, 3, n);
    held_at(draft, entity, held, above)
}
