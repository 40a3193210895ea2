// Procedures 31, 32, 35 and 36: the registrant, its establishments and their agents.
#![tactic(auto)]

ghost use Rattle.std.specs.Prelude.{◌≡◌};
ghost use Rattle.judge_draft.specs.Drafts.{lent};
ghost use Rattle.judge_registrations.specs.Registrations.{breaks31, breaks32, in_usa, breaks35, breaks36};

use judge_addresses::{address_holds, is_usa};
use judge_below::{Wanted, none, only, only_kid};
use judge_draft::Draft;
use judge_paths::role;
use judge_tests::Test;

// Whether 31 is broken at element n.
pub fn breaks_31(draft: Draft, n: usize) -> bool
    ensures { result ≡ breaks31 (lent draft.entry) n }
{
    if !draft.is_role(n, role::LABELER) {
        return false;
    }
    let registrant = Wanted {
        role: role::REGISTRANT,
        levels: 2,
        test: Test::Any,
    };
    match only(draft, registrant, n) {
        None => true,
        Some(_) => false,
    }
}

// Whether 32 is broken at element n.
pub fn breaks_32(draft: Draft, n: usize) -> bool
    ensures { result ≡ breaks32 (lent draft.entry) n }
{
    if !draft.is_role(n, role::REGISTRANT) {
        return false;
    }
    let establishment = Wanted {
        role: role::ESTABLISHMENT,
        levels: 2,
        test: Test::Any,
    };
    none(draft, establishment, n)
}

// Whether the country of establishment n is the USA.
fn in_usa(draft: Draft, n: usize) -> bool
    ensures { result ≡ in_usa (lent draft.entry) n }
{
    let Some(a) = only_kid(draft, n, role::ADDR) else {
        return false;
    };
    is_usa(draft, a)
}

// Whether 35 is broken at element n.
// The country mostly decides; whether 24 holds is the dearest question and asked last.
pub fn breaks_35(draft: Draft, n: usize) -> bool
    ensures { result ≡ breaks35 (lent draft.entry) n }
{
    if !draft.is_role(n, role::ESTABLISHMENT) {
        return false;
    }
    if in_usa(draft, n) {
        return false;
    }
    let agent = Wanted {
        role: role::OPERATION_CODE,
        levels: 4,
        test: Test::Agent,
    };
    if !none(draft, agent, n) {
        return false;
    }
    address_holds(draft, n)
}

// Whether 36 is broken at element n.
// The country and the codes mostly decide; whether 24 holds is the dearest question and asked last.
pub fn breaks_36(draft: Draft, n: usize) -> bool
    ensures { result ≡ breaks36 (lent draft.entry) n }
{
    if !draft.is_role(n, role::ESTABLISHMENT) {
        return false;
    }
    if !in_usa(draft, n) {
        return false;
    }
    let agent = Wanted {
        role: role::OPERATION_CODE,
        levels: 4,
        test: Test::Agent,
    };
    if !none(draft, agent, n) {
        return address_holds(draft, n);
    }
    let import = Wanted {
        role: role::OPERATION_CODE,
        levels: 4,
        test: Test::Import,
    };
    if !none(draft, import, n) {
        return address_holds(draft, n);
    }
    false
}
