// Procedures 24 and 25: the addresses of a draft.
#![tactic(auto)]

ghost use Rattle.std.specs.Prelude.{◌≡◌};
ghost use Rattle.text_scan.specs.Choice.{◌and◌};
ghost use Rattle.judge_paths.specs.Roles.{State, PostalCode};
ghost use Rattle.judge_draft.specs.Drafts.{lent};
ghost use Rattle.judge_addresses.specs.Addresses.{one_said, lines_said, is_address, address_holds, breaks24, is_usa, breaks25};

use judge_below::{Wanted, is_only_kid, none, only_kid};
use judge_draft::Draft;
use judge_organisations::is_said;
use judge_paths::role;
use judge_tests::Test;

// Whether element n has one child of this role, and that has a text.
pub fn one_said(draft: Draft, n: usize, role: u32) -> bool
    ensures { result ≡ one_said (lent draft.entry) n role }
{
    let Some(k) = only_kid(draft, n, role) else {
        return false;
    };
    is_said(draft, k)
}

// Whether address a has lines, and each has a text.
fn lines_said(draft: Draft, a: usize) -> bool
    ensures { result ≡ lines_said (lent draft.entry) a }
{
    let line = Wanted {
        role: role::STREET_ADDRESS_LINE,
        levels: 1,
        test: Test::Any,
    };
    if none(draft, line, a) {
        return false;
    }
    let empty = Wanted {
        role: role::STREET_ADDRESS_LINE,
        levels: 1,
        test: Test::Empty,
    };
    none(draft, empty, a)
}

// Whether address a has what 24 demands of it.
fn is_address(draft: Draft, a: usize) -> bool
    ensures { result ≡ is_address (lent draft.entry) a }
{
    if !one_said(draft, a, role::CITY) {
        return false;
    }
    if !one_said(draft, a, role::COUNTRY) {
        return false;
    }
    lines_said(draft, a)
}

// Whether 24 holds of element n, which is a contactParty or an establishment.
pub fn address_holds(draft: Draft, n: usize) -> bool
    ensures { result ≡ address_holds (lent draft.entry) n }
{
    let Some(a) = only_kid(draft, n, role::ADDR) else {
        return false;
    };
    is_address(draft, a)
}

// Whether 24 is broken at element n.
pub fn breaks_24(draft: Draft, n: usize) -> bool
    ensures { result ≡ breaks24 (lent draft.entry) n }
{
    match draft.role_at(n) {
        role::ESTABLISHMENT | role::CONTACT_PARTY => !address_holds(draft, n),
        _ => false,
    }
}

// Whether the country of address a is the USA.
pub fn is_usa(draft: Draft, a: usize) -> bool
    ensures { result ≡ is_usa (lent draft.entry) a }
{
    let Some(k) = only_kid(draft, a, role::COUNTRY) else {
        return false;
    };
    draft.text_is(k, b"USA")
}

// Whether address a has a state and a postal code, each with a text.
fn in_state(draft: Draft, a: usize) -> bool
    ensures { result ≡ (one_said (lent draft.entry) a State and one_said (lent draft.entry) a PostalCode) }
{
    if one_said(draft, a, role::STATE) {
        return one_said(draft, a, role::POSTAL_CODE);
    }
    false
}

// Whether 25 is broken at element n.
// The country and the state mostly decide; whether 24 holds is the dearest question and seldom needed, so it is asked last.
pub fn breaks_25(draft: Draft, n: usize) -> bool
    ensures { result ≡ breaks25 (lent draft.entry) n }
{
    if !draft.is_role(n, role::ADDR) {
        return false;
    }
    if !is_usa(draft, n) {
        return false;
    }
    if in_state(draft, n) {
        return false;
    }
    let holder = draft.parent(n);
    if !is_only_kid(draft, holder, role::ADDR, n) {
        return false;
    }
    is_address(draft, n)
}
