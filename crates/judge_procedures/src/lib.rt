// What each procedure demands of an element, by its number.
#![tactic(auto)]

ghost use Rattle.std.specs.Prelude.{◌≡◌};
ghost use Rattle.judge_draft.specs.Drafts.{lent};
ghost use Rattle.judge_draft.specs.Demands.{broken_if};
ghost use Rattle.judge_listed.specs.Listed.{breaks3};
ghost use Rattle.judge_operations.specs.Operations.{has_establishment};
ghost use Rattle.judge_procedures.specs.Procedures.{listed_procedures, header_procedures, organisation_procedures, contact_procedures, registration_procedures, demand_in, demand_of};

use judge_draft::{Demand, Draft};
use judge_header::Header;

// What was found out before: the entity of level 3 that was met last, and whether it is that of an establishment; whether 3 is broken at the element
// that is asked.
#[derive(Clone, Copy)]
pub struct Met {
    pub entity: usize,
    pub held: bool,
    pub three: bool,
}

// Broken where a test says so.
fn broken_if(broken: bool) -> Demand
    ensures { result ≡ broken_if broken }
{
    if broken {
        return Demand::Broken;
    }
    Demand::Nothing
}

// 1 to 4: what is known. Whether 3 is broken was found out before.
fn of_listed(draft: Draft, header: Header, three: bool, p: u32, n: usize) -> Demand
    requires { three ≡ breaks3 (lent draft) n }
    ensures { result ≡ demand_in listed_procedures (lent draft.entry) header p n }
{
    match p {
        1 => broken_if(judge_listed::breaks_1(draft, n)),
        2 => broken_if(judge_listed::breaks_2(draft, n)),
        3 => broken_if(three),
        4 => broken_if(judge_listed::breaks_4(draft, three, n)),
        _ => Demand::Nothing,
    }
}

// 5 to 13: the header.
fn of_header(draft: Draft, header: Header, p: u32, n: usize) -> Demand
    ensures { result ≡ demand_in header_procedures (lent draft.entry) header p n }
{
    match p {
        5 => broken_if(judge_root::breaks_5(draft, header, n)),
        6 => judge_root::demand_6(draft, header, n),
        7 => broken_if(judge_root::breaks_7(draft, header, n)),
        8 => judge_root::demand_8(draft, header, n),
        9 => broken_if(judge_root::breaks_9(draft, header, n)),
        10 => broken_if(judge_root::breaks_10(draft, header, n)),
        11 => broken_if(judge_root::breaks_11(draft, header, n)),
        12 => judge_root::demand_12(draft, header, n),
        13 => broken_if(judge_root::breaks_13(draft, header, n)),
        _ => Demand::Nothing,
    }
}

// 14 to 22: organisations.
fn of_organisations(draft: Draft, header: Header, p: u32, n: usize) -> Demand
    ensures { result ≡ demand_in organisation_procedures (lent draft.entry) header p n }
{
    match p {
        14 => broken_if(judge_organisations::breaks_14(draft, n)),
        15 => broken_if(judge_organisations::breaks_15(draft, n)),
        16 => broken_if(judge_organisations::breaks_16(draft, n)),
        17 => broken_if(judge_organisations::breaks_17(draft, n)),
        18 => judge_organisations::demand_18(draft, n),
        19 => broken_if(judge_keys::breaks_19(draft, n)),
        20 => broken_if(judge_keys::breaks_20(draft, n)),
        21 => judge_keys::demand_21(draft, header, n),
        22 => judge_keys::demand_22(draft, header, n),
        _ => Demand::Nothing,
    }
}

// 23 to 30: contacts.
fn of_contacts(draft: Draft, header: Header, p: u32, n: usize) -> Demand
    ensures { result ≡ demand_in contact_procedures (lent draft.entry) header p n }
{
    match p {
        23 => broken_if(judge_contacts::breaks_23(draft, n)),
        24 => broken_if(judge_addresses::breaks_24(draft, n)),
        25 => broken_if(judge_addresses::breaks_25(draft, n)),
        26 => broken_if(judge_contacts::breaks_26(draft, n)),
        27 => broken_if(judge_contacts::breaks_27(draft, n)),
        28 => broken_if(judge_contacts::breaks_28(draft, n)),
        29 => broken_if(judge_contacts::breaks_29(draft, n)),
        30 => broken_if(judge_contacts::breaks_30(draft, n)),
        _ => Demand::Nothing,
    }
}

// 31 to 38: registrations. Whether an operation code's entity is that of an establishment was found out before.
fn of_registrations(draft: Draft, header: Header, met: Met, p: u32, n: usize) -> Demand
    requires { met.held ≡ has_establishment (lent draft) met.entity }
    ensures { result ≡ demand_in registration_procedures (lent draft.entry) header p n }
{
    match p {
        31 => broken_if(judge_registrations::breaks_31(draft, n)),
        32 => broken_if(judge_registrations::breaks_32(draft, n)),
        33 => broken_if(judge_operations::breaks_33(draft, n)),
        34 => judge_operations::demand_34(draft, n),
        35 => broken_if(judge_registrations::breaks_35(draft, n)),
        36 => broken_if(judge_registrations::breaks_36(draft, n)),
        37 => broken_if(judge_operations::breaks_37(draft, n)),
        38 => broken_if(judge_operations::breaks_38(draft, met.entity, met.held, n)),
        _ => Demand::Nothing,
    }
}

// What procedure p demands of element n.
pub fn demand(draft: Draft, header: Header, met: Met, p: u32, n: usize) -> Demand
    requires { (met.held ≡ has_establishment (lent draft) met.entity) × (met.three ≡ breaks3 (lent draft) n) }
    ensures { result ≡ demand_of (lent draft.entry) header p n }
{
    if p < 5 {
        return of_listed(draft, header, met.three, p, n);
    }
    if p < 14 {
        return of_header(draft, header, p, n);
    }
    if p < 23 {
        return of_organisations(draft, header, p, n);
    }
    if p < 31 {
        return of_contacts(draft, header, p, n);
    }
    of_registrations(draft, header, met, p, n)
}
