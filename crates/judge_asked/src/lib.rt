// The procedures that an element of a role is asked.
#![tactic(auto)]

ghost use Rattle.std.specs.Prelude.{◌≡◌, [], ◌∷◌, get_or};
ghost use Rattle.judge_paths.specs.Attributes.{is_role};
ghost use Rattle.judge_asked.specs.Asked.{asked_row, plain_roles};

use judge_paths::role;

// The most procedures that can be found at elements of one role.
pub const MOST: usize = 16;

// How many roles there are.
const ROLES: usize = 39;

// The procedures that can be found at an element of each role, by the role's number: so many numbers for each, zeros behind the procedures.
const ASKED: [[u8; 16]; 39] = [
    // Unknown
    [0, 0, 0, 0, 0, 0, 0, 0, 0, 0, 0, 0, 0, 0, 0, 0],
    // Unlisted
    [2, 0, 0, 0, 0, 0, 0, 0, 0, 0, 0, 0, 0, 0, 0, 0],
    // Root
    [1, 3, 4, 5, 7, 9, 10, 11, 13, 0, 0, 0, 0, 0, 0, 0],
    // Id
    [3, 4, 5, 6, 0, 0, 0, 0, 0, 0, 0, 0, 0, 0, 0, 0],
    // Code
    [3, 4, 7, 8, 0, 0, 0, 0, 0, 0, 0, 0, 0, 0, 0, 0],
    // Title
    [3, 4, 0, 0, 0, 0, 0, 0, 0, 0, 0, 0, 0, 0, 0, 0],
    // Br
    [3, 4, 0, 0, 0, 0, 0, 0, 0, 0, 0, 0, 0, 0, 0, 0],
    // EffectiveTime
    [3, 4, 9, 0, 0, 0, 0, 0, 0, 0, 0, 0, 0, 0, 0, 0],
    // SetId
    [3, 4, 10, 0, 0, 0, 0, 0, 0, 0, 0, 0, 0, 0, 0, 0],
    // VersionNumber
    [3, 4, 11, 12, 0, 0, 0, 0, 0, 0, 0, 0, 0, 0, 0, 0],
    // Author
    [3, 4, 0, 0, 0, 0, 0, 0, 0, 0, 0, 0, 0, 0, 0, 0],
    // Component
    [3, 4, 0, 0, 0, 0, 0, 0, 0, 0, 0, 0, 0, 0, 0, 0],
    // StructuredBody
    [3, 4, 0, 0, 0, 0, 0, 0, 0, 0, 0, 0, 0, 0, 0, 0],
    // Time
    [3, 4, 0, 0, 0, 0, 0, 0, 0, 0, 0, 0, 0, 0, 0, 0],
    // Entity1
    [3, 4, 14, 0, 0, 0, 0, 0, 0, 0, 0, 0, 0, 0, 0, 0],
    // Labeler
    [3, 4, 31, 0, 0, 0, 0, 0, 0, 0, 0, 0, 0, 0, 0, 0],
    // Entity2
    [3, 4, 14, 0, 0, 0, 0, 0, 0, 0, 0, 0, 0, 0, 0, 0],
    // Registrant
    [3, 4, 15, 16, 17, 23, 32, 0, 0, 0, 0, 0, 0, 0, 0, 0],
    // Entity3
    [3, 4, 14, 37, 0, 0, 0, 0, 0, 0, 0, 0, 0, 0, 0, 0],
    // Establishment
    [3, 4, 15, 16, 17, 23, 24, 35, 36, 0, 0, 0, 0, 0, 0, 0],
    // Entity4
    [3, 4, 14, 33, 0, 0, 0, 0, 0, 0, 0, 0, 0, 0, 0, 0],
    // Agent
    [3, 4, 15, 16, 17, 26, 27, 28, 0, 0, 0, 0, 0, 0, 0, 0],
    // OrganisationId
    [3, 4, 20, 21, 22, 0, 0, 0, 0, 0, 0, 0, 0, 0, 0, 0],
    // OrganisationName
    [3, 4, 17, 18, 0, 0, 0, 0, 0, 0, 0, 0, 0, 0, 0, 0],
    // ContactParty
    [3, 4, 24, 26, 27, 28, 30, 0, 0, 0, 0, 0, 0, 0, 0, 0],
    // ContactPerson
    [3, 4, 0, 0, 0, 0, 0, 0, 0, 0, 0, 0, 0, 0, 0, 0],
    // PersonName
    [3, 4, 0, 0, 0, 0, 0, 0, 0, 0, 0, 0, 0, 0, 0, 0],
    // Addr
    [3, 4, 25, 0, 0, 0, 0, 0, 0, 0, 0, 0, 0, 0, 0, 0],
    // StreetAddressLine
    [3, 4, 0, 0, 0, 0, 0, 0, 0, 0, 0, 0, 0, 0, 0, 0],
    // City
    [3, 4, 0, 0, 0, 0, 0, 0, 0, 0, 0, 0, 0, 0, 0, 0],
    // State
    [3, 4, 0, 0, 0, 0, 0, 0, 0, 0, 0, 0, 0, 0, 0, 0],
    // PostalCode
    [3, 4, 0, 0, 0, 0, 0, 0, 0, 0, 0, 0, 0, 0, 0, 0],
    // Country
    [3, 4, 0, 0, 0, 0, 0, 0, 0, 0, 0, 0, 0, 0, 0, 0],
    // Telecom
    [3, 4, 29, 0, 0, 0, 0, 0, 0, 0, 0, 0, 0, 0, 0, 0],
    // Performance
    [3, 4, 0, 0, 0, 0, 0, 0, 0, 0, 0, 0, 0, 0, 0, 0],
    // ActDefinition
    [3, 4, 0, 0, 0, 0, 0, 0, 0, 0, 0, 0, 0, 0, 0, 0],
    // OperationCode
    [3, 4, 34, 38, 0, 0, 0, 0, 0, 0, 0, 0, 0, 0, 0, 0],
    // RequestEntity
    [3, 4, 14, 0, 0, 0, 0, 0, 0, 0, 0, 0, 0, 0, 0, 0],
    // RequestLabeler
    [3, 4, 15, 16, 17, 19, 23, 0, 0, 0, 0, 0, 0, 0, 0, 0],
];

// The procedures that can be found at an element of this role. A number that no role has is that of a known element without procedures of its
// own. The table is laid out anew at each use, so it is asked once for an element.
pub fn asked_row(role: u32) -> [u8; 16]
    ensures { result ≡ asked_row role }
{
    let number = role as usize;
    if number < ROLES {
        return ASKED[number];
    }
    ASKED[5]
}

// The one at place i, or 0.
pub fn asked(role: u32, i: usize) -> u32
    ensures { result ≡ get_or (asked_row role) i 0 }
{
    if MOST <= i {
        return 0;
    }
    let row = asked_row(role);
    row[i] as u32
}

// Whether a number is one of five.
fn is_one_of(number: u32, a: u32, b: u32, c: u32, d: u32, e: u32) -> bool
    ensures { result ≡ is_role number (a ∷ b ∷ c ∷ d ∷ e ∷ []) }
{
    if number == a {
        return true;
    }
    if number == b {
        return true;
    }
    if number == c {
        return true;
    }
    if number == d {
        return true;
    }
    number == e
}

// Whether elements of this role have no procedures of their own, and list neither a code nor an extension: most elements.
pub fn is_plain(number: u32) -> bool
    ensures { result ≡ is_role number plain_roles }
{
    if is_one_of(
        number,
        role::STREET_ADDRESS_LINE,
        role::CITY,
        role::STATE,
        role::POSTAL_CODE,
        role::COUNTRY,
    ) {
        return true;
    }
    if is_one_of(
        number,
        role::CONTACT_PERSON,
        role::PERSON_NAME,
        role::PERFORMANCE,
        role::ACT_DEFINITION,
        role::TITLE,
    ) {
        return true;
    }
    is_one_of(
        number,
        role::BR,
        role::AUTHOR,
        role::COMPONENT,
        role::STRUCTURED_BODY,
        role::TIME,
    )
}
