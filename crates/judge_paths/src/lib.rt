// Which elements are known and as what.
#![tactic(auto)]

ghost use Rattle.std.specs.Prelude.{◌≡◌, length};
ghost use Rattle.judge_paths.specs.Paths.{upper_table, labeler_table, organisation_table, entity_table, contact_table, table, role_named, is_judged, child_role};
ghost use Rattle.judge_paths.specs.Roles.{Author};
ghost use Rattle.judge_paths.specs.Words.{span_of, child_in};

pub mod role;

// The type of a document: 51725-0 is the registration, 51726-8 the labeler code request.
#[derive(Clone, Copy)]
pub enum DocumentType {
    Neither,
    Registration,
    Request,
}

// The role of a child of this name where a parent lists these words, each followed by a space, with these lengths and roles. A word of another length
// than the name's is passed over unread.
fn child_in(name: &[u8], words: &[u8], lengths: &[usize], roles: &[u32]) -> u32
    requires { span_of lengths.now ≡ length words.now }
    ensures { result ≡ child_in words.now lengths.now roles.now name.now }
{
    let mut at = 0;
    for (number, length) in lengths.iter().enumerate() {
        let end = at + *length;
        if text_facts::same(name, &words[at..end]) {
            if number < roles.len() {
                return roles[number];
            }
            return role::UNKNOWN;
        }
        at = end + 1;
    }
    role::UNLISTED
}

// The children of author: in a document without a type they are not asked for.
fn in_author(kind: DocumentType, name: &[u8]) -> u32
    ensures { result ≡ role_named kind Author name.now upper_table }
{
    match kind {
        DocumentType::Neither => role::UNLISTED,
        DocumentType::Registration => {
            child_in(
                name,
                b"time assignedEntity ",
                &[4, 14],
                &[role::TIME, role::ENTITY_1],
            )
        }
        DocumentType::Request => child_in(
            name,
            b"time assignedEntity ",
            &[4, 14],
            &[role::TIME, role::REQUEST_ENTITY],
        ),
    }
}

// The children of the root, a title, a component or author.
fn in_upper(kind: DocumentType, parent: u32, name: &[u8]) -> u32
    ensures { result ≡ role_named kind parent name.now upper_table }
{
    if parent == role::ROOT {
        return child_in(
            name,
            b"id code title effectiveTime setId versionNumber author component ",
            &[2, 4, 5, 13, 5, 13, 6, 9],
            &[
                role::ID,
                role::CODE,
                role::TITLE,
                role::EFFECTIVE_TIME,
                role::SET_ID,
                role::VERSION_NUMBER,
                role::AUTHOR,
                role::COMPONENT,
            ],
        );
    }
    if parent == role::TITLE {
        return child_in(name, b"br ", &[2], &[role::BR]);
    }
    if parent == role::COMPONENT {
        return child_in(name, b"structuredBody ", &[14], &[role::STRUCTURED_BODY]);
    }
    if parent == role::AUTHOR {
        return in_author(kind, name);
    }
    role::UNLISTED
}

// The children of a labeler, of an assignedEntity above it or in it.
fn in_labeler(parent: u32, name: &[u8]) -> u32
    ensures { result ≡ role_named DocumentType.Neither parent name.now labeler_table }
{
    if parent == role::REQUEST_ENTITY {
        return child_in(
            name,
            b"representedOrganization ",
            &[23],
            &[role::REQUEST_LABELER],
        );
    }
    if parent == role::REQUEST_LABELER {
        return child_in(
            name,
            b"id name contactParty ",
            &[2, 4, 12],
            &[
                role::ORGANISATION_ID,
                role::ORGANISATION_NAME,
                role::CONTACT_PARTY,
            ],
        );
    }
    if parent == role::ENTITY_1 {
        return child_in(name, b"representedOrganization ", &[23], &[role::LABELER]);
    }
    if parent == role::LABELER {
        return child_in(
            name,
            b"id name assignedEntity ",
            &[2, 4, 14],
            &[
                role::ORGANISATION_ID,
                role::ORGANISATION_NAME,
                role::ENTITY_2,
            ],
        );
    }
    role::UNLISTED
}

// The children of a registrant, an establishment or an agent.
fn in_organisation(parent: u32, name: &[u8]) -> u32
    ensures { result ≡ role_named DocumentType.Neither parent name.now organisation_table }
{
    if parent == role::REGISTRANT {
        return child_in(
            name,
            b"id name contactParty assignedEntity ",
            &[2, 4, 12, 14],
            &[
                role::ORGANISATION_ID,
                role::ORGANISATION_NAME,
                role::CONTACT_PARTY,
                role::ENTITY_3,
            ],
        );
    }
    if parent == role::ESTABLISHMENT {
        return child_in(
            name,
            b"id name contactParty assignedEntity addr ",
            &[2, 4, 12, 14, 4],
            &[
                role::ORGANISATION_ID,
                role::ORGANISATION_NAME,
                role::CONTACT_PARTY,
                role::ENTITY_4,
                role::ADDR,
            ],
        );
    }
    if parent == role::AGENT {
        return child_in(
            name,
            b"id name telecom ",
            &[2, 4, 7],
            &[
                role::ORGANISATION_ID,
                role::ORGANISATION_NAME,
                role::TELECOM,
            ],
        );
    }
    role::UNLISTED
}

// The children of a lower assignedEntity, and of a performance in it.
fn in_entity(parent: u32, name: &[u8]) -> u32
    ensures { result ≡ role_named DocumentType.Neither parent name.now entity_table }
{
    if parent == role::ENTITY_2 {
        return child_in(name, b"assignedOrganization ", &[20], &[role::REGISTRANT]);
    }
    if parent == role::ENTITY_3 {
        return child_in(
            name,
            b"assignedOrganization performance ",
            &[20, 11],
            &[role::ESTABLISHMENT, role::PERFORMANCE],
        );
    }
    if parent == role::ENTITY_4 {
        return child_in(
            name,
            b"assignedOrganization performance ",
            &[20, 11],
            &[role::AGENT, role::PERFORMANCE],
        );
    }
    if parent == role::PERFORMANCE {
        return child_in(name, b"actDefinition ", &[13], &[role::ACT_DEFINITION]);
    }
    if parent == role::ACT_DEFINITION {
        return child_in(name, b"code ", &[4], &[role::OPERATION_CODE]);
    }
    role::UNLISTED
}

// The children of a contactParty, a contactPerson or an addr.
fn in_contact(parent: u32, name: &[u8]) -> u32
    ensures { result ≡ role_named DocumentType.Neither parent name.now contact_table }
{
    if parent == role::CONTACT_PARTY {
        return child_in(
            name,
            b"addr telecom contactPerson ",
            &[4, 7, 13],
            &[role::ADDR, role::TELECOM, role::CONTACT_PERSON],
        );
    }
    if parent == role::CONTACT_PERSON {
        return child_in(name, b"name ", &[4], &[role::PERSON_NAME]);
    }
    if parent == role::ADDR {
        return child_in(
            name,
            b"streetAddressLine city state postalCode country ",
            &[17, 4, 5, 10, 7],
            &[
                role::STREET_ADDRESS_LINE,
                role::CITY,
                role::STATE,
                role::POSTAL_CODE,
                role::COUNTRY,
            ],
        );
    }
    role::UNLISTED
}

// The role of a child of this name, by what the parent lists.
fn child_named(kind: DocumentType, parent: u32, name: &[u8]) -> u32
    ensures { result ≡ role_named kind parent name.now table }
{
    let contact = in_contact(parent, name);
    if contact != role::UNLISTED {
        return contact;
    }
    let entity = in_entity(parent, name);
    if entity != role::UNLISTED {
        return entity;
    }
    let organisation = in_organisation(parent, name);
    if organisation != role::UNLISTED {
        return organisation;
    }
    let labeler = in_labeler(parent, name);
    if labeler != role::UNLISTED {
        return labeler;
    }
    in_upper(kind, parent, name)
}

// Whether the children of an element of this role are judged.
fn is_judged(kind: DocumentType, parent: u32) -> bool
    ensures { result ≡ is_judged kind parent }
{
    if parent <= role::UNLISTED {
        return false;
    }
    if parent == role::AUTHOR {
        return match kind {
            DocumentType::Neither => false,
            DocumentType::Registration => true,
            DocumentType::Request => true,
        };
    }
    true
}

// The role of an element of this name in a parent of that role.
pub fn child_role(kind: DocumentType, parent: u32, name: &[u8]) -> u32
    ensures { result ≡ child_role kind parent name.now }
{
    if is_judged(kind, parent) {
        return child_named(kind, parent, name);
    }
    role::UNKNOWN
}
