// As what an element is known: its role, a number. 0 and 1 are not known, all others are. No enum: `child_role` and the others answer for every u32 as the
// parent's role, which notes from elsewhere may hold, and a narrower type would ask more of their callers.
// Not judged: inside an unlisted element, or inside author without a type.
pub const UNKNOWN: u32 = 0;

// Not known, in a known parent that does not list it.
pub const UNLISTED: u32 = 1;

// The root, whatever its name, and what it lists.
pub const ROOT: u32 = 2;

pub const ID: u32 = 3;

pub const CODE: u32 = 4;

pub const TITLE: u32 = 5;

// In a title.
pub const BR: u32 = 6;

pub const EFFECTIVE_TIME: u32 = 7;

pub const SET_ID: u32 = 8;

pub const VERSION_NUMBER: u32 = 9;

pub const AUTHOR: u32 = 10;

pub const COMPONENT: u32 = 11;

// In a component, and in author.
pub const STRUCTURED_BODY: u32 = 12;

pub const TIME: u32 = 13;

// In a registration an assignedEntity and the organisation in it have a level from 1 to 4: the labeler, the registrant, an establishment, an
// agent or importer.
pub const ENTITY_1: u32 = 14;

pub const LABELER: u32 = 15;

pub const ENTITY_2: u32 = 16;

pub const REGISTRANT: u32 = 17;

pub const ENTITY_3: u32 = 18;

pub const ESTABLISHMENT: u32 = 19;

pub const ENTITY_4: u32 = 20;

pub const AGENT: u32 = 21;

// In an organisation.
pub const ORGANISATION_ID: u32 = 22;

pub const ORGANISATION_NAME: u32 = 23;

pub const CONTACT_PARTY: u32 = 24;

pub const CONTACT_PERSON: u32 = 25;

pub const PERSON_NAME: u32 = 26;

// In a contactParty or an establishment.
pub const ADDR: u32 = 27;

pub const STREET_ADDRESS_LINE: u32 = 28;

pub const CITY: u32 = 29;

pub const STATE: u32 = 30;

pub const POSTAL_CODE: u32 = 31;

pub const COUNTRY: u32 = 32;

pub const TELECOM: u32 = 33;

// In an entity of level 3 or 4; the code in an actDefinition.
pub const PERFORMANCE: u32 = 34;

pub const ACT_DEFINITION: u32 = 35;

pub const OPERATION_CODE: u32 = 36;

// In a request: the assignedEntity in author, and the labeler in it.
pub const REQUEST_ENTITY: u32 = 37;

pub const REQUEST_LABELER: u32 = 38;
