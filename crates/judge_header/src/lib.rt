// The header of a document and its type.
#![tactic(auto)]

ghost use Rattle.std.specs.Prelude.{◌≡◌};
ghost use Rattle.judge_draft.specs.Drafts.{lent};
ghost use Rattle.judge_below.specs.Chosen.{one, one_has, the};
ghost use Rattle.judge_header.specs.Header.{header_of, id_holds, set_holds, code_is, typed_code, has_type, type_of, version_holds, has_property};

use judge_below::only_kid;
use judge_draft::{Draft, Form};
use judge_paths::{DocumentType, role};

// The one id, code, effectiveTime, setId and versionNumber of the root.
#[derive(Clone, Copy)]
pub struct Header {
    pub id: Option<usize>,
    pub code: Option<usize>,
    pub time: Option<usize>,
    pub set: Option<usize>,
    pub version: Option<usize>,
}

// What is asked of the one child of the root: that its root is a GUID, that it is a code of one of the two types, that its value is a day or a
// version number.
#[derive(Clone, Copy)]
pub enum Property {
    GuidRoot,
    OfType,
    Day,
    Version,
}

// Whether there is one.
pub fn is_one(found: Option<usize>) -> bool
    ensures { result ≡ one found }
{
    match found {
        None => false,
        Some(_) => true,
    }
}

// The number of the one, or 0.
pub fn the(found: Option<usize>) -> usize
    ensures { result ≡ the found }
{
    match found {
        None => 0,
        Some(k) => k,
    }
}

// Reads the header of a draft.
pub fn header_of(draft: Draft) -> Header
    ensures { result ≡ header_of (lent draft.entry) }
{
    let id = only_kid(draft, 0, role::ID);
    let code = only_kid(draft, 0, role::CODE);
    let time = only_kid(draft, 0, role::EFFECTIVE_TIME);
    let set = only_kid(draft, 0, role::SET_ID);
    let version = only_kid(draft, 0, role::VERSION_NUMBER);
    Header {
        id: id,
        code: code,
        time: time,
        set: set,
        version: version,
    }
}

// Whether element k is a code of the system, of this type.
fn code_is(draft: Draft, wanted: &[u8], k: usize) -> bool
    ensures { result ≡ code_is (lent draft.entry) wanted.now k }
{
    if draft.attribute_is(k, b"codeSystem", b"2.16.840.1.113883.6.1") {
        return draft.attribute_is(k, b"code", wanted);
    }
    false
}

// Whether element k is a code of one of the two types.
fn typed_code(draft: Draft, k: usize) -> bool
    ensures { result ≡ typed_code (lent draft.entry) k }
{
    if code_is(draft, b"51725-0", k) {
        return true;
    }
    code_is(draft, b"51726-8", k)
}

// Whether element k has this property.
pub fn has_property(draft: Draft, property: Property, k: usize) -> bool
    ensures { result ≡ has_property (lent draft.entry) property k }
{
    match property {
        Property::GuidRoot => draft.attribute_has(k, b"root", Form::Guid),
        Property::OfType => typed_code(draft, k),
        Property::Day => draft.attribute_has(k, b"value", Form::Day),
        Property::Version => draft.attribute_has(k, b"value", Form::Version),
    }
}

// Whether there is one, and it has this property.
fn one_has(draft: Draft, found: Option<usize>, property: Property) -> bool
    ensures { result ≡ one_has found (has_property (lent draft.entry) property) }
{
    match found {
        None => false,
        Some(k) => has_property(draft, property, k),
    }
}

// Whether 5 holds.
pub fn id_holds(draft: Draft, header: Header) -> bool
    ensures { result ≡ id_holds (lent draft.entry) header }
{
    let id = header.id;
    one_has(draft, id, Property::GuidRoot)
}

// Whether 7 holds.
pub fn has_type(draft: Draft, header: Header) -> bool
    ensures { result ≡ has_type (lent draft.entry) header }
{
    let code = header.code;
    one_has(draft, code, Property::OfType)
}

// Whether 10 holds.
pub fn set_holds(draft: Draft, header: Header) -> bool
    ensures { result ≡ set_holds (lent draft.entry) header }
{
    let set = header.set;
    one_has(draft, set, Property::GuidRoot)
}

// Whether 11 holds.
pub fn version_holds(draft: Draft, header: Header) -> bool
    ensures { result ≡ version_holds (lent draft.entry) header }
{
    let version = header.version;
    one_has(draft, version, Property::Version)
}

// The type of a document with this header.
pub fn type_of(draft: Draft, header: Header) -> DocumentType
    ensures { result ≡ type_of (lent draft.entry) header }
{
    let code = header.code;
    let Some(k) = code else {
        return DocumentType::Neither;
    };
    if code_is(draft, b"51725-0", k) {
        return DocumentType::Registration;
    }
    if code_is(draft, b"51726-8", k) {
        return DocumentType::Request;
    }
    DocumentType::Neither
}
