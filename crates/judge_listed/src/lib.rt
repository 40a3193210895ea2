// Procedures 1 to 4: the root, and the elements and attributes that are known.
#![tactic(auto)]

ghost use Rattle.std.specs.Prelude.{◌≡◌, false};
ghost use Rattle.xml_values.specs.Attributes.{has_other};
ghost use Rattle.judge_paths.specs.Attributes.{attribute_table, listed_names};
ghost use Rattle.judge_draft.specs.Drafts.{lent};
ghost use Rattle.judge_listed.specs.Listed.{is_named_document, has_schema, is_declared, root_is_right, breaks1, breaks2, other_than, lists_at, breaks3, has_space, breaks4};

use judge_draft::{Draft, Form};
use judge_paths::role;
use xml_values::has_other_attribute;

// Whether element n is named document.
fn is_document(draft: Draft, n: usize) -> bool
    ensures { result ≡ is_named_document (lent draft.entry) n }
{
    let first = draft.first_byte(n);
    if draft.document.len() <= first {
        return false;
    }
    let start = first + 1;
    let end = xml_names::name_end(draft.document, start);
    text_facts::same(&draft.document[start..end], b"document")
}

// Whether element n says where the schema is.
fn has_schema(draft: Draft, n: usize) -> bool
    ensures { result ≡ has_schema (lent draft.entry) n }
{
    if draft.attribute_is(
        n,
        b"xmlns:xsi",
        b"http://www.w3.org/2001/XMLSchema-instance",
    ) {
        return draft.attribute_is(
            n,
            b"xsi:schemaLocation",
            b"urn:hl7-org:v3 http://www.accessdata.fda.gov/spl/schema/spl.xsd",
        );
    }
    false
}

// Whether element n has the three attributes.
fn is_declared(draft: Draft, n: usize) -> bool
    ensures { result ≡ is_declared (lent draft.entry) n }
{
    if draft.attribute_is(n, b"xmlns", b"urn:hl7-org:v3") {
        return has_schema(draft, n);
    }
    false
}

// Whether element n is the root as it is to be.
fn root_is_right(draft: Draft, n: usize) -> bool
    ensures { result ≡ root_is_right (lent draft.entry) n }
{
    if is_document(draft, n) {
        return is_declared(draft, n);
    }
    false
}

// Whether 1 is broken at element n.
pub fn breaks_1(draft: Draft, n: usize) -> bool
    ensures { result ≡ breaks1 (lent draft.entry) n }
{
    if draft.is_role(n, role::ROOT) {
        return !root_is_right(draft, n);
    }
    false
}

// Whether 2 is broken at element n.
pub fn breaks_2(draft: Draft, n: usize) -> bool
    ensures { result ≡ breaks2 (lent draft.entry) n }
{
    draft.is_role(n, role::UNLISTED)
}

// Whether the tag that begins at `first` has an attribute that an element of this role does not list: one that is not empty and has another
// name. An empty name lists nothing more.
fn has_unlisted(document: &[u8], first: usize, role: u32) -> bool
    ensures { result ≡ has_other document.now first (listed_names role attribute_table) }
{
    match role {
        role::ROOT => has_other_attribute(
            document,
            first,
            b"xmlns",
            b"xmlns:xsi",
            b"xsi:schemaLocation",
        ),
        role::ID | role::ORGANISATION_ID => has_other_attribute(
            document,
            first,
            b"root",
            b"extension",
            b"",
        ),
        role::SET_ID => has_other_attribute(document, first, b"root", b"", b""),
        role::CODE | role::OPERATION_CODE => has_other_attribute(
            document,
            first,
            b"code",
            b"codeSystem",
            b"displayName",
        ),
        role::EFFECTIVE_TIME | role::VERSION_NUMBER | role::TELECOM => has_other_attribute(
            document, first, b"value", b"", b"",
        ),
        role::TITLE => has_other_attribute(document, first, b"mediaType", b"", b""),
        _ => has_other_attribute(document, first, b"", b"", b""),
    }
}

// Whether 3 is broken at element n. Most tags have no attributes, and are asked no further.
pub fn breaks_3(draft: Draft, n: usize) -> bool
    ensures { result ≡ breaks3 (lent draft.entry) n }
{
    if draft.is_known(n) {
        let first = draft.first_byte(n);
        if xml_values::is_bare(draft.document, first) {
            return false;
        }
        let role = draft.role_at(n);
        return has_unlisted(draft.document, first, role);
    }
    false
}

// Whether the code or the extension of element n has a space.
fn has_space(draft: Draft, n: usize) -> bool
    ensures { result ≡ has_space (lent draft.entry) n }
{
    if draft.attribute_has(n, b"code", Form::WithoutSpace) {
        return !draft.attribute_has(n, b"extension", Form::WithoutSpace);
    }
    true
}

// The same of an element without an unlisted attribute: it says nothing in a code or an extension that its role does not list.
fn has_space_listed(draft: Draft, n: usize) -> bool
    requires { other_than (lent draft) n (lists_at (lent draft) n) ≡ false }
    ensures { result ≡ has_space (lent draft.entry) n }
{
    match draft.role_at(n) {
        role::ID | role::ORGANISATION_ID => !draft.attribute_has(
            n,
            b"extension",
            Form::WithoutSpace,
        ),
        role::CODE | role::OPERATION_CODE => !draft.attribute_has(n, b"code", Form::WithoutSpace),
        _ => false,
    }
}

// Whether 4 is broken at element n, where it was found out before whether 3 is.
pub fn breaks_4(draft: Draft, three: bool, n: usize) -> bool
    requires { three ≡ breaks3 (lent draft) n }
    ensures { result ≡ breaks4 (lent draft.entry) n }
{
    if draft.is_known(n) {
        if three {
            return has_space(draft, n);
        }
        return has_space_listed(draft, n);
    }
    false
}
