// Byte strings against each other, GUIDs, labeler codes, and strings without a space. No public function asks anything of its caller, and each
// answers what a definition of specs/ says.
#![tactic(auto)]

ghost use Rattle.std.specs.Prelude.{◌≡◌};
ghost use Rattle.text_scan.specs.Bytes.{is_lower_hex};
ghost use Rattle.text_scan.specs.Lists.{pairs};
ghost use Rattle.text_facts.specs.Strings.{equal, equal_in_any_case, begins_with, without_space, guid_byte, is_guid, is_one_of, reserved, is_labeler_code};

// Whether two strings have the same bytes.
pub fn same(a: &[u8], b: &[u8]) -> bool
    ensures { result ≡ equal a.now b.now }
{
    a == b
}

// Whether two strings have the same bytes, ASCII case ignored.
pub fn same_in_any_case(a: &[u8], b: &[u8]) -> bool
    ensures { result ≡ equal_in_any_case a.now b.now }
{
    a.eq_ignore_ascii_case(b)
}

// Whether s begins with t.
pub fn begins_with(s: &[u8], t: &[u8]) -> bool
    ensures { result ≡ begins_with t.now s.now }
{
    text_scan::text_at(s, 0, t)
}

// Whether no byte is a space (U+0020).
pub fn without_space(s: &[u8]) -> bool
    ensures { result ≡ without_space s.now }
{
    s.iter().all(|b| *b != b' ')
}

fn is_lower_hex(b: u8) -> bool
    ensures { result ≡ is_lower_hex b }
{
    matches!(b, b'0'..=b'9' | b'a'..=b'f')
}

// Whether a byte may stand where the form of a GUID has `form`: a hyphen for a hyphen, else a digit.
fn guid_byte(b: u8, form: u8) -> bool
    ensures { result ≡ guid_byte b form }
{
    if form == b'-' {
        b == b'-'
    } else {
        is_lower_hex(b)
    }
}

// Whether s is a GUID.
pub fn is_guid(s: &[u8]) -> bool
    ensures { result ≡ is_guid s.now }
{
    in_guid_form(s, b"xxxxxxxx-xxxx-xxxx-xxxx-xxxxxxxxxxxx")
}

fn in_guid_form(s: &[u8], form: &[u8]) -> bool
    ensures { result ≡ pairs guid_byte s.now form.now }
{
    s.len() == form.len() && s.iter().zip(form).all(|(b, f)| guid_byte(*b, *f))
}

const RESERVED: [[u8; 4]; 5] = [*b"0000", *b"0001", *b"1500", *b"1800", *b"1900"];

// Whether s is a code that no labeler has.
fn is_reserved(s: &[u8]) -> bool
    ensures { result ≡ is_one_of reserved s.now }
{
    RESERVED.iter().any(|code| same(s, code))
}

// Whether s is a labeler code.
pub fn is_labeler_code(s: &[u8]) -> bool
    ensures { result ≡ is_labeler_code s.now }
{
    if text_scan::all_digits(s) {
        match s.len() {
            4 => !is_reserved(s),
            5 => s[0] != b'0',
            _ => false,
        }
    } else {
        false
    }
}
