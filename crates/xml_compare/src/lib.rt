// Whether a value says given bytes, with no decoded copy of it.
#![tactic(auto)]

ghost use Rattle.std.specs.Prelude.{◌≡◌, ◌<◌, ◌≤◌, length};
ghost use Rattle.text_facts.specs.Strings.{equal};
ghost use Rattle.text_encode.specs.Encode.{encoded};
ghost use Rattle.xml_references.specs.References.{reference_at};
ghost use Rattle.xml_references.specs.Decoded.{replaced};
ghost use Rattle.xml_values.specs.Attributes.{attribute_of};
ghost use Rattle.xml_compare.specs.Compared.{text_behind};

use xml_references::Reference;
use xml_values::Place;

// The place after the bytes of the character c, where they stand at n.
fn character_end(bytes: &[u8], n: usize, c: u32) -> Option<usize>
    requires { c ≤ 0x10FFFF }
    ensures { result ≡ text_behind (encoded c) bytes.now n }
{
    let mut character = [0u8; 4];
    let k = text_encode::encode(c, &mut character, 0);
    if text_scan::text_at(bytes, n, &character[..k]) {
        return Some(n + k);
    }
    None
}

// The reference at i, which only `&` begins.
fn reference(raw: &[u8], i: usize) -> Option<Reference>
    requires { i < length raw.now }
    ensures { result ≡ reference_at raw.now i }
{
    if raw[i] != b'&' {
        return None;
    }
    xml_references::reference_at(raw, i)
}

// Whether a raw value says these bytes, with no decoded copy of it.
pub fn is_value(raw: &[u8], bytes: &[u8]) -> bool
    ensures { result ≡ equal (replaced 0 raw.now) bytes.now }
{
    let mut i = 0;
    let mut n = 0;
    while i < raw.len() {
        let Some(found) = reference(raw, i) else {
            if bytes.len() <= n {
                return false;
            }
            if bytes[n] != raw[i] {
                return false;
            }
            n += 1;
            i += 1;
            continue;
        };
        let Some(after) = character_end(bytes, n, found.character) else {
            return false;
        };
        n = after;
        i += found.width;
    }
    n == bytes.len()
}

// Whether the attribute `name` of the tag that begins at `first` says these bytes; an absent one says none.
pub fn attribute_is(s: &[u8], first: usize, name: &[u8], bytes: &[u8]) -> bool
    ensures { result ≡ equal (attribute_of s.now first name.now) bytes.now }
{
    let Some(place) = xml_values::attribute_place(s, first, name) else {
        return is_value(b"", bytes);
    };
    is_value(&s[place.first..place.after], bytes)
}
