// What all markup is made of: white space, names, and what stands between a name and its value.
#![tactic(auto)]

ghost use Rattle.std.specs.Prelude.{◌≡◌, get_or};
ghost use Rattle.text_scan.specs.Choice.{pick};
ghost use Rattle.text_scan.specs.Lists.{run_from};
ghost use Rattle.xml_names.specs.Names.{is_space, is_name_start, is_name_char, space_end, name_end, name_is};
ghost use Rattle.xml_names.specs.Values.{value_start};
ghost use Rattle.xml_names.specs.ElementNames.{is_element_start, is_element_char, element_end};

use text_scan::ByteClass;

pub fn is_space(b: u8) -> bool
    ensures { result ≡ is_space b }
{
    if b < 14 {
        if b < 9 {
            return false;
        }
        if b < 11 {
            return true;
        }
        return b == 13;
    }
    b == 32
}

// White space, for a run.
struct Space;

impl ByteClass for Space {
    ghost members = { is_space };

    fn holds(b: u8) -> bool {
        is_space(b)
    }
}

// The place after the white space from `at` on.
pub fn space_end(s: &[u8], at: usize) -> usize
    ensures { result ≡ space_end s.now at }
{
    text_scan::run_end::<Space>(s, at)
}

// Small letters, which are the most, are asked for first, here and where a name goes on.
pub fn is_name_start(b: u8) -> bool
    ensures { result ≡ is_name_start b }
{
    if 96 < b {
        return b < 123;
    }
    if b < 65 {
        return b == 58;
    }
    if b < 91 {
        return true;
    }
    b == 95
}

pub fn is_name_char(b: u8) -> bool
    ensures { result ≡ is_name_char b }
{
    if (96 < b) & (b < 123) {
        return true;
    }
    if b < 48 {
        if b < 45 {
            return false;
        }
        return b < 47;
    }
    if b < 59 {
        return true;
    }
    is_name_start(b)
}

// What a name begins with, and what it goes on with.
struct NameStart;

impl ByteClass for NameStart {
    ghost members = { is_name_start };

    fn holds(b: u8) -> bool {
        is_name_start(b)
    }
}

struct NameChar;

impl ByteClass for NameChar {
    ghost members = { is_name_char };

    fn holds(b: u8) -> bool {
        is_name_char(b)
    }
}

// The same of an element name, which has no colon.
struct ElementStart;

impl ByteClass for ElementStart {
    ghost members = { is_element_start };

    fn holds(b: u8) -> bool {
        if 96 < b {
            return b < 123;
        }
        if b == 58 {
            return false;
        }
        is_name_start(b)
    }
}

struct ElementChar;

impl ByteClass for ElementChar {
    ghost members = { is_element_char };

    fn holds(b: u8) -> bool {
        if (96 < b) & (b < 123) {
            return true;
        }
        if b == 58 {
            return false;
        }
        is_name_char(b)
    }
}

// The place after a byte of the class S at `at` and the bytes of the class C from there on, which is `at` where it is none of S.
fn word_end<S: ByteClass, C: ByteClass>(s: &[u8], at: usize) -> usize
    ensures { result ≡ pick (S.members (get_or s.now at 0)) (run_from C.members s.now at) at }
{
    if at < s.len() && S::holds(s[at]) {
        return text_scan::run_end::<C>(s, at);
    }
    at
}

// The place after the name at `at`, which is `at` where no name starts.
pub fn name_end(s: &[u8], at: usize) -> usize
    ensures { result ≡ name_end s.now at }
{
    word_end::<NameStart, NameChar>(s, at)
}

// The place after the element name at `at`, which is `at` where none starts.
pub fn element_end(s: &[u8], at: usize) -> usize
    ensures { result ≡ element_end s.now at }
{
    word_end::<ElementStart, ElementChar>(s, at)
}

// Whether the name at `at` is the text t.
pub fn name_is(s: &[u8], at: usize, t: &[u8]) -> bool
    ensures { result ≡ name_is t.now s.now at }
{
    if text_scan::text_at(s, at, t) {
        return name_end(s, at) - at == t.len();
    }
    false
}

// The same of a name that is known to end at n: most names differ in their length.
pub fn is_named(s: &[u8], at: usize, n: usize, t: &[u8]) -> bool
    requires { n ≡ name_end s.now at }
    ensures { result ≡ name_is t.now s.now at }
{
    if n - at == t.len() {
        return text_scan::text_at(s, at, t);
    }
    false
}

// The first byte of the value of a name that ends at `n`, behind `=` and the opening quote.
pub fn value_start(s: &[u8], n: usize) -> Option<usize>
    ensures { result ≡ value_start s.now n }
{
    // Most values stand straight behind the name, in double quotes.
    if text_scan::byte(s, n) == 61 {
        if text_scan::byte(s, n + 1) == 34 {
            return Some(n + 2);
        }
    }
    let e = space_end(s, n);
    if text_scan::byte(s, e) != 61 {
        return None;
    }
    let q = space_end(s, e + 1);
    let c = text_scan::byte(s, q);
    if c == 34 {
        return Some(q + 1);
    }
    if c == 39 {
        return Some(q + 1);
    }
    None
}
