// What every scanner shares: the byte at a position, digits, letters made small, and a text at a position.
#![tactic(auto)]

ghost use Rattle.std.specs.Prelude.{◌≡◌, ℕ, ◌<◌, Bool, get_or, map};
ghost use Rattle.text_scan.specs.Bytes.{is_digit, lower};
ghost use Rattle.text_scan.specs.Lists.{every, stands, run_from};

// The byte at k, and 0 past the end.
pub fn byte(s: &[u8], k: usize) -> u32
    ensures { (result ≡ get_or s.now k 0) × (result < 256) }
{
    if k < s.len() {
        return s[k] as u32;
    }
    0
}

pub fn is_digit(b: u8) -> bool
    ensures { result ≡ is_digit b }
{
    matches!(b, b'0'..=b'9')
}

// A letter A to Z made small, any other byte as it is.
pub fn lower_case(b: u8) -> u8
    ensures { result ≡ lower b }
{
    b.to_ascii_lowercase()
}

// How a byte is read that is compared with a text.
pub trait Case {
    ghost read: { ℕ → ℕ };

    fn read(b: u8) -> u8
        ensures { result ≡ read b };
}

// As it stands.
pub struct Exact;

impl Case for Exact {
    ghost read = { λ b. b };

    fn read(b: u8) -> u8 {
        b
    }
}

// With letters made small.
pub struct AnyCase;

impl Case for AnyCase {
    ghost read = { lower };

    fn read(b: u8) -> u8 {
        lower_case(b)
    }
}

// Whether the text t stands at position `at`, where the bytes are read in the case C.
pub fn text_read_at<C: Case>(s: &[u8], at: usize, t: &[u8]) -> bool
    ensures { result ≡ stands t.now (map C.read s.now) at }
{
    // Byte by byte: `starts_with` took three times as long.
    let mut i = at;
    for b in t {
        if s.len() <= i {
            return false;
        }
        if C::read(s[i]) != *b {
            return false;
        }
        i += 1;
    }
    true
}

// Whether the text t stands at position `at`.
pub fn text_at(s: &[u8], at: usize, t: &[u8]) -> bool
    ensures { result ≡ stands t.now s.now at }
{
    text_read_at::<Exact>(s, at, t)
}

// A class of bytes.
pub trait ByteClass {
    ghost members: { ℕ → Bool };

    fn holds(b: u8) -> bool
        ensures { result ≡ members b };
}

// The digits.
pub struct Digit;

impl ByteClass for Digit {
    ghost members = { is_digit };

    fn holds(b: u8) -> bool {
        is_digit(b)
    }
}

// The position after the bytes of the class C from `at` on.
pub fn run_end<C: ByteClass>(s: &[u8], at: usize) -> usize
    ensures { result ≡ run_from C.members s.now at }
{
    // A `while`: by a `for` over the positions, short runs, which are the most, took a fifth longer.
    let mut end = at;
    while end < s.len() && C::holds(s[end]) {
        end += 1;
    }
    end
}

// The position after the digits from `at` on.
pub fn digits_end(s: &[u8], at: usize) -> usize
    ensures { result ≡ run_from is_digit s.now at }
{
    run_end::<Digit>(s, at)
}

// Whether each byte is a digit.
pub fn all_digits(s: &[u8]) -> bool
    ensures { result ≡ every is_digit s.now }
{
    s.iter().all(|b| is_digit(*b))
}
