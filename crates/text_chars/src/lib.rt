// The characters of a document: UTF-8 by RFC 3629, and only the characters of XML 1.0's production [2], `Char`.
#![tactic(auto)]

ghost use Rattle.std.specs.Prelude.{◌≡◌, ◌+◌, ◌<◌, ◌≤◌, length, get_or};
ghost use Rattle.text_chars.specs.Utf8.{is_xml_char, sound, char_at, first_bad};
ghost use Rattle.text_chars.specs.Blocks.{width, plains, bad_from, bad_walked};

#[tactic(auto, unfolding(crate::specs::Utf8::is_xml_char))]
pub fn is_char(c: u32) -> bool
    ensures { result ≡ is_xml_char c }
{
    matches!(c, 0x9 | 0xA | 0xD | 0x20..=0xD7FF | 0xE000..=0xFFFD | 0x10000..=0x10FFFF)
}

// The width of a form, where the code point is sound in it.
fn sound_width(w: usize, least: u32, c: u32) -> Option<usize>
    ensures { result ≡ width (sound w least c) }
{
    if c < least {
        return None;
    }
    if is_char(c) {
        return Some(w);
    }
    None
}

// The width of the character at i, whose first bytes a and b open a form of three or four bytes.
fn long_width(s: &[u8], i: usize, a: u32, b: u32) -> Option<usize>
    requires { (i < length s.now) × (a ≡ get_or s.now i 0) × (b ≡ get_or s.now (i + 1) 0) × (0xE0 ≤ a) × (0x80 ≤ b) × (b ≤ 0xBF) }
    ensures { result ≡ width (char_at s.now i) }
{
    let c = text_scan::byte(s, i + 2);
    if c < 0x80 {
        return None;
    }
    if 0xBF < c {
        return None;
    }
    if a < 0xF0 {
        return sound_width(3, 0x800, (a - 0xE0) * 4096 + (b - 0x80) * 64 + (c - 0x80));
    }
    if 0xF7 < a {
        return None;
    }
    let d = text_scan::byte(s, i + 3);
    if d < 0x80 {
        return None;
    }
    if 0xBF < d {
        return None;
    }
    sound_width(
        4,
        0x10000,
        (a - 0xF0) * 262144 + (b - 0x80) * 4096 + (c - 0x80) * 64 + (d - 0x80),
    )
}

// The width of the character at i, if one stands there.
fn width_at(s: &[u8], i: usize) -> Option<usize>
    requires { i < length s.now }
    ensures { result ≡ width (char_at s.now i) }
{
    let a = s[i] as u32;
    if a < 0x80 {
        return sound_width(1, 0, a);
    }
    if a < 0xC0 {
        return None;
    }
    let b = text_scan::byte(s, i + 1);
    if b < 0x80 {
        return None;
    }
    if 0xBF < b {
        return None;
    }
    if a < 0xE0 {
        return sound_width(2, 0x80, (a - 0xC0) * 64 + (b - 0x80));
    }
    long_width(s, i, a, b)
}

// Whether each of the 32 bytes from i on is a character by itself. Nothing branches on a byte, so that the compiler compares 16 at a time.
fn plain_block(s: &[u8], i: usize) -> bool
    requires { i + 32 ≤ length s.now }
    ensures { result ≡ plains s.now i 32 }
{
    let mut all = true;
    for k in 0..32 {
        let b = s[i + k];
        let plain = (0x20 <= b) & (b < 0x80) | (b == 9) | (b == 10) | (b == 13);
        all = all & plain;
    }
    all
}

// The first position from `at` on, character by character, that is not before `end`, or where no character stands.
fn walk_to(s: &[u8], at: usize, end: usize) -> usize
    requires { end ≤ length s.now }
    ensures { bad_walked s.now end result ≡ bad_from s.now at }
{
    let mut i = at;
    while i < end {
        let b = s[i];
        if 0x20 <= b {
            if b < 0x80 {
                i += 1;
                continue;
            }
        }
        let Some(w) = width_at(s, i) else {
            return i;
        };
        i += w;
    }
    i
}

// Where the stretch from i on ends: 64 bytes further, or at n if that comes first.
fn stretch_end(i: usize, n: usize) -> usize
    requires { i < n }
    ensures { (i < result) × (result ≤ n) }
{
    if 64 < n - i {
        return i + 64;
    }
    n
}

// The first byte of the document that is bad: a byte order mark at the front, or the first byte that begins no character; or
// the length, where none is bad. A plain block is passed over whole; where a block is not plain, a stretch is walked before the next
// is tried, so that a text of few plain blocks does not pay for them.
pub fn first_bad(s: &[u8]) -> usize
    ensures { result ≡ first_bad s.now }
{
    if text_scan::text_at(s, 0, b"\xEF\xBB\xBF") {
        return 0;
    }
    let mut i = 0;
    while i < s.len() {
        if 32 <= s.len() - i {
            if plain_block(s, i) {
                i += 32;
                continue;
            }
        }
        let end = stretch_end(i, s.len());
        i = walk_to(s, i, end);
        if i < end {
            return i;
        }
    }
    s.len()
}
