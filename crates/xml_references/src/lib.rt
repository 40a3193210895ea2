// References, where an attribute value or a run of text that may hold them ends, and what such bytes say.
#![tactic(auto)]

ghost use Rattle.std.specs.Prelude.{◌≡◌, ◌+◌, ◌<◌, ◌≤◌, length, drop};
ghost use Rattle.std.proofs.lemmas.List.Edits.{sets};
ghost use Rattle.text_scan.specs.Bytes.{text};
ghost use Rattle.text_scan.specs.Lists.{stands};
ghost use Rattle.xml_references.specs.References.{digit_value, number, names, entity_named, reference_at};
ghost use Rattle.xml_references.specs.Runs.{value_end, text_end};
ghost use Rattle.xml_references.specs.Quiet.{quiet_for};
ghost use Rattle.xml_references.specs.Decoded.{replaced, decoded};

// A reference: its width in bytes, and the character that it stands for.
#[derive(Clone, Copy)]
pub struct Reference {
    pub width: usize,
    pub character: u32,
}

// What a digit stands for, or 255, which is past every base: so one comparison asks for a digit of the base, and an Option would need two.
fn digit(b: u8) -> u8
    ensures { result ≡ digit_value b }
{
    if b < 48 {
        return 255;
    }
    if b < 58 {
        return b - 48;
    }
    if b < 65 {
        return 255;
    }
    if b < 71 {
        return b - 55;
    }
    if b < 97 {
        return 255;
    }
    if b < 103 {
        return b - 87;
    }
    255
}

// Digits and a semicolon, `start` bytes behind i. A value past the last code point stays there, and is given up at once.
fn number_at(s: &[u8], i: usize, start: usize, base: u32) -> Option<Reference>
    requires { (i + start ≤ length s.now) × (0 < base) × (base ≤ 16) }
    ensures { result ≡ number base 0 start (drop (i + start) s.now) }
{
    let mut v: u32 = 0;
    for w in start..s.len() - i {
        let b = s[i + w];
        let d = digit(b) as u32;
        if d < base {
            v = v * base + d;
            if 0x10FFFF < v {
                return None;
            }
            continue;
        }
        if b != b';' {
            return None;
        }
        if text_chars::is_char(v) {
            return Some(Reference {
                width: w + 1,
                character: v,
            });
        }
        return None;
    }
    None
}

// One of the five names.
fn name_at(s: &[u8], i: usize) -> Option<Reference>
    ensures { result ≡ entity_named names (drop i s.now) }
{
    if text_scan::text_at(s, i, b"&lt;") {
        return Some(Reference {
            width: 4,
            character: 60,
        });
    }
    if text_scan::text_at(s, i, b"&gt;") {
        return Some(Reference {
            width: 4,
            character: 62,
        });
    }
    if text_scan::text_at(s, i, b"&amp;") {
        return Some(Reference {
            width: 5,
            character: 38,
        });
    }
    if text_scan::text_at(s, i, b"&apos;") {
        return Some(Reference {
            width: 6,
            character: 39,
        });
    }
    if text_scan::text_at(s, i, b"&quot;") {
        return Some(Reference {
            width: 6,
            character: 34,
        });
    }
    None
}

// The reference that stands at i.
pub fn reference_at(s: &[u8], i: usize) -> Option<Reference>
    ensures { result ≡ reference_at s.now i }
{
    if text_scan::text_at(s, i, b"&#x") {
        return number_at(s, i, 3, 16);
    }
    if text_scan::text_at(s, i, b"&#") {
        return number_at(s, i, 2, 10);
    }
    name_at(s, i)
}

// Whether each of the 8 bytes from i on is quiet: above both quotes and `&`, and no `<`. Nothing branches on a byte, so that the compiler compares all of them at a time.
fn quiet_block(s: &[u8], i: usize) -> bool
    requires { i + 8 ≤ length s.now }
    ensures { result ≡ quiet_for s.now i 8 }
{
    let mut all = true;
    for k in 0..8 {
        let b = s[i + k];
        all = all & (39 < b) & (b != 60);
    }
    all
}

// A place from `at` on, at which the value is still to be read: behind quiet blocks, which most values are for the most part.
fn past_quiet(s: &[u8], at: usize, quote: u8) -> usize
    ensures { value_end s.now quote at ≡ value_end s.now quote result }
{
    if 39 < quote {
        return at;
    }
    if s.len() < 8 {
        return at;
    }
    let last = s.len() - 8;
    let mut i = at;
    while i <= last && quiet_block(s, i) {
        i += 8;
    }
    i
}

// A byte above which neither the quote nor '&' stands.
fn last_mark(quote: u8) -> u8
    ensures { (quote ≤ result) × (38 ≤ result) }
{
    if quote < 40 {
        return 39;
    }
    quote
}

// The place of the quote that closes the value which begins at `at`. In a value that is not empty, quiet blocks are passed over first; behind them all above
// the quote and '&' but `<` is a part of the value.
pub fn value_end(s: &[u8], at: usize, quote: u8) -> Option<usize>
    ensures { result ≡ value_end s.now quote at }
{
    if at < s.len() {
        let first = s[at];
        if first == quote {
            return Some(at);
        }
    }
    let high = last_mark(quote);
    let mut i = past_quiet(s, at, quote);
    while i < s.len() {
        let b = s[i];
        if high < b {
            if b == b'<' {
                return None;
            }
            i += 1;
            continue;
        }
        if b == quote {
            return Some(i);
        }
        if b == b'<' {
            return None;
        }
        if b != b'&' {
            i += 1;
            continue;
        }
        let Some(found) = reference_at(s, i) else {
            return None;
        };
        i += found.width;
    }
    None
}

// Whether `]]>` stands at i, which no text may hold.
fn closes(s: &[u8], i: usize) -> bool
    ensures { result ≡ stands (text "]]>") s.now i }
{
    text_scan::text_at(s, i, b"]]>")
}

// The place of the next `<` from `at` on, or the length.
pub fn text_end(s: &[u8], at: usize) -> Option<usize>
    ensures { result ≡ text_end s.now at }
{
    let mut i = at;
    while i < s.len() {
        let here = s[i];
        if here == b'<' {
            return Some(i);
        }
        if here == b']' {
            if closes(s, i) {
                return None;
            }
            i += 1;
            continue;
        }
        if here != b'&' {
            i += 1;
            continue;
        }
        let Some(found) = reference_at(s, i) else {
            return None;
        };
        i += found.width;
    }
    Some(s.len())
}

// Stores what the raw bytes say from `at` on, as far as there is a place, and answers how many bytes that is.
pub fn decode_at(raw: &[u8], out: &mut [u8], at: usize) -> usize
    ensures { (result ≡ length (replaced 0 raw.now)) × (out.new ≡ sets out.old at (replaced 0 raw.now)) }
{
    let start = text_encode::up_to(out.len(), at);
    let mut n = start;
    let mut i = 0;
    while i < raw.len() {
        let b = raw[i];
        if b != b'&' {
            text_encode::put(b, out, n);
            n += 1;
            i += 1;
            continue;
        }
        let Some(found) = reference_at(raw, i) else {
            text_encode::put(b, out, n);
            n += 1;
            i += 1;
            continue;
        };
        n += text_encode::encode(found.character, out, n);
        i += found.width;
    }
    n - start
}

// Stores what the bytes of s from a to e say at the front of out, as far as there is a place, and answers how many bytes that is.
pub fn decode(s: &[u8], a: usize, e: usize, out: &mut [u8]) -> usize
    ensures { (result ≡ length (decoded s.now a e)) × (out.new ≡ sets out.old 0 (decoded s.now a e)) }
{
    let end = text_encode::up_to(s.len(), e);
    let start = text_encode::up_to(end, a);
    decode_at(&s[start..end], out, 0)
}
