// The fields of rows, compared where they stand: a field ends before a tab or a line feed.
ghost use Rattle.std.specs.Prelude.{◌≡◌, true, [], ◌∷◌, ◌+◌, ◌-◌, ◌<◌, ◌≤◌, length, drop};
ghost use Rattle.sort_compare.specs.Order.{order};
ghost use Rattle.sort_compare.specs.Fields.{ends, front_field, shown, next_place, skip_place, row_key};
ghost use Rattle.sort_compare.specs.Units.{alike_from, unit_of, sharing, tabs_in};

use std::cmp::Ordering;

// What follows place i.
pub fn rest(s: &[u8], i: usize) -> &[u8]
    ensures { result.now ≡ drop i s.now }
{
    &s[i.min(s.len())..]
}

// Whether a part that is cut ends before a byte.
fn is_end(cut: bool, b: u8) -> bool
    ensures { result ≡ ends cut b }
{
    cut && (b == b'\t' || b == b'\n')
}

// A byte and one more, in any case of letters or not.
fn unit_of(b: u8, any: bool) -> usize
    ensures { result ≡ unit_of (shown any (b ∷ [])) }
{
    let b = if any { text_scan::lower_case(b) } else { b };
    usize::from(b) + 1
}

// That of the byte at place k of a part, and 0 at its end: no Option, since as numbers the end and the bytes are told by one comparison.
fn unit(t: &[u8], k: usize, cut: bool, any: bool) -> usize
    ensures { result ≡ unit_of (shown any (front_field cut (drop k t.now))) }
{
    if t.len() <= k {
        return 0;
    }
    let b = t[k];
    if is_end(cut, b) {
        return 0;
    }
    unit_of(b, any)
}

// How many bytes in front of two strings are the same and no tab, line feed or other control character below 14: most bytes are passed here.
fn alike(x: &[u8], y: &[u8]) -> usize
    ensures { result ≡ alike_from x.now y.now }
{
    let n = x.len().min(y.len());
    for k in 0..n {
        let b = x[k];
        if b != y[k] || b <= 13 {
            return k;
        }
    }
    n
}

// Which comes first: the field in front of x, or a value; in any case of letters or not.
pub fn compare_value(x: &[u8], value: &[u8], any: bool) -> Ordering
    ensures { result ≡ order (shown any (front_field true x.now)) (shown any value.now) }
{
    for k in alike(x, value)..=x.len() {
        let u = unit(x, k, true, any);
        let v = unit(value, k, false, any);
        if u != v || u == 0 {
            return u.cmp(&v);
        }
    }
    Ordering::Equal
}

// Where the field at `at` ends: before a tab or a line feed, or at the end.
fn field_end(s: &[u8], at: usize) -> usize
    ensures { result ≡ at + length (front_field true (drop at s.now)) }
{
    let from = table_lines::plain_end(s, at);
    for i in from..s.len() {
        if is_end(true, s[i]) {
            return i;
        }
    }
    from.max(s.len())
}

// Where the field after the one that ends at i starts: behind the tab, or at i where the row ends.
pub fn next_field(s: &[u8], i: usize) -> usize
    ensures { result ≡ next_place s.now i }
{
    if i < s.len() && s[i] == b'\t' {
        return i + 1;
    }
    i
}

// Where the field after that at i starts, or the end of the row.
pub fn skip(s: &[u8], i: usize) -> usize
    ensures { result ≡ skip_place s.now i }
{
    next_field(s, field_end(s, i))
}

// How many bytes follow both places, or less.
fn room(s: &[u8], i: usize, j: usize) -> usize
    ensures { (result ≤ length s.now - i) × (result ≤ length s.now - j) }
{
    s.len().saturating_sub(i.max(j))
}

// How many bytes at two places are the same and above 13, one by one: most rows differ soon.
fn near(s: &[u8], i: usize, j: usize) -> usize
    ensures { (result ≤ length s.now - i) × (result ≤ length s.now - j) × (sharing s.now i j result ≡ true) × (tabs_in s.now i result ≡ 0) }
{
    let n = room(s, i, j);
    for k in 0..n {
        let b = s[i + k];
        if b != s[j + k] || b <= 13 {
            return k;
        }
    }
    n
}

// Whether the 8 bytes at two places are the same, and none a line feed. Nothing branches on a byte, so that the compiler compares all of them at once.
fn shares_block(s: &[u8], i: usize, j: usize) -> bool
    requires { (i + 8 ≤ length s.now) × (j + 8 ≤ length s.now) }
    ensures { result ≡ sharing s.now i j 8 }
{
    let mut all = true;
    for k in 0..8 {
        all = all & (s[i + k] == s[j + k]) & (s[i + k] != b'\n');
    }
    all
}

// How many of the n bytes at two places stand in blocks that are the same, and without a line feed.
fn pass_shared(s: &[u8], i: usize, j: usize, n: usize) -> usize
    requires { (n ≤ length s.now - i) × (n ≤ length s.now - j) }
    ensures { (result ≤ n) × (sharing s.now i j result ≡ true) }
{
    let mut k = 0;
    while 8 <= n - k && shares_block(s, i + k, j + k) {
        k += 8;
    }
    k
}

// How many bytes at two places are the same, up to a line feed; `near` stops at other bytes, and says of tabs what this does not.
fn shared(s: &[u8], i: usize, j: usize) -> usize
    ensures { (result ≤ length s.now - i) × (result ≤ length s.now - j) × (sharing s.now i j result ≡ true) }
{
    if text_scan::byte(s, i) != text_scan::byte(s, j) {
        return 0;
    }
    let n = room(s, i, j);
    for k in pass_shared(s, i, j, n)..n {
        let b = s[i + k];
        if b != s[j + k] || b == b'\n' {
            return k;
        }
    }
    n
}

// How many of the n bytes from i on are tabs.
fn tabs(s: &[u8], i: usize, n: usize) -> usize
    requires { n ≤ length s.now - i }
    ensures { result ≡ tabs_in s.now i n }
{
    let mut found = 0;
    for k in 0..n {
        if s[i + k] == b'\t' {
            found += 1;
        }
    }
    found
}

// Which of the rows at two places comes first, as `compare_rows` says, byte by byte from the first that differs.
fn compare_from(s: &[u8], a: usize, b: usize, fields: usize, folded: usize) -> Ordering
    ensures { result ≡ order (row_key fields folded (drop a s.now)) (row_key fields folded (drop b s.now)) }
{
    let mut i = a;
    let mut j = b;
    let mut left = fields;
    while 0 < left {
        let u = unit(s, i, true, left == folded);
        let v = unit(s, j, true, left == folded);
        if u != v {
            return u.cmp(&v);
        }
        if u == 0 {
            i = next_field(s, i);
            j = next_field(s, j);
            left -= 1;
            continue;
        }
        let k = near(s, i + 1, j + 1);
        i = i + 1 + k;
        j = j + 1 + k;
    }
    Ordering::Equal
}

// The same where fields are left: bytes that differ decide at once, where both stand in fields whose case counts.
fn compare_other(s: &[u8], i: usize, j: usize, left: usize, folded: usize) -> Ordering
    requires { 0 < left }
    ensures { result ≡ order (row_key left folded (drop i s.now)) (row_key left folded (drop j s.now)) }
{
    if left != folded {
        let x = text_scan::byte(s, i);
        let y = text_scan::byte(s, j);
        if 13 < x && 13 < y && x != y {
            return x.cmp(&y);
        }
    }
    compare_from(s, i, j, left, folded)
}

// The same, behind the bytes that both go on with: where these are all of both lines the rows are the same, and else the fields that end among them are.
fn compare_shared(s: &[u8], i: usize, j: usize, fields: usize, folded: usize) -> Ordering
    ensures { result ≡ order (row_key fields folded (drop i s.now)) (row_key fields folded (drop j s.now)) }
{
    let k = shared(s, i, j);
    if text_scan::byte(s, i + k) == 10 && text_scan::byte(s, j + k) == 10 {
        return Ordering::Equal;
    }
    let passed = tabs(s, i, k);
    if fields <= passed {
        return Ordering::Equal;
    }
    compare_other(s, i + k, j + k, fields - passed, folded)
}

// Which of the rows at two places comes first, by so many fields; the one with which `folded` fields are left, itself among them, in any case of letters.
pub fn compare_rows(s: &[u8], a: usize, b: usize, fields: usize, folded: usize) -> Ordering
    ensures { result ≡ order (row_key fields folded (drop a s.now)) (row_key fields folded (drop b s.now)) }
{
    let k = near(s, a, b);
    compare_shared(s, a + k, b + k, fields, folded)
}
