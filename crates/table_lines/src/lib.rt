// The lines of the tables file, and the fields of a line, as parts of its bytes.
#![tactic(auto)]

ghost use Rattle.std.specs.Prelude.{◌≡◌, ◌+◌, ◌<◌, ◌≤◌, ltb, None, length};
ghost use Rattle.text_scan.specs.Lists.{run_from};
ghost use Rattle.table_lines.specs.Lines.{other, line_end, line_at, field, fields_of, field_count};
ghost use Rattle.table_lines.specs.Starts.{field_start};
ghost use Rattle.table_lines.specs.Blocks.{throughout, plain_end};

use text_scan::{ByteClass, run_end};

// A line: the place of its line feed or the length, and the number of its fields, if none is empty or has a carriage return.
#[derive(Clone, Copy)]
pub struct Line {
    pub end: usize,
    pub fields: Option<usize>,
}

// All bytes but the line feed.
struct NoFeed;

impl ByteClass for NoFeed {
    ghost members = { other 10 };

    fn holds(b: u8) -> bool {
        b != b'\n'
    }
}

// All bytes but the tab.
struct NoTab;

impl ByteClass for NoTab {
    ghost members = { other 9 };

    fn holds(b: u8) -> bool {
        b != b'\t'
    }
}

// The bytes above 13: no tab, line feed or carriage return is.
struct Plain;

impl ByteClass for Plain {
    ghost members = { ltb 13 };

    fn holds(b: u8) -> bool {
        13 < b
    }
}

// Whether the N bytes from i on are all of a class. Nothing branches on a byte, so that the compiler compares all of them at once.
fn throughout<C: ByteClass, const N: usize>(s: &[u8], i: usize) -> bool
    requires { i + N ≤ length s.now }
    ensures { result ≡ throughout C.members s.now i N }
{
    let mut all = true;
    for k in 0..N {
        all = all & C::holds(s[i + k]);
    }
    all
}

// A place with bytes of the class alone before it: behind the blocks of N of them.
fn pass<C: ByteClass, const N: usize>(s: &[u8], at: usize) -> usize
    requires { 0 < N }
    ensures { run_from C.members s.now at ≡ run_from C.members s.now result }
{
    if s.len() < N {
        return at;
    }
    let last = s.len() - N;
    let mut i = at;
    while i <= last && throughout::<C, N>(s, i) {
        i += N;
    }
    i
}

// The place of the line feed that ends the line at `at`, or the length.
pub fn line_end(s: &[u8], at: usize) -> usize
    ensures { result ≡ line_end s.now at }
{
    run_end::<NoFeed>(s, pass::<NoFeed, 16>(s, at))
}

// The place of the next byte from `at` on that is not above 13, or the length: most bytes of a field are passed by blocks.
pub fn plain_end(s: &[u8], at: usize) -> usize
    ensures { result ≡ plain_end s.now at }
{
    run_end::<Plain>(s, pass::<Plain, 8>(s, at))
}

// A line that has a bad field, from a place in it on: only its end is looked for.
fn no_fields(s: &[u8], at: usize) -> Line
    ensures { (result.end ≡ line_end s.now at) × (result.fields ≡ None) }
{
    Line {
        end: line_end(s, at),
        fields: None,
    }
}

// The line at `at`, walked once: only bytes that are not above 13 are looked at one by one, since tab, line feed and carriage return are such.
pub fn line_at(s: &[u8], at: usize) -> Line
    ensures { (result.end ≡ line_end s.now at) × (result.fields ≡ field_count (line_at s.now at)) }
{
    let mut n = 0;
    let mut start = at;
    let mut i = at;
    while i < s.len() {
        let b = s[i];
        if 13 < b {
            i = plain_end(s, i + 1);
            continue;
        }
        if b == b'\n' {
            break;
        }
        if b == b'\r' {
            return no_fields(s, i);
        }
        if b == b'\t' {
            if i <= start {
                return no_fields(s, i);
            }
            n += 1;
            i += 1;
            start = i;
            continue;
        }
        i += 1;
    }
    if i <= start {
        return Line {
            end: i,
            fields: None,
        };
    }
    Line {
        end: i,
        fields: Some(n + 1),
    }
}

// Where the field of number k starts, or the end of the line.
pub fn field_start(line: &[u8], k: usize) -> usize
    ensures { result ≡ field_start k 0 line.now }
{
    let mut left = k;
    let mut i = 0;
    while i < line.len() {
        if left == 0 {
            return i;
        }
        if line[i] == b'\t' {
            left -= 1;
            i += 1;
            continue;
        }
        i = plain_end(line, i + 1);
    }
    i
}

// Where the field at `at` ends: at the next tab, or at the end of the line.
fn field_end(line: &[u8], at: usize) -> usize
    ensures { result ≡ run_from (other 9) line.now at }
{
    run_end::<NoTab>(line, plain_end(line, at))
}

// The field of number k of a line; an empty part where it has no such field.
pub fn field(line: &[u8], k: usize) -> &[u8]
    ensures { result.now ≡ field (fields_of line.now) k }
{
    let a = field_start(line, k);
    let e = field_end(line, a);
    &line[a..e]
}
