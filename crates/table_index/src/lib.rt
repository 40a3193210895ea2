// The rows of a section in order, in a lent run of numbers: first the number of its rows, then for each the place where what it is ordered by
// starts. `table_search` finds by halves whether some row is what is asked for.
#![tactic(auto)]

ghost use Rattle.std.specs.Prelude.{◌≡◌, ◌++◌, ◌<◌, ◌≤◌, ◌^◌, length, drop};
ghost use Rattle.xml_reader.specs.Limits.{rows_limit};
ghost use Rattle.table_lines.specs.Lines.{fields_of};
ghost use Rattle.sort_compare.specs.Keys.{key_at};
ghost use Rattle.sort_places.specs.Sorting.{Sorted};
ghost use Rattle.table_index.specs.Indexed.{asks, by_of, keeps_row, key_place, places_at, IndexLeft, Room};

use sort_compare::{By, skip};
use table_rows::Question;

// The questions whose rows are indexed.
#[derive(Clone, Copy)]
pub enum Lookup {
    Code,
    Name,
    KeyElsewhere,
}

// As questions of any row.
impl From<Lookup> for Question {
    ghost from_gives = { λ q r. r ≡ asks q };

    fn from(q: Lookup) -> Question {
        match q {
            Lookup::Code => Question::Code,
            Lookup::Name => Question::Name,
            Lookup::KeyElsewhere => Question::KeyElsewhere,
        }
    }
}

// What the rows that are asked for are ordered by.
fn by(q: Lookup) -> By
    ensures { result ≡ by_of q }
{
    match q {
        Lookup::Code => By::Code,
        Lookup::Name => By::Register,
        Lookup::KeyElsewhere => By::Key,
    }
}

// Whether a row of a history is of this type, under another set id.
fn is_elsewhere(line: &[u8], a: &[u8], c: &[u8]) -> bool
    ensures { result ≡ keeps_row Lookup.KeyElsewhere a.now c.now (fields_of line.now) }
{
    table_rows::field_is(line, 0, a) && !table_rows::field_is(line, 1, c)
}

// Whether a row is kept.
fn keeps(q: Lookup, line: &[u8], a: &[u8], c: &[u8]) -> bool
    ensures { result ≡ keeps_row q a.now c.now (fields_of line.now) }
{
    match q {
        Lookup::Code | Lookup::Name => true,
        Lookup::KeyElsewhere => is_elsewhere(line, a, c),
    }
}

// Where that starts which a row is ordered by: its key, behind four fields, or the row itself.
fn key_place(q: Lookup, s: &[u8], i: usize) -> usize
    ensures { result ≡ key_place q s.now i }
{
    match q {
        Lookup::Code | Lookup::Name => i,
        Lookup::KeyElsewhere => skip(s, skip(s, skip(s, skip(s, i)))),
    }
}

// Puts the places of the rows that are kept into a run, and answers their number.
fn collect(
    q: Lookup,
    s: &[u8],
    at: usize,
    count: usize,
    a: &[u8],
    c: &[u8],
    run: &mut [u32],
) -> usize
    requires { (count ≤ length run.old) × (length s.now < 2 ^ 32) }
    ensures { (result ≤ count) × (result ≡ length (places_at q (keeps_row q a.now c.now) s.now at count)) × (run.new ≡ places_at q (keeps_row q a.now c.now) s.now at count ++ drop result run.old) }
{
    let mut n = 0;
    let mut i = at;
    for _ in 0..count {
        if s.len() <= i {
            return n;
        }
        let e = table_lines::line_end(s, i);
        if keeps(q, &s[i..e], a, c) {
            run[n] = key_place(q, s, i) as u32;
            n += 1;
        }
        i = e + 1;
    }
    n
}

// Sorts the places of at most 65,535 rows; of few rows in a small room, which is soon made.
fn arrange(q: Lookup, s: &[u8], run: &mut [u32])
    requires { length run.old ≤ rows_limit }
    ensures { Sorted (key_at (by_of q) s.now) run.old run.new }
{
    if run.len() <= 2048 {
        let mut few = [0u32; 1024];
        sort_places::sort(by(q), s, run, &mut few);
        return;
    }
    let mut room = [0u32; 32768];
    sort_places::sort(by(q), s, run, &mut room);
}

// Indexes the rows of a section. For the keys of a history, a is the type and c the set id that the questions have; else they say nothing. What is
// left in the run is for `some_row` of table_search alone.
pub fn fill(q: Lookup, s: &[u8], at: usize, count: usize, a: &[u8], c: &[u8], index: &mut [u32])
    requires { Room s.now count index.old }
    ensures { IndexLeft q (keeps_row q a.now c.now) s.now at count index.old index.new }
{
    let n = collect(q, s, at, count, a, c, &mut index[1..]);
    index[0] = n as u32;
    arrange(q, s, &mut index[1..1 + n]);
}
