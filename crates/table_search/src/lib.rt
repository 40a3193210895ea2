// Whether some row of an indexed section is what is asked for, found by halving its run. The answer is that of `table_rows::some_row`, which walks all
// rows.
#![tactic(auto)]

ghost use Rattle.std.specs.Prelude.{◌≡◌, true, [], ◌∷◌, eqb, ◌<◌, length, drop, get_or};
ghost use Rattle.text_scan.specs.Lists.{some};
ghost use Rattle.table_lines.specs.Lines.{rows_at};
ghost use Rattle.table_rows.specs.Rows.{some_row, is_asked};
ghost use Rattle.sort_compare.specs.Order.{order};
ghost use Rattle.sort_compare.specs.Fields.{front_field, shown, coded, row_key};
ghost use Rattle.sort_compare.specs.Keys.{key_at};
ghost use Rattle.sort_places.specs.Sorting.{rising};
ghost use Rattle.table_index.specs.declared.Lookup.{Lookup};
ghost use Rattle.table_index.specs.Indexed.{asks, by_of, keeps_row, key_from, is_key_of, places_in, Serves};

use std::cmp::Ordering;
use table_index::Lookup;
use table_rows::Question;

// Which comes first: the field at a place, or a value.
fn compare_value(s: &[u8], at: usize, value: &[u8], any: bool) -> Ordering
    ensures { result ≡ order (shown any (front_field true (drop at s.now))) (shown any value.now) }
{
    sort_compare::compare_value(sort_compare::rest(s, at), value, any)
}

// Which comes first: the two fields at a place, or two values; the second in any case of letters where one field is folded. Not by `then_with`: in a
// closure it would not be known that `at + a.len()` fits.
fn compare_two(s: &[u8], at: usize, a: &[u8], b: &[u8], folded: usize) -> Ordering
    ensures { result ≡ order (row_key 2 folded (drop at s.now)) (coded (shown (eqb 2 folded) a.now ∷ shown (eqb 1 folded) b.now ∷ [])) }
{
    match compare_value(s, at, a, 2 == folded) {
        Ordering::Less => Ordering::Less,
        Ordering::Greater => Ordering::Greater,
        Ordering::Equal => compare_value(
            s,
            sort_compare::next_field(s, at + a.len()),
            b,
            1 == folded,
        ),
    }
}

// Which comes first: the code, system and display name at a place, or three values.
fn compare_code(s: &[u8], at: usize, a: &[u8], b: &[u8], c: &[u8]) -> Ordering
    ensures { result ≡ order (row_key 3 1 (drop at s.now)) (key_from Lookup.Code a.now b.now c.now) }
{
    match compare_value(s, at, a, false) {
        Ordering::Less => Ordering::Less,
        Ordering::Greater => Ordering::Greater,
        Ordering::Equal => compare_two(s, sort_compare::next_field(s, at + a.len()), b, c, 1),
    }
}

// Which comes first: the row that has its place here, or the values that are asked for.
fn compare_asked(q: Lookup, s: &[u8], at: usize, a: &[u8], b: &[u8], c: &[u8]) -> Ordering
    ensures { result ≡ order (key_at (by_of q) s.now at) (key_from q a.now b.now c.now) }
{
    match q {
        Lookup::Code => compare_code(s, at, a, b, c),
        Lookup::Name => compare_two(s, at, a, b, 0),
        Lookup::KeyElsewhere => compare_value(s, at, b, false),
    }
}

// Whether one of the places, which are in order, is that of a row with the values that are asked for. It stops at the first hit: std's `binary_search_by`,
// which goes on, made a check of 400 establishments take a sixteenth more.
fn search(q: Lookup, s: &[u8], run: &[u32], a: &[u8], b: &[u8], c: &[u8]) -> bool
    requires { rising (key_at (by_of q) s.now) run.now ≡ true }
    ensures { result ≡ some (is_key_of q s.now (key_from q a.now b.now c.now)) run.now }
{
    let mut low = 0;
    let mut high = run.len();
    while low < high {
        let middle = low + (high - low) / 2;
        match compare_asked(q, s, run[middle] as usize, a, b, c) {
            Ordering::Less => low = middle + 1,
            Ordering::Greater => high = middle,
            Ordering::Equal => return true,
        }
    }
    false
}

// The same of the places that an index has.
fn has_place(q: Lookup, s: &[u8], index: &[u32], a: &[u8], b: &[u8], c: &[u8]) -> bool
    requires { (get_or index.now 0 0 < length index.now) × (rising (key_at (by_of q) s.now) (places_in index.now) ≡ true) }
    ensures { result ≡ some (is_key_of q s.now (key_from q a.now b.now c.now)) (places_in index.now) }
{
    let n = index[0] as usize;
    search(q, s, &index[1..1 + n], a, b, c)
}

// Whether some row of a section whose index stands in a run is the row that is asked for; where the run is empty, along all rows.
pub fn some_row(
    q: Lookup,
    s: &[u8],
    at: usize,
    count: usize,
    index: &[u32],
    a: &[u8],
    b: &[u8],
    c: &[u8],
) -> bool
    requires { Serves q (keeps_row q a.now c.now) s.now at count index.now }
    ensures { result ≡ some_row (is_asked (asks q) a.now b.now c.now) (rows_at s.now at count) }
{
    if 0 < index.len() {
        return has_place(q, s, index, a, b, c);
    }
    table_rows::some_row(Question::from(q), s, at, count, a, b, c)
}
