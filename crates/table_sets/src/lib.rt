// Procedure 22, asked many times for one type and set id: what the rows have to say of their keys is found once.
#![tactic(auto)]

ghost use Rattle.std.specs.Prelude.{◌≡◌};
ghost use Rattle.table_lines.specs.Lines.{fields_of, rows_at};
ghost use Rattle.table_rows.specs.Rows.{some_row, is_other_key};
ghost use Rattle.table_sets.specs.SetKeys.{is_of_set, first_row, keys_of};

// Of the rows of a type and a set id: where the first starts, or the length of the file, and whether some row has another key than it.
#[derive(Clone, Copy)]
pub struct Keys {
    pub first: usize,
    pub several: bool,
}

// Whether a line is a row of this type with this set id.
fn is_of_set(line: &[u8], kind: &[u8], set: &[u8]) -> bool
    ensures { result ≡ is_of_set kind.now set.now (fields_of line.now) }
{
    table_rows::field_is(line, 0, kind) && table_rows::field_is(line, 1, set)
}

// Where the first of those rows starts, or the length of the file.
fn first_of_set(s: &[u8], at: usize, count: usize, kind: &[u8], set: &[u8]) -> usize
    ensures { result ≡ first_row (is_of_set kind.now set.now) s.now at count }
{
    let mut i = at;
    for _ in 0..count {
        if s.len() <= i {
            return s.len();
        }
        let e = table_lines::line_end(s, i);
        if is_of_set(&s[i..e], kind, set) {
            return i;
        }
        i = e + 1;
    }
    s.len()
}

// What answers the question for every key.
pub fn keys_of(s: &[u8], at: usize, count: usize, kind: &[u8], set: &[u8]) -> Keys
    ensures { result ≡ keys_of kind.now set.now s.now at count }
{
    let first = first_of_set(s, at, count, kind, set);
    let e = table_lines::line_end(s, first);
    let key = table_lines::field(&s[first..e], 4);
    let several = table_rows::has_other_key(s, at, count, kind, set, key);
    Keys { first, several }
}

// Whether a row of the history of this type with this set id has another key.
pub fn has_other_key(
    s: &[u8],
    at: usize,
    count: usize,
    kind: &[u8],
    set: &[u8],
    keys: Keys,
    key: &[u8],
) -> bool
    requires { keys ≡ keys_of kind.now set.now s.now at count }
    ensures { result ≡ some_row (is_other_key kind.now set.now key.now) (rows_at s.now at count) }
{
    let first = keys.first;
    if s.len() <= first {
        return false;
    }
    let e = table_lines::line_end(s, first);
    if table_rows::field_is(&s[first..e], 4, key) {
        return keys.several;
    }
    true
}
