// Which of two positions of a byte string comes first: by the names that start there, or by fields of the rows that start there. No comparison reads
// further than the first difference.
#![tactic(auto)]

ghost use Rattle.std.specs.Prelude.{◌≡◌};
ghost use Rattle.xml_names.specs.Names.{name_at, is_name_start, is_name_char};
ghost use Rattle.sort_compare.specs.Order.{order};
ghost use Rattle.sort_compare.specs.Keys.{key_at};
ghost use Rattle.sort_compare.specs.Units.{byte_in};

use std::cmp::Ordering;

mod fields;

pub use fields::{compare_value, next_field, rest, skip};

// By what positions are ordered: the name that starts there; code, code system and display name, ASCII case ignored in the last; DUNS number and name;
// one field, as the key of a history's row.
#[derive(Clone, Copy)]
pub enum By {
    Name,
    Code,
    Register,
    Key,
}

// The first byte of the name at i, and 0 where no name starts: no Option, since 0 goes before every byte, as the end of a name does.
fn first_byte(s: &[u8], i: usize) -> u8
    ensures { result ≡ byte_in is_name_start s.now i }
{
    if i < s.len() && xml_names::is_name_start(s[i]) {
        return s[i];
    }
    0
}

// The byte at i with which a name goes on, and 0 where it ends. One function for both classes of bytes would be longer than the two.
fn next_byte(s: &[u8], i: usize) -> u8
    ensures { result ≡ byte_in is_name_char s.now i }
{
    if i < s.len() && xml_names::is_name_char(s[i]) {
        return s[i];
    }
    0
}

// Which of the names at two places comes first. Not a `for`: how long they are is known at their ends alone.
fn compare_names(s: &[u8], a: u32, b: u32) -> Ordering
    ensures { result ≡ order (name_at s.now a) (name_at s.now b) }
{
    let mut i = a as usize;
    let mut j = b as usize;
    let mut x = first_byte(s, i);
    let mut y = first_byte(s, j);
    while x == y {
        if x == 0 {
            return Ordering::Equal;
        }
        i += 1;
        j += 1;
        x = next_byte(s, i);
        y = next_byte(s, j);
    }
    x.cmp(&y)
}

// Which of two positions comes first.
pub fn compare(by: By, s: &[u8], a: u32, b: u32) -> Ordering
    ensures { result ≡ order (key_at by s.now a) (key_at by s.now b) }
{
    match by {
        By::Name => compare_names(s, a, b),
        By::Code => fields::compare_rows(s, a as usize, b as usize, 3, 1),
        By::Register => fields::compare_rows(s, a as usize, b as usize, 2, 0),
        By::Key => fields::compare_rows(s, a as usize, b as usize, 1, 0),
    }
}
