// Telephone values (procedure 29).
#![tactic(auto)]

ghost use Rattle.std.specs.Prelude.{◌≡◌, ◌≤◌, length};
ghost use Rattle.text_telephones.specs.Telephones.{group_end, groups_end, ends_at, is_telephone};

// The place after the group of hyphen and digits at i, or i where none stands.
fn group_end(s: &[u8], i: usize) -> usize
    ensures { result ≡ group_end s.now i }
{
    if text_scan::byte(s, i) == 45 {
        let e = text_scan::digits_end(s, i + 1);
        if i + 1 < e {
            return e;
        }
        return i;
    }
    i
}

// The place after all groups from `at` on.
fn groups_end(s: &[u8], at: usize) -> usize
    ensures { result ≡ groups_end s.now at }
{
    let mut i = at;
    while i < s.len() {
        let e = group_end(s, i);
        if i < e {
            i = e;
            continue;
        }
        return i;
    }
    s.len()
}

// Whether nothing follows i, or one extension that goes to the end.
fn ends_at(s: &[u8], i: usize) -> bool
    ensures { result ≡ ends_at s.now i }
{
    if i == s.len() {
        return true;
    }
    if text_scan::text_at(s, i, b";ext=") {
        let e = text_scan::digits_end(s, i + 5);
        if i + 5 < e {
            return e == s.len();
        }
        return false;
    }
    false
}

// Whether s is a telephone value.
pub fn is_telephone(s: &[u8]) -> bool
    ensures { result ≡ is_telephone s.now }
{
    if text_scan::text_at(s, 0, b"tel:+") {
        let number = text_scan::digits_end(s, 5);
        let first = group_end(s, number);
        let second = group_end(s, first);
        if 5 < number {
            if number < first {
                if first < second {
                    return ends_at(s, groups_end(s, second));
                }
                return false;
            }
            return false;
        }
        return false;
    }
    false
}
