// Positions of a byte string, sorted by what starts there and, where that is the same, by themselves: by halves, with room for half of them, in time
// that grows with their bytes and little more.
#![tactic(auto)]

ghost use Rattle.std.specs.Prelude.{◌≡◌, true, ◌++◌, ◌*◌, ◌<◌, ◌≤◌, length, take, drop};
ghost use Rattle.std.specs.Ordering.{is_le};
ghost use Rattle.sort_compare.specs.Order.{order};
ghost use Rattle.sort_compare.specs.Keys.{key_at};
ghost use Rattle.sort_places.specs.Sorting.{with_place, rising, Sorted};

use sort_compare::By;

// Whether the position x is not after y.
fn is_in_order(by: By, s: &[u8], x: u32, y: u32) -> bool
    ensures { result ≡ is_le (order (with_place (key_at by s.now) x) (with_place (key_at by s.now) y)) }
{
    sort_compare::compare(by, s, x, y).then(x.cmp(&y)).is_le()
}

// Merges the positions of `left` with those of `a` behind as many places, into `a`. Not a `for`: the keys say which of the two goes on.
fn merge(by: By, s: &[u8], left: &[u32], a: &mut [u32])
    requires { (length left.now ≤ length a.old) × (rising (with_place (key_at by s.now)) left.now ≡ true) × (rising (with_place (key_at by s.now)) (drop (length left.now) a.old) ≡ true) }
    ensures { Sorted (key_at by s.now) (left.now ++ drop (length left.now) a.old) a.new }
{
    let mut i = 0;
    let mut j = left.len();
    let mut k = 0;
    while i < left.len() {
        if a.len() <= j || is_in_order(by, s, left[i], a[j]) {
            a[k] = left[i];
            i += 1;
        } else {
            a[k] = a[j];
            j += 1;
        }
        k += 1;
    }
}

// Copies one by one: std's `copy_from_slice` is the C library's `memmove`, which the archive for C needs for nothing else.
fn copy(from: &[u32], to: &mut [u32])
    requires { length from.now ≡ length to.old }
    ensures { to.new ≡ from.now }
{
    for (i, x) in from.iter().enumerate() {
        to[i] = *x;
    }
}

// Merges the first h positions of `a`, which rise, with the others, which rise too. Where the others only go on, nothing is moved: rows that come in
// order are sorted with one comparison each.
fn merge_halves(by: By, s: &[u8], a: &mut [u32], h: usize, room: &mut [u32])
    requires { (0 < h) × (h < length a.old) × (h ≤ length room.old) × (rising (with_place (key_at by s.now)) (take h a.old) ≡ true) × (rising (with_place (key_at by s.now)) (drop h a.old) ≡ true) }
    ensures { Sorted (key_at by s.now) a.old a.new }
{
    if is_in_order(by, s, a[h - 1], a[h]) {
        return;
    }
    let left = &mut room[..h];
    copy(&a[..h], left);
    merge(by, s, left, a);
}

// Sorts positions, with room for half of them.
pub fn sort(by: By, s: &[u8], a: &mut [u32], room: &mut [u32])
    requires { length a.old ≤ 2 * length room.old }
    ensures { Sorted (key_at by s.now) a.old a.new }
{
    let n = a.len();
    if n < 2 {
        return;
    }
    let h = n / 2;
    sort(by, s, &mut a[..h], room);
    sort(by, s, &mut a[h..], room);
    merge_halves(by, s, a, h, room);
}
