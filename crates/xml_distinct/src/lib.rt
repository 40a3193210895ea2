// Whether two of many names are the same, in time that grows with their bytes and little more: their positions are sorted by the names.
#![tactic(auto)]

ghost use Rattle.std.specs.Prelude.{◌≡◌, ◌*◌, ◌≤◌, length};
ghost use Rattle.sort_compare.specs.Keys.{key_at};
ghost use Rattle.sort_places.specs.Sorting.{Sorted};
ghost use Rattle.xml_distinct.specs.Repeats.{twice, PlacesLeft};
ghost use Rattle.xml_distinct.specs.Neighbours.{neighbours};

use sort_compare::By;

// Whether the names at two neighbours are the same.
fn has_same_neighbours(s: &[u8], a: &[u32]) -> bool
    ensures { result ≡ neighbours s.now a.now }
{
    for i in 1..a.len() {
        if sort_compare::compare(By::Name, s, a[i - 1], a[i]).is_eq() {
            return true;
        }
    }
    false
}

// Whether two of the positions have the same name; the positions are sorted.
fn repeats_sorted(s: &[u8], starts: &mut [u32], room: &mut [u32]) -> bool
    requires { length starts.old ≤ 2 * length room.old }
    ensures { (result ≡ twice s.now starts.old) × Sorted (key_at By.Name s.now) starts.old starts.new }
{
    sort_places::sort(By::Name, s, starts, room);
    has_same_neighbours(s, starts)
}

// Whether two of the positions have the same name. What is left in the room is open. The first 256 are asked first: where names are few, two of these
// are the same.
pub fn repeats(s: &[u8], starts: &mut [u32], room: &mut [u32]) -> bool
    requires { length starts.old ≤ 2 * length room.old }
    ensures { (result ≡ twice s.now starts.old) × PlacesLeft s.now starts.old starts.new }
{
    if starts.len() <= 256 {
        return repeats_sorted(s, starts, room);
    }
    if repeats_sorted(s, &mut starts[..256], room) {
        return true;
    }
    repeats_sorted(s, starts, room)
}
