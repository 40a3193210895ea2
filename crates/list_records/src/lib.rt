// Findings as structs in a lent room: the records of a list of numbers are kept there, and two runs of them are merged. Whether records fit is
// decided on numbers, by `fits`.
#![tactic(auto)]

ghost use Rattle.std.specs.Prelude.{◌≡◌, ◌+◌, ◌≤◌, length, take, drop};
ghost use Rattle.list_findings.specs.Findings.{flat};
ghost use Rattle.list_findings.specs.Merge.{IsMerged};
ghost use Rattle.list_records.specs.Kept.{fitting, kept_in};

use list_findings::Finding;
use refusals::Refusal;

// Whether a list of so many numbers has n records, and a room for so many has place for them from number `at` on.
fn fits(numbers: usize, n: usize, room: usize, at: usize) -> bool
    ensures { result ≡ fitting numbers n room at }
{
    n <= numbers / list_findings::WIDTH && at <= room && n <= room - at
}

// Keeps the first n records of a list in a room, from number `at` on, and says whether they fit; if not, the room stays as it was.
pub fn keep(list: &[u32], n: usize, room: &mut [Finding], at: usize) -> bool
    ensures { (result ≡ fitting (length list.now) n (length room.old) at) × (room.new ≡ kept_in list.now n room.old at) }
{
    if !fits(list.len(), n, room.len(), at) {
        return false;
    }
    for i in 0..n {
        room[at + i] = list_findings::record_at(list, i * list_findings::WIDTH);
    }
    true
}

// Merges the first n records of a room with the m behind them, into a list.
pub fn merge_parts(room: &[Finding], n: usize, m: usize, out: &mut [u32]) -> Result<usize, Refusal>
    requires { n + m ≤ length room.now }
    ensures { IsMerged (flat (take n room.now)) (flat (take m (drop n room.now))) out.old result out.new }
{
    let end = n + m;
    list_merge::merge(&room[..n], &room[n..end], out)
}
