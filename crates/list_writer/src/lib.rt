// The findings list: a lent run of 32-bit numbers that is filled from its front, one record at a time.
#![tactic(auto)]

ghost use Rattle.std.specs.Prelude.{◌≡◌};
ghost use Rattle.list_writer.specs.Listed.{list_after, count_after, appended};

use list_findings::Finding;

// The lent list, and how many records are filled.
#[derive(Drop)]
pub struct Listing<'a> {
    pub list: &'a mut [u32],
    pub count: usize,
}

// A lent list of which `count` records are filled.
pub fn hold<'a>(list: &'a mut [u32], count: usize) -> Listing<'a>
    ensures { (result.list ≡ list.entry) × (result.count ≡ count) }
{
    Listing { list, count }
}

// Stores a record behind `count` records if there is room, and says how many records there are then.
fn place(list: &mut [u32], count: usize, finding: Finding) -> usize
    ensures { (result ≡ count_after list.old count) × (list.new ≡ list_after list.old count finding) }
{
    if list.len() / list_findings::WIDTH <= count {
        return count;
    }
    list_findings::put(list, count * list_findings::WIDTH, finding);
    count + 1
}

// Appends a record if there is room. The struct is taken apart, and put together again with the new count.
pub fn append<'a>(listing: Listing<'a>, finding: Finding) -> Listing<'a>
    ensures { result ≡ appended listing.entry finding }
{
    let count = listing.count;
    let next = place(&mut *listing.list, count, finding);
    Listing {
        list: listing.list,
        count: next,
    }
}

// Holds a list of which `count` records are filled, and appends a record. What it returns holds the same borrow, so whoever lets go of
// it knows the list.
fn append_to<'a>(list: &'a mut [u32], count: usize, finding: Finding) -> Listing<'a>
    ensures { result ≡ appended (record { list = list.entry; count = count }) finding }
{
    append(hold(list, count), finding)
}

// The same of a list and a count, for callers that have no `Listing`.
pub fn append_at(list: &mut [u32], count: usize, finding: Finding) -> usize
    ensures { (result ≡ count_after list.old count) × (list.new ≡ list_after list.old count finding) }
{
    let listing = append_to(list, count, finding);
    listing.count
}
