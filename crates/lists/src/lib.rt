//! Lists of at most 16 constant ids, strictly increasing: slices where they are read, an array and a length where one is made.
//! Their union, whether one has an id, and the charge of their entries (`push`, `permits` and the loops of `join` and `same` of
//! lattice.rs).
#![tactic(auto)]

ghost use Rattle.std.specs.Prelude.{◌≡◌, ◌+◌, ◌≤◌, [], length};
ghost use Rattle.integers.specs.Lists.{Increasing};
ghost use Rattle.sizes.specs.Sizes as size;
ghost use Rattle.limits.specs.Metered.{answered, seen};
ghost use Rattle.lists.specs.Lists.{union, push, retain_all, take_one, collect, list_turns, permits_in, Tells, same_ids};
ghost use Rattle.lists.specs.Ids.{next_of, past, merged};

use limits::{Meter, Stop};

mod ids;

pub use ids::Ids;

// One live entry more of a list that has `held`, which are released where it is refused.
pub fn retain_one(held: u64, meter: &mut Meter) -> Result<(), Stop>
    ensures { answered result meter.new ≡ push held meter.old }
{
    let charge = meter.retain(1);
    meter.holding(held, charge)
}

// All entries of a list, one by one.
pub fn retain_all(count: u64, meter: &mut Meter) -> Result<(), Stop>
    ensures { answered result meter.new ≡ retain_all 0 count meter.old }
{
    for held in 0..count {
        retain_one(held, meter)?;
    }
    Ok(())
}

// One step of a merge: whether one more id fits the width, and the array.
fn take_one(width: u64, held: u64, meter: &mut Meter) -> Result<bool, Stop>
    ensures { answered result meter.new ≡ take_one width held meter.old }
{
    let step = meter.work(1);
    meter.holding(held, step)?;
    if width.min(sizes::WIDTH as u64) <= held {
        meter.release(held);
        return Ok(false);
    }
    retain_one(held, meter)?;
    Ok(true)
}

// The first id of the union of two lists.
fn next_id(left: &[u16], right: &[u16]) -> Option<u16>
    ensures { result ≡ next_of left.now right.now }
{
    match (left, right) {
        ([x, ..], [y, ..]) => Some((*x).min(*y)),
        ([x, ..], []) => Some(*x),
        ([], [y, ..]) => Some(*y),
        ([], []) => None,
    }
}

// What is left of a list once the union has its first ids up to this one.
fn behind(ids: &[u16], id: u16) -> &[u16]
    ensures { result.now ≡ past id ids.now }
{
    match ids {
        [first, rest @ ..] if *first == id => rest,
        _ => ids,
    }
}

// The union of two lists, each step and each entry charged; none where it does not fit the width.
pub fn merge(
    left: &[u16],
    right: &[u16],
    width: u64,
    meter: &mut Meter,
) -> Result<Option<Ids>, Stop>
    ensures { seen merged result meter.new ≡ collect width [] (union left.now right.now) meter.old }
{
    let mut list = Ids::new();
    let mut left = left;
    let mut right = right;
    // From both lists at once, which no iterator of std is.
    while let Some(id) = next_id(left, right) {
        if !take_one(width, list.len() as u64, meter)? {
            return Ok(None);
        }
        list.push(id);
        left = behind(left, id);
        right = behind(right, id);
    }
    Ok(Some(list))
}

// Whether a list has an id: a binary search, at most 5 ids of which are looked at. On a list in order it says yes exactly for an id in the list; on
// any list it answers and charges as a search that may look at all ids.
pub fn permits_id(ids: &[u16], id: u16, meter: &mut Meter) -> Result<bool, Stop>
    requires { length ids.now ≤ size.width }
    ensures is { answered result meter.new ≡ permits_in list_turns ids.now id meter.old }
    ensures tells { Increasing ids.now → Tells ids.now id result }
    ensures looks { meter.new.work ≤ meter.old.work + list_turns }
    ensures whole { answered result meter.new ≡ permits_in (length ids.now) ids.now id meter.old }
{
    let place = search::seek(ids.len(), |i| ids[i].cmp(&id), meter)?;
    Ok(place.is_ok())
}

// Whether two lists are the same as far as the shorter one goes.
pub fn same_ids(left: &[u16], right: &[u16], meter: &mut Meter) -> Result<bool, Stop>
    ensures { answered result meter.new ≡ same_ids left.now right.now meter.old }
{
    for (x, y) in left.iter().zip(right) {
        meter.work(1)?;
        if x != y {
            return Ok(false);
        }
    }
    Ok(true)
}
