//! Binary search over a table in order, one unit of work for each item that is looked at, and an insertion at the place that it finds.
#![tactic(auto)]

ghost use Rattle.std.specs.Prelude.{◌≡◌, ℕ, ◌<◌, ◌^◌};
ghost use Rattle.integers.specs.Lists.{inserted};
ghost use Rattle.search.specs.Seek.{Computes, Seeks};

use limits::{Meter, Stop};
use std::cmp::Ordering;

// Among `count` items, where `probe` says how an item stands to the one that is sought: the place of an equal item, or where one
// would stand. It halves, so that n turns are enough for less than 2^n items. The place is found first and paid for afterwards, so that the loop
// pays nothing.
pub fn seek<F: Fn(usize) -> Ordering>(
    count: usize,
    probe: F,
    meter: &mut Meter,
) -> Result<Result<usize, usize>, Stop>
    requires { (i : ℕ) → i < count → F.pre probe i }
    ensures { (p : ℕ → Ordering) → Computes (F.post probe) count p → (turns : ℕ) → count < 2 ^ turns → Seeks p turns count result meter.old meter.new }
{
    let mut low = 0;
    let mut high = count;
    let mut looks = 0;
    // A `for` has no step that halves.
    while low < high {
        let middle = low + ((high - low) >> 1);
        looks += 1;
        match probe(middle) {
            Ordering::Less => low = middle + 1,
            Ordering::Equal => {
                meter.units(looks)?;
                return Ok(Ok(middle));
            }
            Ordering::Greater => high = middle,
        }
    }
    meter.units(looks)?;
    Ok(Err(low))
}

// A value at its place; what stood from there up to `count` goes one place up. Nothing is written beyond the table. One item is in hand at a time:
// std's `rotate_right` would have the archive for C ask for one function more of the C library.
pub fn insert<T: Copy>(table: &mut [T], at: usize, count: usize, value: T)
    ensures { table.new ≡ inserted table.old at count value }
{
    if table.len() <= at {
        return;
    }
    let last = count.clamp(at, table.len() - 1);
    let mut carried = value;
    for i in at..last {
        let next = table[i];
        table[i] = carried;
        carried = next;
    }
    table[last] = carried;
}
