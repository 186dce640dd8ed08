//! Thresholds (`threshold` and `thresholds` of numeric/input.rs): the numbers at which bounds are widened, in a lent table, sorted.
#![tactic(auto)]

ghost use Rattle.std.specs.Prelude.{◌≡◌, ◌+◌, ◌≤◌, ◌<◌, length};
ghost use Rattle.thresholds.specs.Optional.{enter_some};
ghost use Rattle.limits.specs.Metered.{answered};
ghost use Rattle.thresholds.specs.Thresholds.{entry, seek_number, cost, enter, around};

use limits::{Budget, Meter, Resource, Stop};

// The place of a number among the first `count` cells, or where it would stand.
fn seek_number(
    table: &[i32],
    count: usize,
    value: i32,
    meter: &mut Meter,
) -> Result<Result<usize, usize>, Stop>
    requires { count ≤ length table.now }
    ensures { answered result meter.new ≡ seek_number table.now count value meter.old }
{
    search::seek(count, |i| table[i].cmp(&value), meter)
}

// What a new threshold costs: the cells that move and its own, and a link.
fn pay(cells: u64, budget: &mut Budget) -> Result<(), Stop>
    ensures { answered result budget.new ≡ cost cells budget.old }
{
    budget.pay(Resource::Work, cells)?;
    budget.pay(Resource::Links, 1)
}

// `threshold`: the value stands in the table once, in its place.
pub fn enter(
    table: &mut [i32],
    count: &mut usize,
    value: i32,
    budget: &mut Budget,
) -> Result<(), Stop>
    requires { count.old < length table.old }
    ensures { answered result (entry budget.new count.new table.new) ≡ enter value (entry budget.old count.old table.old) }
{
    let mut meter = budget.meter();
    let sought = seek_number(table, *count, value, &mut meter);
    budget.settle(meter);
    if let Err(place) = sought? {
        pay((*count - place + 1) as u64, budget)?;
        search::insert(table, place, *count, value);
        *count += 1;
    }
    Ok(())
}

// A neighbour is entered where it fits 32 bits.
fn enter_some(
    table: &mut [i32],
    count: &mut usize,
    value: Option<i32>,
    budget: &mut Budget,
) -> Result<(), Stop>
    requires { count.old < length table.old }
    ensures { answered result (entry budget.new count.new table.new) ≡ enter_some value (entry budget.old count.old table.old) }
{
    match value {
        Some(value) => enter(table, count, value, budget),
        None => Ok(()),
    }
}

// `thresholds`: the value and its neighbours. One that needs more than 32 bits is passed over.
pub fn enter_around(
    table: &mut [i32],
    count: &mut usize,
    value: i32,
    budget: &mut Budget,
) -> Result<(), Stop>
    requires { count.old + 3 ≤ length table.old }
    ensures { answered result (entry budget.new count.new table.new) ≡ around value (entry budget.old count.old table.old) }
{
    enter_some(table, count, value.checked_sub(1), budget)?;
    enter(table, count, value, budget)?;
    enter_some(table, count, value.checked_add(1), budget)
}
