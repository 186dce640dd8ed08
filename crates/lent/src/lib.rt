//! The thin layer that changes lent counts in place, which 01 names ("Form by location"): each function works the new count out by value and
//! stores it. `Budget` has the same charges for the store and the run, which have its limits beside the counts.
#![tactic(auto)]

ghost use Rattle.std.specs.Prelude.{◌≡◌};
ghost use Rattle.limits.specs.Budget.{charge, released, widened_once};
ghost use Rattle.limits.specs.Metered.{answered};
ghost use Rattle.lent.specs.Lent.{budget_of, After};

use limits::{Limits, Resource, Statistics, Stop};

// `count` live entries fewer.
pub fn release(count: u64, statistics: &mut Statistics)
    ensures { After (released count) statistics.old statistics.new }
{
    statistics.entries = limits::release(statistics.entries, count);
}

// One argument more has lost its list.
pub fn widen(statistics: &mut Statistics)
    ensures { After widened_once statistics.old statistics.new }
{
    statistics.widened = statistics.widened.saturating_add(1);
}

// A charge of one count. A refused one changes nothing.
pub fn charge(
    resource: Resource,
    amount: u64,
    statistics: &mut Statistics,
    limits: Limits,
) -> Result<(), Stop>
    ensures { answered result (budget_of limits statistics.new) ≡ charge resource amount (budget_of limits statistics.old) }
{
    let count = limits::charge(
        resource,
        statistics.of(resource),
        amount,
        limits.of(resource),
    )?;
    *statistics = statistics.with(resource, count);
    Ok(())
}
