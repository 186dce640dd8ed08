//! `seed_value` and `seed_interval` (input.rs): a value is joined into the seed of an argument. Whoever makes a list releases its entries
//! on every way out, and an argument that loses its list is counted as widened.
#![tactic(auto)]

ghost use Rattle.std.specs.Prelude.{◌≡◌, ◌+◌, ◌≤◌, length};
ghost use Rattle.lattice.specs.Lattice.{loses};
ghost use Rattle.limits.specs.Refusal.{replied};
ghost use Rattle.limits.specs.Metered.{seen};
ghost use Rattle.lattice.specs.Value.{value_of};
ghost use Rattle.store.specs.Calls.{marks};
ghost use Rattle.seeds.specs.Seed.{dropped, joined, rows, seed, constant_value, seed_constant, sized, spacious, tables, marking, ends, seed_ends, interval_tables, seed_value_call, seed_interval_call};

use interval::Interval;
use lattice::Abstract;
use limits::{Budget, Refusal, Resource, Stop};
use store::{Kind, Store};

// What is left after a join: the old seed and the value are dropped.
fn drop_both(old: Abstract, value: Abstract, new: Abstract, budget: &mut Budget)
    ensures { budget.new ≡ dropped (value_of old) (value_of value) (value_of new) budget.old }
{
    if lattice::is_lost(&old, &new) {
        budget.count_widened();
    }
    budget.release_entries(rows::entries_of(old) + rows::entries_of(value));
}

// The old seed joined with a value, which is dropped on every way out.
fn join_seed(old: Abstract, value: Abstract, budget: &mut Budget) -> Result<Abstract, Stop>
    ensures { seen value_of result budget.new ≡ joined (value_of old) (value_of value) budget.old }
{
    let held = rows::entries_of(value);
    let mut meter = budget.meter();
    let answer = old.join(value, budget.limits.width, &mut meter);
    let joined = meter.holding(held, answer);
    budget.settle(meter);
    let new = joined?;
    drop_both(old, value, new, budget);
    Ok(new)
}

// A value becomes part of the seed of an argument.
fn seed(
    store: &mut Store,
    seeds: &mut [u32],
    argument: usize,
    value: Abstract,
) -> Result<(), Refusal>
    ensures { replied result (rows store.new seeds.new) ≡ seed argument (value_of value) (rows store.old seeds.old) }
{
    let old = rows::abstract_at(seeds, argument);
    let new = join_seed(old, value, &mut store.budget)?;
    rows::put_abstract(seeds, argument, new);
    Ok(())
}

// The value of a constant.
fn constant_value(constants: &[u32], id: u16, budget: &mut Budget) -> Result<Abstract, Stop>
    ensures { seen value_of result budget.new ≡ constant_value constants.now id budget.old }
{
    let key = lattice::constant_at(constants, id);
    let mut meter = budget.meter();
    let value = Abstract::constant(id, key, budget.limits.width, &mut meter);
    budget.settle(meter);
    value
}

// A constant becomes part of the seed of an argument.
fn seed_constant(
    store: &mut Store,
    constants: &[u32],
    seeds: &mut [u32],
    argument: usize,
    id: u16,
) -> Result<(), Refusal>
    ensures { replied result (rows store.new seeds.new) ≡ seed_constant constants.now argument id (rows store.old seeds.old) }
{
    let value = constant_value(constants, id, &mut store.budget)?;
    seed(store, seeds, argument, value)
}

// The sizes of the tables that both calls are lent.
fn is_sized(seeds: usize, records: usize) -> bool
    ensures { result ≡ sized seeds records }
{
    seeds == sizes::ARGUMENT_CELLS && records == sizes::RECORD_CELLS
}

// Whether the tables have the rows that the header counts, and room for what a call records.
fn has_room(store: &Store) -> bool
    ensures { result ≡ spacious store.now }
{
    store.counts.positions <= sizes::POSITIONS
        && provenance::is_recordable(store.context, store.counts.provenance)
}

// A constant is seeded to an argument. Nothing is answered.
// Refused by 1, tables of other sizes, a store that is not open; 2, no room; 3; 5, no such constant, then no such argument; 8; then 9 and 3.
// Charges a unit of work; a link for a record of the context, if one is set; the value's entry and its join with the seed.
#[tactic(auto, unfolding(crate::specs::Seed::seed_value_call))]
pub fn seed_value(
    store: &mut Store,
    constants: &[u32],
    seeds: &mut [u32],
    records: &mut [u32],
    argument: u64,
    value: u64,
) -> Result<(), Refusal>
    ensures { replied result (tables store.new seeds.new records.new) ≡ seed_value_call constants.now argument value (tables store.old seeds.old records.old) }
{
    if constants.len() != sizes::CONSTANT_CELLS || !is_sized(seeds.len(), records.len()) {
        return Err(Refusal::Shape);
    }
    if !store.phase.admits(Kind::Feeding) {
        return Err(Refusal::Closed);
    }
    if sizes::CONSTANTS < store.counts.constants || !has_room(store) {
        return Err(Refusal::Full);
    }
    store.pay(Resource::Work, 1)?;
    if store.counts.constants as u64 <= value {
        return Err(Refusal::Missing);
    }
    provenance::provenance(store, records, argument)?;
    seed_constant(store, constants, seeds, argument as usize, value as u16)
}

// The thresholds of an interval's ends.
fn mark_ends(store: &mut Store, thresholds: &mut [i32], low: i32, high: i32) -> Result<(), Refusal>
    requires { store.old.counts.thresholds + 6 ≤ length thresholds.old }
    ensures { replied result (marks store.new thresholds.new) ≡ marking low high (marks store.old thresholds.old) }
{
    store.enter(thresholds, low)?;
    store.enter(thresholds, high)
}

// An interval becomes part of the seed of an argument, its thresholds first.
fn seed_ends(
    store: &mut Store,
    seeds: &mut [u32],
    thresholds: &mut [i32],
    argument: usize,
    low: i32,
    high: i32,
) -> Result<(), Refusal>
    requires { store.old.counts.thresholds + 6 ≤ length thresholds.old }
    ensures { replied result (ends store.new seeds.new thresholds.new) ≡ seed_ends argument low high (ends store.old seeds.old thresholds.old) }
{
    mark_ends(store, thresholds, low, high)?;
    let value = Abstract::numeric(Interval::Bounded { low, high });
    seed(store, seeds, argument, value)
}

// An interval is seeded to an argument. Nothing is answered.
// Refused by 1, tables of other sizes, a store that is not open; 2, no room; 3; 13, low exceeds high; 5, no such argument; 8; then 3 and 8.
// Charges a unit of work; a link for a record of the context, if one is set; the thresholds of both ends; the join with the seed.
#[tactic(auto, unfolding(crate::specs::Seed::seed_interval_call))]
pub fn seed_interval(
    store: &mut Store,
    seeds: &mut [u32],
    records: &mut [u32],
    thresholds: &mut [i32],
    argument: u64,
    low: i32,
    high: i32,
) -> Result<(), Refusal>
    ensures { replied result (interval_tables store.new seeds.new records.new thresholds.new) ≡ seed_interval_call argument low high (interval_tables store.old seeds.old records.old thresholds.old) }
{
    if thresholds.len() != sizes::THRESHOLDS || !is_sized(seeds.len(), records.len()) {
        return Err(Refusal::Shape);
    }
    if !store.phase.admits(Kind::Feeding) {
        return Err(Refusal::Closed);
    }
    if sizes::THRESHOLDS_BEFORE_CALL < store.counts.thresholds || !has_room(store) {
        return Err(Refusal::Full);
    }
    store.pay(Resource::Work, 1)?;
    if high < low {
        return Err(Refusal::Descending);
    }
    provenance::provenance(store, records, argument)?;
    seed_ends(store, seeds, thresholds, argument as usize, low, high)
}
