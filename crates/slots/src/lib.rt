//! The values of a rule's slots (`domains` and `produced` of transfer.rs): rows of lent tables. A value that takes the place of another
//! is complete before the old one is released; whoever lends a table drops its rows.
#![tactic(auto)]

ghost use Rattle.std.specs.Prelude.{◌≡◌};
ghost use Rattle.limits.specs.Metered.{going, answered};
ghost use Rattle.limits.specs.Meter.{released};
ghost use Rattle.limits.specs.Budget as in_budgets;
ghost use Rattle.lattice.specs.Value.{value_of};
ghost use Rattle.rows.specs.Row.{value_at};
ghost use Rattle.rules.specs.Read.{bindings_at};
ghost use Rattle.slots.specs.Lent.{in_budget};
ghost use Rattle.slots.specs.Slots.{slots, total, settled, meet_into, meet_owned, refine_into, after_unit, each, tops, meet_argument, mark_dependent, marked, copies};

use interval::Interval;
use lattice::{Abstract, Widening};
use limits::{Budget, Meter, Stop};
use rules::Binding;

// The values of the first `count` rows are dropped.
pub fn drop_rows(cells: &[u32], count: usize, meter: &mut Meter)
    ensures { meter.new ≡ released (total cells.now count) meter.old }
{
    for k in 0..count {
        meter.release(rows::entries_at(cells, k));
    }
}

// A value takes the place of the old one, which is dropped.
fn settle(cells: &mut [u32], slot: usize, new: Abstract, meter: &mut Meter)
    ensures { going tt (slots meter.new cells.new) ≡ settled slot (value_at cells.old slot) cells.old (going (value_of new) meter.old) }
{
    meter.release(rows::entries_at(cells, slot));
    rows::put_abstract(cells, slot, new);
}

// A slot's value becomes what it has in common with another.
pub fn meet_into(
    cells: &mut [u32],
    constants: &[u32],
    slot: usize,
    value: Abstract,
    meter: &mut Meter,
) -> Result<(), Stop>
    ensures { answered result (slots meter.new cells.new) ≡ meet_into constants.now slot (value_of value) (slots meter.old cells.old) }
{
    let new = rows::abstract_at(cells, slot).meet(constants, value, meter)?;
    settle(cells, slot, new, meter);
    Ok(())
}

// The same with a value in hand, which is dropped on every way out.
pub fn meet_owned(
    cells: &mut [u32],
    constants: &[u32],
    slot: usize,
    value: Abstract,
    meter: &mut Meter,
) -> Result<(), Stop>
    ensures { answered result (slots meter.new cells.new) ≡ meet_owned constants.now slot (value_of value) (slots meter.old cells.old) }
{
    let met = meet_into(cells, constants, slot, value, meter);
    meter.release(rows::entries_of(value));
    met
}

// A slot's value keeps the numbers of an interval alone.
pub fn refine_into(
    cells: &mut [u32],
    constants: &[u32],
    slot: usize,
    interval: Interval,
    meter: &mut Meter,
) -> Result<(), Stop>
    ensures { answered result (slots meter.new cells.new) ≡ refine_into constants.now slot interval (slots meter.old cells.old) }
{
    let new = rows::abstract_at(cells, slot).refine(constants, interval, meter)?;
    settle(cells, slot, new, meter);
    Ok(())
}

// Rows that nothing is known of.
pub fn fill_tops(cells: &mut [u32], count: usize, meter: &mut Meter) -> Result<(), Stop>
    ensures { answered result (slots meter.new cells.new) ≡ tops 0 count (slots meter.old cells.old) }
{
    for k in 0..count {
        meter.work(1)?;
        rows::put_abstract(cells, k, Abstract::top(None));
    }
    Ok(())
}

// A positive binding: its slot meets its argument.
fn meet_argument(
    cells: &mut [u32],
    arguments: &[u32],
    constants: &[u32],
    binding: Binding,
    meter: &mut Meter,
) -> Result<(), Stop>
    ensures { answered result (slots meter.new cells.new) ≡ after_unit (meet_argument constants.now arguments.now binding) (slots meter.old cells.old) }
{
    meter.work(1)?;
    if let Binding::Positive { slot, argument } = binding {
        let value = rows::abstract_at(arguments, argument as usize);
        return meet_into(cells, constants, slot as usize, value, meter);
    }
    Ok(())
}

// The first pass over the bindings of a rule.
pub fn meet_arguments(
    cells: &mut [u32],
    rules: &[u32],
    arguments: &[u32],
    constants: &[u32],
    id: usize,
    meter: &mut Meter,
) -> Result<(), Stop>
    ensures { answered result (slots meter.new cells.new) ≡ each (meet_argument constants.now arguments.now) (bindings_at rules.now id) (slots meter.old cells.old) }
{
    for j in 0..rules::binding_count(rules, id) {
        let binding = rules::binding_at(rules, id, j);
        meet_argument(cells, arguments, constants, binding, meter)?;
    }
    Ok(())
}

// The reason of a slot without a list: it depends on an argument.
fn depend(cells: &mut [u32], slot: usize)
    ensures { cells.new ≡ marked cells.old slot (value_at cells.old slot).values }
{
    let old = rows::abstract_at(cells, slot);
    if old.kept {
        return;
    }
    let reason = Some(Widening::Dependency);
    let value = Abstract {
        kept: false,
        reason,
        ..old
    };
    rows::put_abstract(cells, slot, value);
}

// A positive binding: the reason of its slot.
fn mark_dependent(cells: &mut [u32], binding: Binding, meter: &mut Meter) -> Result<(), Stop>
    ensures { answered result (slots meter.new cells.new) ≡ after_unit (mark_dependent binding) (slots meter.old cells.old) }
{
    meter.work(1)?;
    if let Binding::Positive { slot, argument: _ } = binding {
        depend(cells, slot as usize);
    }
    Ok(())
}

// The second pass over the bindings of a rule.
pub fn mark_dependents(
    cells: &mut [u32],
    rules: &[u32],
    id: usize,
    meter: &mut Meter,
) -> Result<(), Stop>
    ensures { answered result (slots meter.new cells.new) ≡ each mark_dependent (bindings_at rules.now id) (slots meter.old cells.old) }
{
    for j in 0..rules::binding_count(rules, id) {
        mark_dependent(cells, rules::binding_at(rules, id, j), meter)?;
    }
    Ok(())
}

// Copies of the first rows of `domains`; where one is refused, those made so far are dropped.
pub fn copy_rows(
    domains: &[u32],
    produced: &mut [u32],
    count: usize,
    meter: &mut Meter,
) -> Result<(), Stop>
    ensures { answered result (slots meter.new produced.new) ≡ copies domains.now 0 count (slots meter.old produced.old) }
{
    for k in 0..count {
        match rows::abstract_at(domains, k).copied(meter) {
            Ok(copy) => rows::put_abstract(produced, k, copy),
            Err(stop) => {
                drop_rows(produced, k, meter);
                return Err(stop);
            }
        }
    }
    Ok(())
}

// Copies of the first `count` rows, in a budget.
pub fn copy_in(from: &[u32], to: &mut [u32], count: usize, budget: &mut Budget) -> Result<(), Stop>
    ensures { answered result (budget.new, to.new) ≡ in_budget (copies from.now 0 count) (budget.old, to.old) }
{
    let mut meter = budget.meter();
    let copied = copy_rows(from, to, count, &mut meter);
    budget.settle(meter);
    copied
}

// The values of the first `count` rows are dropped, in a budget.
pub fn without_rows(cells: &[u32], count: usize, budget: &mut Budget)
    ensures { budget.new ≡ in_budgets.released (total cells.now count) budget.old }
{
    let mut meter = budget.meter();
    drop_rows(cells, count, &mut meter);
    budget.settle(meter);
}
