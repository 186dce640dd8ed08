//! The values of a rule's slots before guards (`rule` of transfer.rs, as far as the bindings): three passes over the bindings.
#![tactic(auto)]

ghost use Rattle.std.specs.Prelude.{◌≡◌};
ghost use Rattle.limits.specs.Metered.{answered};
ghost use Rattle.lattice.specs.Value.{value_of};
ghost use Rattle.lattice.specs.Answers.{answered_value};
ghost use Rattle.rules.specs.Read.{slots_at, bindings_at};
ghost use Rattle.slots.specs.Slots.{slots, each};
ghost use Rattle.evaluation.specs.Operands.{input_in};
ghost use Rattle.bindings.specs.Bindings.{assigned, aggregate, ranged, meet_binding, three_passes, bind};

use evaluation::{Input, Scene};
use interval::Interval;
use lattice::{Abstract, Widening};
use limits::{Meter, Stop};
use rules::{AggregateFunction, Binding};

// An expression over the slots' values, under no refinement: no guard has been seen yet.
fn assigned(input: &Input, cells: &[u32], id: u64, meter: &mut Meter) -> Result<Abstract, Stop>
    ensures { answered_value result meter.new ≡ assigned (input_in input.now) cells.now id meter.old }
{
    let scene = Scene {
        input: *input,
        slots: cells,
        refinements: &[],
        count: 0,
    };
    scene.expression(id, meter)
}

// The value of a range binding: from the low end of one value to the high end of another. Both are dropped.
fn ranged(
    input: &Input,
    cells: &[u32],
    low: u64,
    high: u64,
    meter: &mut Meter,
) -> Result<Abstract, Stop>
    ensures { answered_value result meter.new ≡ ranged (input_in input.now) cells.now low high meter.old }
{
    let scene = Scene {
        input: *input,
        slots: cells,
        refinements: &[],
        count: 0,
    };
    let (from, to) = scene.both(low, high, meter)?;
    meter.release(to.entries);
    meter.release(from.entries);
    let span = operators::span(from.bound.interval, to.bound.interval);
    Ok(Abstract::numeric(span))
}

fn aggregate(function: AggregateFunction) -> Abstract
    ensures { value_of result ≡ aggregate function }
{
    match function {
        AggregateFunction::Count | AggregateFunction::Sum | AggregateFunction::SumPlus => {
            Abstract::numeric(Interval::Unbounded)
        }
        AggregateFunction::Min | AggregateFunction::Max => Abstract::top(Some(Widening::HeadTerm)),
    }
}

// One binding of the third pass. Each arm ends by itself: out of a `match` that gives slot and value it is not known which value it is.
fn meet_binding(
    input: &Input,
    cells: &mut [u32],
    binding: Binding,
    meter: &mut Meter,
) -> Result<(), Stop>
    ensures { answered result (slots meter.new cells.new) ≡ meet_binding (input_in input.now) binding (slots meter.old cells.old) }
{
    match binding {
        Binding::Positive { .. } => Ok(()),
        Binding::Assign { slot, value } => {
            let value = assigned(input, cells, value, meter)?;
            slots::meet_owned(cells, input.constants, slot as usize, value, meter)
        }
        Binding::Range { slot, low, high } => {
            let value = ranged(input, cells, low, high, meter)?;
            slots::meet_owned(cells, input.constants, slot as usize, value, meter)
        }
        Binding::Aggregate { slot, function } => {
            let value = aggregate(function);
            slots::meet_owned(cells, input.constants, slot as usize, value, meter)
        }
    }
}

// The third pass over the bindings of a rule.
fn meet_bindings(
    input: &Input,
    cells: &mut [u32],
    rules: &[u32],
    id: usize,
    meter: &mut Meter,
) -> Result<(), Stop>
    ensures { answered result (slots meter.new cells.new) ≡ each (meet_binding (input_in input.now)) (bindings_at rules.now id) (slots meter.old cells.old) }
{
    for j in 0..rules::binding_count(rules, id) {
        meter.work(1)?;
        meet_binding(input, cells, rules::binding_at(rules, id, j), meter)?;
    }
    Ok(())
}

// The three passes over the bindings: positive ones, the reasons of their slots, all others.
fn bind_rows(
    input: &Input,
    cells: &mut [u32],
    rules: &[u32],
    arguments: &[u32],
    id: usize,
    meter: &mut Meter,
) -> Result<(), Stop>
    ensures { answered result (slots meter.new cells.new) ≡ three_passes (input_in input.now) arguments.now (bindings_at rules.now id) (slots meter.old cells.old) }
{
    slots::meet_arguments(cells, rules, arguments, input.constants, id, meter)?;
    slots::mark_dependents(cells, rules, id, meter)?;
    meet_bindings(input, cells, rules, id, meter)
}

// The values of a rule's slots before guards. Where it is stopped, all of them are dropped.
pub fn bind(
    input: &Input,
    cells: &mut [u32],
    rules: &[u32],
    arguments: &[u32],
    id: usize,
    meter: &mut Meter,
) -> Result<(), Stop>
    ensures { answered result (slots meter.new cells.new) ≡ bind (input_in input.now) arguments.now (slots_at rules.now id) (bindings_at rules.now id) (slots meter.old cells.old) }
{
    let count = rules::slots_at(rules, id) as usize;
    slots::fill_tops(cells, count, meter)?;
    let bound = bind_rows(input, cells, rules, arguments, id, meter);
    if bound.is_err() {
        slots::drop_rows(cells, count, meter);
    }
    bound
}
