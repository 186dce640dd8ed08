//! The end of a run (engine.rs): the last round, the bounds of the rules' slots before and after guards, and the closing charge. The
//! bounds go into a table that the caller keeps until the last charge is accepted.
#![tactic(auto)]

ghost use Rattle.std.specs.Prelude.{◌≡◌, ◌<◌, ◌≤◌, length};
ghost use Rattle.sizes.specs.Sizes as size;
ghost use Rattle.limits.specs.Metered.{answered};
ghost use Rattle.slots.specs.Slots.{slots};
ghost use Rattle.rounds.specs.Round.{standing};
ghost use Rattle.rounds.specs.Lent.{given_in};
ghost use Rattle.evaluation.specs.Operands.{input_in};
ghost use Rattle.results.specs.Result.{bound_place, put_bound, keep_bounds, keep_both, close, ending, last_round, last};

use interval::Bound;
use limits::{Meter, Resource, Stop};
use rounds::{Course, Given, Locals, Task};
use sizes::{BOUND_ROW, BOUNDS_ROW, SLOT_ROW};

// Where the bound of a slot stands, before guards or after them. The caller has tested that there are such a rule and such a slot.
pub fn bound_place(rule: usize, slot: usize, after: bool) -> usize
    requires { (rule < size.rules) × (slot < size.slots) }
    ensures { result ≡ bound_place rule slot after }
{
    let at = BOUNDS_ROW * rule + SLOT_ROW * slot;
    if after { at + BOUND_ROW } else { at }
}

// A bound of a rule's slot, before guards or after them.
fn put_bound(cells: &mut [u32], id: usize, slot: usize, after: bool, bound: Bound)
    ensures { cells.new ≡ put_bound cells.old id slot after bound }
{
    if sizes::RULES <= id || sizes::SLOTS <= slot {
        return;
    }
    let at = bound_place(id, slot, after);
    cells::put_cell(cells, at, rows::integrality_cell(bound.integrality));
    cells::put_cell(cells, at + 1, rows::case_cell(bound.interval));
    cells::put_cell(cells, at + 2, rows::low_cell(bound.interval));
    cells::put_cell(cells, at + 3, rows::high_cell(bound.interval));
}

// The bounds of a rule's slots, a unit of work before each.
fn keep_bounds(
    values: &[u32],
    count: usize,
    bounds: &mut [u32],
    id: usize,
    after: bool,
    meter: &mut Meter,
) -> Result<(), Stop>
    ensures { answered result (slots meter.new bounds.new) ≡ keep_bounds values.now id after 0 count (slots meter.old bounds.old) }
{
    for slot in 0..count {
        meter.work(1)?;
        put_bound(bounds, id, slot, after, rows::bound_at(values, slot));
    }
    Ok(())
}

// Both bounds of each slot: all before guards, then all after them.
fn keep_both(
    locals: &Locals,
    bounds: &mut [u32],
    count: usize,
    id: usize,
    meter: &mut Meter,
) -> Result<(), Stop>
    ensures { answered result (slots meter.new bounds.new) ≡ keep_both locals.now.domains.now locals.now.produced.now count id (slots meter.old bounds.old) }
{
    keep_bounds(locals.domains, count, bounds, id, false, meter)?;
    keep_bounds(locals.produced, count, bounds, id, true, meter)
}

// The task of the result: the bounds of a rule's slots.
#[derive(Clone, Copy)]
struct Bounding;

impl Task for Bounding {
    ghost use Rattle.results.specs.Lent.{bounding};

    ghost does = { bounding };

    fn apply(
        &self,
        given: &Given,
        locals: &Locals,
        table: &mut [u32],
        id: usize,
        meter: &mut Meter,
    ) -> Result<(), Stop> {
        let count = rules::slots_at(given.rules, id) as usize;
        keep_both(locals, table, count, id, meter)
    }
}

// What the result is charged for: the bounds of the rules' slots, and a unit of work for each argument.
pub fn close(
    given: &Given,
    current: &[u32],
    bounds: &mut [u32],
    scratch: &mut [u32],
    course: &mut Course,
) -> Result<(), Stop>
    requires { length scratch.old ≡ size.local_cells }
    ensures { answered result (standing course.new.budget course.new.context bounds.new) ≡ close (input_in given.now.input) given.now.rules.now given.now.count given.now.positions current.now (standing course.old.budget course.old.context bounds.old) }
{
    rounds::each_rule(&Bounding, given, current, bounds, scratch, course)?;
    course.budget.pay(Resource::Work, given.positions as u64)
}

// The last round takes the place of the current values.
fn last_round(
    given: &Given,
    current: &mut [u32],
    scratch: &mut [u32],
    course: &mut Course,
) -> Result<(), Stop>
    requires { (given.now.positions ≤ size.positions) × (length scratch.old ≡ size.pass_cells) }
    ensures { answered result (standing course.new.budget course.new.context current.new) ≡ last_round (given_in given.now) (standing course.old.budget course.old.context current.old) }
{
    let (scratch, rest) = scratch.split_at_mut(sizes::LOCAL_CELLS);
    let (result, _) = rest.split_at_mut(sizes::VALUE_ROW * given.positions);
    rounds::image(given, current, result, scratch, course)?;
    slots::without_rows(current, given.positions, &mut course.budget);
    rows::move_rows(result, current, given.positions);
    Ok(())
}

// The last round, the bounds of the rules' slots, and the closing charge. Where it is stopped, the current values are still live.
pub fn last(
    given: &Given,
    current: &mut [u32],
    bounds: &mut [u32],
    scratch: &mut [u32],
    course: &mut Course,
) -> Result<(), Stop>
    requires { (given.now.positions ≤ size.positions) × (length scratch.old ≡ size.pass_cells) }
    ensures { answered result (ending course.new.budget course.new.context current.new bounds.new) ≡ last (given_in given.now) (ending course.old.budget course.old.context current.old bounds.old) }
{
    last_round(given, current, scratch, course)?;
    let (scratch, _) = scratch.split_at_mut(sizes::LOCAL_CELLS);
    close(given, current, bounds, scratch, course)
}
