//! One round (`round` and `image` of engine.rs): all rules applied to given values, their heads joined into a copy of the seeds. A rule's
//! slots stand in tables of its own application and are dropped with it; where a round is stopped, nothing of its result stays live.
#![tactic(auto)]

ghost use Rattle.std.specs.Prelude.{ℕ, List, ◌≡◌, ◌*◌, length};
ghost use Rattle.sizes.specs.Sizes as size;
ghost use Rattle.limits.specs.declared.Stop.{Stop};
ghost use Rattle.limits.specs.Metered.{Metered, answered};
ghost use Rattle.lattice.specs.Value.{value_of};
ghost use Rattle.slots.specs.Slots.{Slots, slots, replace, after_unit, each};
ghost use Rattle.lattice.specs.Lattice.{join};
ghost use Rattle.refinements.specs.Refinement.{refinements_of};
ghost use Rattle.evaluation.specs.Operands.{input_in};
ghost use Rattle.transfer.specs.Transfer.{frame};
ghost use Rattle.rounds.specs.Locals.{Locals, fill, drop_locals, with_locals};
ghost use Rattle.rounds.specs.Round.{Given, standing, join_owned, join_head, each_rule, produce, image, candidates_of, candidates};
ghost use Rattle.rounds.specs.Lent.{given_in, locals_in, joining};

use evaluation::Input;
use lattice::Abstract;
use limits::{Budget, Meter, Resource, Stop};
use rules::Head;

// What a run is given: what it reads, the rules that it applies, and the seeds of its arguments. Counts stand beside tables, which have one size.
#[derive(Clone, Copy)]
pub struct Given<'a> {
    pub input: Input<'a>,
    pub rules: &'a [u32],
    pub count: usize,
    pub seeds: &'a [u32],
    pub positions: usize,
}

// What goes along with a run: the counts, and the context in force.
#[derive(Clone, Copy, Debug, PartialEq, Eq)]
pub struct Course {
    pub budget: Budget,
    pub context: Option<u32>,
}

// A rule's slots before guards and after them, and what its guards have recorded.
#[derive(Clone, Copy)]
pub struct Locals<'a> {
    pub domains: &'a [u32],
    pub produced: &'a [u32],
    pub refinements: &'a [u32],
    pub recorded: usize,
}

// What a walk over the rules does with each one's slots while they are live.
pub trait Task {
    ghost does: { Self → Given → ℕ → Locals → Metered Stop Slots (Unit {0}) };

    fn apply(
        &self,
        given: &Given,
        locals: &Locals,
        table: &mut [u32],
        id: usize,
        meter: &mut Meter,
    ) -> Result<(), Stop>
        ensures { answered result (slots meter.new table.new) ≡ does self.now (given_in given.now) id (locals_in locals.now) (slots meter.old table.old) };
}

// Into tables that are lent: the slots of one rule, a unit of work before them.
pub fn fill(
    input: &Input,
    rules: &[u32],
    arguments: &[u32],
    domains: &mut [u32],
    produced: &mut [u32],
    refinements: &mut [u32],
    id: usize,
    meter: &mut Meter,
) -> Result<usize, Stop>
    ensures { answered result (frame meter.new domains.new produced.new refinements.new) ≡ fill (input_in input.now) rules.now id arguments.now (frame meter.old domains.old produced.old refinements.old) }
{
    meter.work(1)?;
    transfer::rule(
        input,
        rules,
        arguments,
        domains,
        produced,
        refinements,
        id,
        meter,
    )
}

// The slots of a rule are dropped, whichever way its use has ended.
pub fn drop_locals(domains: &[u32], produced: &[u32], count: usize, meter: &mut Meter)
    ensures { (rows : List ℕ) → slots meter.new rows ≡ drop_locals count domains.now produced.now (slots meter.old rows) }
{
    slots::drop_rows(produced, count, meter);
    slots::drop_rows(domains, count, meter);
}

// One rule of a walk: its slots, and what is done with them. They stand in as many of the lent cells as the rule has slots, whatever the cells
// held, and are dropped whichever way that ends.
fn with_locals<T: Task>(
    task: &T,
    given: &Given,
    arguments: &[u32],
    table: &mut [u32],
    scratch: &mut [u32],
    id: usize,
    meter: &mut Meter,
) -> Result<(), Stop>
    requires { length scratch.old ≡ size.local_cells }
    ensures { answered result (slots meter.new table.new) ≡ with_locals (input_in given.now.input) given.now.rules.now id arguments.now (T.does task.now (given_in given.now) id) (slots meter.old table.old) }
{
    let count = rules::slots_at(given.rules, id) as usize;
    let (refinements, rest) = scratch.split_at_mut(sizes::REFINEMENT_CELLS);
    let (domains, rest) = rest.split_at_mut(sizes::VALUE_ROW * count);
    let (produced, _) = rest.split_at_mut(sizes::VALUE_ROW * count);
    // Their number shows once more, for the compiler: it then knows it in the search through them.
    let refinements = &mut refinements[..sizes::REFINEMENT_CELLS];
    let recorded = fill(
        &given.input,
        given.rules,
        arguments,
        domains,
        produced,
        refinements,
        id,
        meter,
    )?;
    let locals = Locals {
        domains,
        produced,
        refinements,
        recorded,
    };
    let done = task.apply(given, &locals, table, id, meter);
    drop_locals(domains, produced, count, meter);
    done
}

// A walk over the rules, in order; each sets the context in force before its first charge.
pub fn each_rule<T: Task>(
    task: &T,
    given: &Given,
    arguments: &[u32],
    table: &mut [u32],
    scratch: &mut [u32],
    course: &mut Course,
) -> Result<(), Stop>
    requires { length scratch.old ≡ size.local_cells }
    ensures { answered result (standing course.new.budget course.new.context table.new) ≡ each_rule given.now.rules.now (λ id. with_locals (input_in given.now.input) given.now.rules.now id arguments.now (T.does task.now (given_in given.now) id)) 0 given.now.count (standing course.old.budget course.old.context table.old) }
{
    for id in 0..given.count {
        course.context = rules::context_at(given.rules, id);
        let mut meter = course.budget.meter();
        let done = with_locals(task, given, arguments, table, scratch, id, &mut meter);
        course.budget.settle(meter);
        done?;
    }
    Ok(())
}

// A value becomes part of a row: what was there is dropped.
fn join_into(
    res: &mut [u32],
    row: usize,
    value: Abstract,
    width: u64,
    meter: &mut Meter,
) -> Result<(), Stop>
    ensures { answered result (slots meter.new res.new) ≡ replace row (λ old. join width old (value_of value)) (slots meter.old res.old) }
{
    let old = rows::abstract_at(res, row);
    let new = old.join(value, width, meter)?;
    meter.release(rows::entries_of(old));
    rows::put_abstract(res, row, new);
    Ok(())
}

// The same with a value in hand, which is dropped on every way out.
fn join_owned(
    res: &mut [u32],
    row: usize,
    value: Abstract,
    width: u64,
    meter: &mut Meter,
) -> Result<(), Stop>
    ensures { answered result (slots meter.new res.new) ≡ join_owned width row (value_of value) (slots meter.old res.old) }
{
    let joined = join_into(res, row, value, width, meter);
    meter.release(rows::entries_of(value));
    joined
}

// One head: a unit of work, its value, and the join.
fn join_head(
    input: &Input,
    locals: &Locals,
    res: &mut [u32],
    head: Head,
    meter: &mut Meter,
) -> Result<(), Stop>
    ensures { answered result (slots meter.new res.new) ≡ after_unit (join_head (input_in input.now) locals.now.produced.now (refinements_of locals.now.refinements.now locals.now.recorded) head) (slots meter.old res.old) }
{
    meter.work(1)?;
    let value = transfer::head(
        input,
        locals.produced,
        locals.refinements,
        locals.recorded,
        head.value,
        meter,
    )?;
    join_owned(res, head.argument as usize, value, input.width, meter)
}

// The task of a round: a rule's heads join the result, in order.
#[derive(Clone, Copy)]
struct Joining;

impl Task for Joining {
    ghost use Rattle.rounds.specs.Lent.{joining};

    ghost does = { joining };

    fn apply(
        &self,
        given: &Given,
        locals: &Locals,
        table: &mut [u32],
        id: usize,
        meter: &mut Meter,
    ) -> Result<(), Stop> {
        for j in 0..rules::head_count(given.rules, id) {
            let head = rules::head_at(given.rules, id, j);
            join_head(&given.input, locals, table, head, meter)?;
        }
        Ok(())
    }
}

// The rules' heads, joined into a copy of the seeds.
fn produce(
    given: &Given,
    previous: &[u32],
    res: &mut [u32],
    scratch: &mut [u32],
    course: &mut Course,
) -> Result<(), Stop>
    requires { length scratch.old ≡ size.local_cells }
    ensures { answered result (standing course.new.budget course.new.context res.new) ≡ produce (given_in given.now) previous.now (standing course.old.budget course.old.context res.old) }
{
    slots::copy_in(given.seeds, res, given.positions, &mut course.budget)?;
    let joined = each_rule(&Joining, given, previous, res, scratch, course);
    if joined.is_err() {
        slots::without_rows(res, given.positions, &mut course.budget);
    }
    joined
}

// One round: the rules applied to the previous values, in a lent table of as many rows as there are arguments. What it makes is the same
// whatever the table held. A refused round wipes nothing: the table stays as it was where the round itself is refused, and else holds what
// was written before the refusal, the copied seeds and the joined heads.
pub fn image(
    given: &Given,
    previous: &[u32],
    res: &mut [u32],
    scratch: &mut [u32],
    course: &mut Course,
) -> Result<(), Stop>
    requires { (length res.old ≡ size.value_row * given.now.positions) × (length scratch.old ≡ size.local_cells) }
    ensures made { candidates_of (answered result (standing course.new.budget course.new.context res.new)) ≡ candidates (given_in given.now) previous.now course.old }
    ensures left { answered result (standing course.new.budget course.new.context res.new) ≡ image (given_in given.now) previous.now (standing course.old.budget course.old.context res.old) }
{
    course.budget.pay(Resource::Rounds, 1)?;
    produce(given, previous, res, scratch, course)
}
