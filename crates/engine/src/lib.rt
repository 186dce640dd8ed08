//! The run (engine.rs): it begins with the seeds, passes until one changes nothing, and ends with a last round. The tables that it works in are
//! the caller's, cut to the rows of the store; the result tables are written once, after the last thing that can be refused. Tables that are
//! written stay parameters, since a struct of `&mut` would have each function promise which tables its fields still are.
#![tactic(auto)]

ghost use Rattle.std.specs.Prelude.{ℕ, ℤ, List, ◌≡◌, ◌+◌, ◌≤◌, length};
ghost use Rattle.std.proofs.lemmas.List.Edits.{sets};
ghost use Rattle.sizes.specs.Sizes as size;
ghost use Rattle.limits.specs.Metered.{answered};
ghost use Rattle.limits.specs.Refusal.{replied};
ghost use Rattle.rows.specs.Row.{padded};
ghost use Rattle.thresholds.specs.Thresholds.{entry};
ghost use Rattle.rounds.specs.Lent.{given_in};
ghost use Rattle.rounds.specs.Round as round;
ghost use Rattle.engine.specs.Run.{enter_ends, start, seeded, beginning, begin, progress, ascend_and_end, finish};
ghost use Rattle.engine.specs.Call.{read, tables, sized, results_sized, spacious, given_of, ended_in, concluded, ran_on, run_call, Working, working, working_sized, values_left, run_leaves};
ghost use Rattle.engine.specs.Lent.{fitting};

use evaluation::Input;
use limits::{Budget, Refusal, Resource, Stop};
use rounds::{Course, Given};
use store::{Counts, Kind, Phase, Store};

// Both ends of 32 bits become thresholds (`complete_thresholds`).
fn enter_ends(table: &mut [i32], count: &mut usize, budget: &mut Budget) -> Result<(), Stop>
    requires { count.old + 2 ≤ length table.old }
    ensures { answered result (entry budget.new count.new table.new) ≡ enter_ends (entry budget.old count.old table.old) }
{
    thresholds::enter(table, count, i32::MIN, budget)?;
    thresholds::enter(table, count, i32::MAX, budget)
}

// The seeds are copied, and the growth of each argument is charged and cleared.
fn seed(
    seeds: &[u32],
    positions: usize,
    current: &mut [u32],
    growth: &mut [u32],
    budget: &mut Budget,
) -> Result<(), Stop>
    ensures { answered result (start budget.new current.new growth.new) ≡ seeded seeds.now positions (start budget.old current.old growth.old) }
{
    slots::copy_in(seeds, current, positions, budget)?;
    if let Err(stop) = budget.pay(Resource::Work, positions as u64) {
        slots::without_rows(current, positions, budget);
        return Err(stop);
    }
    widening::clear_growth(growth, positions);
    Ok(())
}

// What a run begins with: the ends are thresholds, and the seeds are the current values. The count is that of the thresholds.
fn begin(
    given: &Given,
    thresholds: &mut [i32],
    count: &mut usize,
    current: &mut [u32],
    growth: &mut [u32],
    budget: &mut Budget,
) -> Result<(), Stop>
    requires { count.old + 2 ≤ length thresholds.old }
    ensures { answered result (beginning (entry budget.new count.new thresholds.new) current.new growth.new) ≡ begin given.now.seeds.now given.now.positions (beginning (entry budget.old count.old thresholds.old) current.old growth.old) }
{
    enter_ends(thresholds, count, budget)?;
    seed(given.seeds, given.positions, current, growth, budget)
}

// The ascent, then the last round and what the result is charged for.
fn ascend_and_end(
    given: &Given,
    thresholds: &[i32],
    current: &mut [u32],
    growth: &mut [u32],
    bounds: &mut [u32],
    scratch: &mut [u32],
    course: &mut Course,
) -> Result<(), Stop>
    requires { (given.now.positions ≤ size.positions) × (length scratch.old ≡ size.pass_cells) }
    ensures { answered result (progress course.new.budget course.new.context current.new growth.new bounds.new) ≡ ascend_and_end (given_in given.now) thresholds.now (progress course.old.budget course.old.context current.old growth.old bounds.old) }
{
    passes::ascend(given, thresholds, current, growth, scratch, course)?;
    results::last(given, current, bounds, scratch, course)
}

// From the seeds to the result. Without rules the seeds are the result, and no round is charged.
fn finish(
    given: &Given,
    thresholds: &[i32],
    current: &mut [u32],
    growth: &mut [u32],
    bounds: &mut [u32],
    scratch: &mut [u32],
    course: &mut Course,
) -> Result<(), Stop>
    requires { (given.now.positions ≤ size.positions) × (length scratch.old ≡ size.pass_cells) }
    ensures { answered result (progress course.new.budget course.new.context current.new growth.new bounds.new) ≡ finish (given_in given.now) thresholds.now (progress course.old.budget course.old.context current.old growth.old bounds.old) }
{
    if given.count == 0 {
        let (scratch, _) = scratch.split_at_mut(sizes::LOCAL_CELLS);
        return results::close(given, current, bounds, scratch, course);
    }
    ascend_and_end(given, thresholds, current, growth, bounds, scratch, course)
}

// The run of a store has ended. The caller's context stays.
fn end(store: &mut Store, thresholds: usize, phase: Phase, budget: Budget)
    ensures { store.new ≡ ended_in phase budget thresholds store.old }
{
    store.budget = budget;
    store.counts.thresholds = thresholds;
    store.phase = phase;
}

// The first `count` cells of a table stand in another, cell by cell: either table may be shorter.
fn move_cells(from: &[u32], to: &mut [u32], count: usize)
    ensures { to.new ≡ sets to.old 0 (padded count from.now) }
{
    for i in 0..count {
        cells::put_cell(to, i, cells::cell_at(from, i));
    }
}

// A run that has ended. Completed, the result tables are written and the seeds are dropped; stopped, the current values are dropped and
// the result tables stay.
fn conclude(
    store: &mut Store,
    given: &Given,
    current: &[u32],
    bounds: &[u32],
    arguments: &mut [u32],
    slots: &mut [u32],
    ran: Result<(), Stop>,
    thresholds: usize,
    course: Course,
)
    requires { store.old.counts.rules ≤ size.rules }
    ensures { (marks before : List ℤ) (growth : List ℕ) → tables store.new marks arguments.new slots.new ≡ concluded given.now.seeds.now thresholds marks (tables store.old before arguments.old slots.old) (answered ran (progress course.budget course.context current.now growth bounds.now)) }
{
    let positions = store.counts.positions;
    let mut budget = course.budget;
    match ran {
        Err(stop) => {
            slots::without_rows(current, positions, &mut budget);
            end(
                store,
                thresholds,
                Phase::Stopped(stop, course.context),
                budget,
            );
        }
        Ok(()) => {
            rows::move_rows(current, arguments, positions);
            move_cells(bounds, slots, sizes::BOUNDS_ROW * store.counts.rules);
            slots::without_rows(given.seeds, positions, &mut budget);
            end(store, thresholds, Phase::Completed, budget);
        }
    }
}

// What the run of a store is given. The width is that of its limits.
fn given_of<'a>(
    store: &Store,
    nodes: &'a [u64],
    constants: &'a [u32],
    rules: &'a [u32],
    seeds: &'a [u32],
) -> Given<'a>
    ensures { given_in result ≡ given_of (read nodes.now constants.now rules.now seeds.now) store.now }
{
    Given {
        input: Input {
            nodes,
            constants,
            width: store.budget.limits.width,
        },
        rules,
        count: store.counts.rules,
        seeds,
        positions: store.counts.positions,
    }
}

// The counts of a store, and the caller's context.
fn course_of(store: &Store) -> Course
    ensures { result ≡ round.course store.now.budget store.now.context }
{
    Course {
        budget: store.budget,
        context: store.context,
    }
}

// The run of a store that admits it. What it works in has the rows of its arguments and its rules, and a pass's cells; what they held before is
// read nowhere.
fn run_open(
    store: &mut Store,
    given: &Given,
    thresholds: &mut [i32],
    arguments: &mut [u32],
    slots: &mut [u32],
    current: &mut [u32],
    growth: &mut [u32],
    bounds: &mut [u32],
    scratch: &mut [u32],
)
    requires room { (store.old.counts.rules ≤ size.rules) × ((store.old.counts.thresholds + 2 ≤ length thresholds.old) × (given.now.positions ≤ size.positions)) }
    requires cells { fitting (given_in given.now) current.old growth.old bounds.old scratch.old }
    ensures run { tables store.new thresholds.new arguments.new slots.new ≡ ran_on (given_in given.now) (tables store.old thresholds.old arguments.old slots.old) }
    ensures left { (current.new, growth.new) ≡ values_left (given_in given.now) (tables store.old thresholds.old arguments.old slots.old) current.old growth.old }
{
    let mut course = course_of(store);
    let mut marks = store.counts.thresholds;
    let begun = begin(
        given,
        thresholds,
        &mut marks,
        current,
        growth,
        &mut course.budget,
    );
    if let Err(stop) = begun {
        let phase = Phase::Stopped(stop, course.context);
        return end(store, marks, phase, course.budget);
    }
    bounds.fill(0);
    let ran = finish(
        given,
        &thresholds[..marks],
        current,
        growth,
        bounds,
        scratch,
        &mut course,
    );
    conclude(
        store, given, current, bounds, arguments, slots, ran, marks, course,
    );
}

// The sizes of the tables that a run reads.
fn is_sized(nodes: usize, constants: usize, rules: usize, seeds: usize, thresholds: usize) -> bool
    ensures { result ≡ sized nodes constants rules seeds thresholds }
{
    nodes == sizes::NODE_CELLS
        && constants == sizes::CONSTANT_CELLS
        && rules == sizes::RULE_CELLS
        && seeds == sizes::ARGUMENT_CELLS
        && thresholds == sizes::THRESHOLDS
}

// The sizes of the result tables.
fn is_result_sized(arguments: usize, slots: usize) -> bool
    ensures { result ≡ results_sized arguments slots }
{
    arguments == sizes::ARGUMENT_CELLS && slots == sizes::BOUNDS_CELLS
}

// The sizes of the tables that a run works in.
fn is_working_sized(current: usize, growth: usize, scratch: usize) -> bool
    ensures { result ≡ working_sized current growth scratch }
{
    current == sizes::ARGUMENT_CELLS
        && growth == sizes::GROWTH_CELLS
        && scratch == sizes::SCRATCH_CELLS
}

// Whether the tables have the rows that the header counts, and room for both ends.
fn has_room(counts: &Counts) -> bool
    ensures { result ≡ spacious counts.now }
{
    counts.positions <= sizes::POSITIONS
        && counts.rules <= sizes::RULES
        && counts.thresholds <= sizes::THRESHOLDS_BEFORE_RUN
}

// The run: it closes the store, completed with its results or stopped by 3, 8, 9 or 10, which is no refusal. Nothing is answered.
// Refused by 1, tables of other sizes, a store that is not open; 2, more rows than the tables have, or no room for both ends as thresholds.
// Charges both ends, the copied seeds, each pass with its round, the last round and the closing units of work.
// Of the tables that it works in none need be cleared; afterwards `current` and `growth` hold the values and the growth with which it ended.
#[tactic(auto, unfolding(crate::specs::Call::run_call, crate::specs::Call::run_leaves))]
pub fn run(
    store: &mut Store,
    nodes: &[u64],
    constants: &[u32],
    rules: &[u32],
    seeds: &[u32],
    thresholds: &mut [i32],
    arguments: &mut [u32],
    slots: &mut [u32],
    current: &mut [u32],
    growth: &mut [u32],
    scratch: &mut [u32],
) -> Result<(), Refusal>
    ensures run { replied result (tables store.new thresholds.new arguments.new slots.new) ≡ run_call (read nodes.now constants.now rules.now seeds.now) (working current.old growth.old scratch.old) (tables store.old thresholds.old arguments.old slots.old) }
    ensures left { (current.new, growth.new) ≡ run_leaves (read nodes.now constants.now rules.now seeds.now) (working current.old growth.old scratch.old) (tables store.old thresholds.old arguments.old slots.old) }
{
    if !is_sized(
        nodes.len(),
        constants.len(),
        rules.len(),
        seeds.len(),
        thresholds.len(),
    ) || !is_result_sized(arguments.len(), slots.len())
        || !is_working_sized(current.len(), growth.len(), scratch.len())
    {
        return Err(Refusal::Shape);
    }
    if !store.phase.admits(Kind::Running) {
        return Err(Refusal::Closed);
    }
    if !has_room(&store.counts) {
        return Err(Refusal::Full);
    }
    let given = given_of(store, nodes, constants, rules, seeds);
    let (scratch, bounds) = scratch.split_at_mut(sizes::PASS_CELLS);
    run_open(
        store,
        &given,
        thresholds,
        arguments,
        slots,
        &mut current[..sizes::VALUE_ROW * given.positions],
        &mut growth[..sizes::GROWTH_ROW * given.positions],
        &mut bounds[..sizes::BOUNDS_ROW * given.count],
        scratch,
    );
    Ok(())
}
