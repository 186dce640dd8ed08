//! One pass (the loop of `run` in engine.rs): a round, then each old value joined with its new one and widened; and passes until one
//! changes nothing. Where a pass is stopped, the current values stay, and nothing else that it made stays live. Tables that are written stay
//! parameters, as in engine. A given width is a round's; what an argument's join may keep is the budget's, which is the same in a run.
#![tactic(auto)]

ghost use Rattle.std.specs.Prelude.{◌≡◌, ◌≤◌, ◌*◌, length, false};
ghost use Rattle.sizes.specs.Sizes as size;
ghost use Rattle.limits.specs.Metered.{answered, seen};
ghost use Rattle.lattice.specs.Value.{value_of};
ghost use Rattle.rounds.specs.Lent.{given_in};
ghost use Rattle.passes.specs.Step.{within, with_change, widen_value, grow, steps, advance_one, advance};
ghost use Rattle.passes.specs.Pass.{ascent, renew, pass, ascend};
ghost use Rattle.passes.specs.Lent.{grown_in};

use interval::{Bound, Interval};
use lattice::Abstract;
use limits::{Budget, Meter, Stop};
use rounds::{Course, Given};
use widening::Growth;

// The new value of an argument, its growth, and whether its bound or its list has changed.
#[derive(Clone, Copy)]
struct Grown {
    value: Abstract,
    growth: Growth,
    changed: bool,
}

// The same value with another interval.
fn within(interval: Interval, value: Abstract) -> Abstract
    ensures { value_of result ≡ within interval (value_of value) }
{
    let bound = Bound {
        interval,
        ..value.bound
    };
    Abstract { bound, ..value }
}

// A new value compared with the old one, and dropped where this is stopped.
fn with_change(
    old: Abstract,
    value: Abstract,
    growth: Growth,
    meter: &mut Meter,
) -> Result<Grown, Stop>
    ensures { seen grown_in result meter.new ≡ with_change (value_of old) (value_of value) growth meter.old }
{
    let same = old.same(value, meter);
    let same = meter.holding(rows::entries_of(value), same)?;
    Ok(Grown {
        value,
        growth,
        changed: !same,
    })
}

// The joined value of an argument is widened and compared.
fn widen_value(
    thresholds: &[i32],
    old: Abstract,
    value: Abstract,
    growth: Growth,
    meter: &mut Meter,
) -> Result<Grown, Stop>
    ensures { seen grown_in result meter.new ≡ widen_value thresholds.now (value_of old) (value_of value) growth meter.old }
{
    let wide = widening::widen(
        thresholds,
        old.bound.interval,
        value.bound.interval,
        growth,
        meter,
    );
    let wide = meter.holding(rows::entries_of(value), wide)?;
    with_change(old, within(wide.interval, value), wide.growth, meter)
}

// One argument: the old value joined with its candidate and widened.
fn grow(
    thresholds: &[i32],
    old: Abstract,
    candidate: Abstract,
    growth: Growth,
    width: u64,
    meter: &mut Meter,
) -> Result<Grown, Stop>
    ensures { seen grown_in result meter.new ≡ grow width thresholds.now (value_of old) (value_of candidate) growth meter.old }
{
    meter.work(1)?;
    let value = old.join(candidate, width, meter)?;
    widen_value(thresholds, old, value, growth, meter)
}

// One argument of a pass, in tables: whether it has changed. One that has lost its list is counted.
fn advance_one(
    thresholds: &[i32],
    current: &[u32],
    candidates: &[u32],
    next: &mut [u32],
    growth: &mut [u32],
    argument: usize,
    budget: &mut Budget,
) -> Result<bool, Stop>
    ensures { answered result (steps budget.new next.new growth.new) ≡ advance_one thresholds.now current.now candidates.now argument (steps budget.old next.old growth.old) }
{
    let old = rows::abstract_at(current, argument);
    let candidate = rows::abstract_at(candidates, argument);
    let before = widening::growth_at(growth, argument);
    let width = budget.limits.width;
    let mut meter = budget.meter();
    let grown = grow(thresholds, old, candidate, before, width, &mut meter);
    budget.settle(meter);
    let grown = grown?;
    rows::put_abstract(next, argument, grown.value);
    widening::put_growth(growth, argument, grown.growth);
    if lattice::is_lost(&old, &grown.value) {
        budget.count_widened();
    }
    Ok(grown.changed)
}

// The first `count` arguments of a pass: whether one has changed. Where one is stopped, the next values are dropped.
fn advance(
    thresholds: &[i32],
    current: &[u32],
    candidates: &[u32],
    count: usize,
    next: &mut [u32],
    growth: &mut [u32],
    budget: &mut Budget,
) -> Result<bool, Stop>
    ensures { answered result (steps budget.new next.new growth.new) ≡ advance thresholds.now current.now candidates.now 0 count false (steps budget.old next.old growth.old) }
{
    let mut changed = false;
    for i in 0..count {
        match advance_one(thresholds, current, candidates, next, growth, i, budget) {
            Ok(moved) => changed |= moved,
            Err(stop) => {
                slots::without_rows(next, i, budget);
                return Err(stop);
            }
        }
    }
    Ok(changed)
}

// Each current value is joined with its candidate and widened, in a lent table of as many rows, whatever it held; the candidates are dropped.
fn renew(
    thresholds: &[i32],
    candidates: &[u32],
    positions: usize,
    current: &mut [u32],
    growth: &mut [u32],
    next: &mut [u32],
    course: &mut Course,
) -> Result<bool, Stop>
    requires { length next.old ≡ size.value_row * positions }
    ensures { answered result (ascent course.new.budget course.new.context current.new growth.new) ≡ renew positions thresholds.now candidates.now (ascent course.old.budget course.old.context current.old growth.old) }
{
    let advanced = advance(
        thresholds,
        current,
        candidates,
        positions,
        next,
        growth,
        &mut course.budget,
    );
    slots::without_rows(candidates, positions, &mut course.budget);
    let changed = advanced?;
    slots::without_rows(current, positions, &mut course.budget);
    rows::move_rows(next, current, positions);
    Ok(changed)
}

// One pass: a round from the current values, then each of them joined with its new one and widened. Whether a bound or a list has changed.
pub fn pass(
    given: &Given,
    thresholds: &[i32],
    current: &mut [u32],
    growth: &mut [u32],
    scratch: &mut [u32],
    course: &mut Course,
) -> Result<bool, Stop>
    requires { (given.now.positions ≤ size.positions) × (length scratch.old ≡ size.pass_cells) }
    ensures { answered result (ascent course.new.budget course.new.context current.new growth.new) ≡ pass (given_in given.now) thresholds.now (ascent course.old.budget course.old.context current.old growth.old) }
{
    let cells = sizes::VALUE_ROW * given.positions;
    let (scratch, rest) = scratch.split_at_mut(sizes::LOCAL_CELLS);
    let (candidates, rest) = rest.split_at_mut(cells);
    let (next, _) = rest.split_at_mut(cells);
    rounds::image(given, current, candidates, scratch, course)?;
    renew(
        thresholds,
        candidates,
        given.positions,
        current,
        growth,
        next,
        course,
    )
}

// Passes until one changes nothing; each charges a round.
pub fn ascend(
    given: &Given,
    thresholds: &[i32],
    current: &mut [u32],
    growth: &mut [u32],
    scratch: &mut [u32],
    course: &mut Course,
) -> Result<(), Stop>
    requires { (given.now.positions ≤ size.positions) × (length scratch.old ≡ size.pass_cells) }
    ensures { answered result (ascent course.new.budget course.new.context current.new growth.new) ≡ ascend (given_in given.now) thresholds.now (ascent course.old.budget course.old.context current.old growth.old) }
{
    while pass(given, thresholds, current, growth, scratch, course)? {}
    Ok(())
}
