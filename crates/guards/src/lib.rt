//! The values of a rule's slots after guards (`rule` of transfer.rs from the copies on, with `refine_comparison` and `refine_operand`). What a
//! guard finds of its operands is recorded, and narrows slots where an operand is a slot and a literal. Both tables and the count stay parameters:
//! a struct of `&mut` would have each function promise, beside its equation, which tables its fields still are.
#![tactic(auto)]

ghost use Rattle.std.specs.Prelude.{ℕ, List, ◌≡◌};
ghost use Rattle.limits.specs.Metered.{answered};
ghost use Rattle.rules.specs.Read.{slots_at, guards_at};
ghost use Rattle.slots.specs.Slots.{slots};
ghost use Rattle.refinements.specs.Refinement.{integer?};
ghost use Rattle.evaluation.specs.Operands.{input_in};
ghost use Rattle.guards.specs.Guards.{local, narrow_slot, narrow_known, refine_operand, refine_both, compared, member, narrowing?, spanning?, operands, narrowed, guard_one, guard_all, guard};
ghost use Rattle.guards.specs.Operands.{bare};

use affine::Affine;
use evaluation::{Input, Scene};
use interval::{Bound, Integrality, Interval};
use limits::{Meter, Stop};
use rules::{Guard, Relation};

// An expression that is a slot and a literal narrows the slot.
fn narrow_slot(
    produced: &mut [u32],
    constants: &[u32],
    affine: Option<Affine>,
    restriction: Interval,
    meter: &mut Meter,
) -> Result<(), Stop>
    ensures { answered result (slots meter.new produced.new) ≡ narrow_slot constants.now affine restriction (slots meter.old produced.old) }
{
    let Some(affine) = affine else {
        return Ok(());
    };
    let slot = affine.slot as usize;
    slots::refine_into(produced, constants, slot, affine.solve(restriction), meter)
}

// An expression with one value in a firing: what is known of it is recorded, and narrows a slot.
fn narrow_known(
    input: &Input,
    produced: &mut [u32],
    refinements: &mut [u32],
    count: usize,
    id: u64,
    restriction: Interval,
    meter: &mut Meter,
) -> Result<usize, Stop>
    ensures { answered result (local meter.new produced.new refinements.new) ≡ narrow_known input.now.nodes.now input.now.constants.now count id restriction (local meter.old produced.old refinements.old) }
{
    let recorded = refinements::note(refinements, count, id, restriction, meter)?;
    let affine = affine::affine_of(input.nodes, input.constants, id);
    narrow_slot(produced, input.constants, affine, restriction, meter)?;
    Ok(recorded)
}

// `refine_operand`: an operand of a comparison lies in an interval.
fn refine_operand(
    input: &Input,
    produced: &mut [u32],
    refinements: &mut [u32],
    count: usize,
    id: u64,
    restriction: Interval,
    meter: &mut Meter,
) -> Result<usize, Stop>
    ensures { answered result (local meter.new produced.new refinements.new) ≡ refine_operand input.now.nodes.now input.now.constants.now count id restriction (local meter.old produced.old refinements.old) }
{
    if !evaluation::known_identity(input.nodes, id, meter)? {
        return Ok(count);
    }
    narrow_known(input, produced, refinements, count, id, restriction, meter)
}

// The left operand of a comparison lies in one interval and the right one in another.
fn refine_both(
    input: &Input,
    produced: &mut [u32],
    refinements: &mut [u32],
    count: usize,
    left: u64,
    x: Interval,
    right: u64,
    y: Interval,
    meter: &mut Meter,
) -> Result<usize, Stop>
    ensures { answered result (local meter.new produced.new refinements.new) ≡ refine_both input.now.nodes.now input.now.constants.now count left x right y (local meter.old produced.old refinements.old) }
{
    let recorded = refine_operand(input, produced, refinements, count, left, x, meter)?;
    refine_operand(input, produced, refinements, recorded, right, y, meter)
}

// Whether a value with this bound has numbers alone.
fn is_integer(bound: Bound) -> bool
    ensures { result ≡ integer? (bare bound) }
{
    matches!(bound.integrality, Integrality::Integer)
}

// Whether a comparison narrows.
fn is_narrowing(relation: Relation, a: Bound, b: Bound) -> bool
    ensures { result ≡ narrowing? relation (bare a) (bare b) }
{
    is_integer(a) && is_integer(b) && !affine::is_neq(relation)
}

// `refine_comparison`, once both operands are worked out.
fn compare(
    input: &Input,
    produced: &mut [u32],
    refinements: &mut [u32],
    count: usize,
    left: u64,
    relation: Relation,
    right: u64,
    a: Bound,
    b: Bound,
    meter: &mut Meter,
) -> Result<usize, Stop>
    ensures { answered result (local meter.new produced.new refinements.new) ≡ compared input.now.nodes.now input.now.constants.now count left relation right (bare a) (bare b) (local meter.old produced.old refinements.old) }
{
    if !is_narrowing(relation, a, b) {
        return Ok(count);
    }
    refine_both(
        input,
        produced,
        refinements,
        count,
        left,
        affine::restricted(relation, a.interval, b.interval),
        right,
        affine::restricted(affine::flipped(relation), b.interval, a.interval),
        meter,
    )
}

// Whether a slot with the bound `own` is narrowed by what lies between two values.
fn is_spanning(own: Bound, a: Bound, b: Bound) -> bool
    ensures { result ≡ spanning? (bare own) (bare a) (bare b) }
{
    is_integer(own) && is_integer(a) && is_integer(b)
}

// A slot lies between two values. Nothing is recorded of it.
fn member(
    produced: &mut [u32],
    constants: &[u32],
    count: usize,
    slot: usize,
    a: Bound,
    b: Bound,
    meter: &mut Meter,
) -> Result<usize, Stop>
    ensures { (refinements : List ℕ) → answered result (local meter.new produced.new refinements) ≡ member constants.now count slot (bare a) (bare b) (local meter.old produced.old refinements) }
{
    let own = rows::bound_at(produced, slot);
    if is_spanning(own, a, b) {
        let span = operators::span(a.interval, b.interval);
        slots::refine_into(produced, constants, slot, span, meter)?;
    }
    Ok(count)
}

// The two expressions that a guard works out.
fn operands(test: Guard) -> (u64, u64)
    ensures { result ≡ operands test }
{
    match test {
        Guard::Compare { left, right, .. } => (left, right),
        Guard::Membership { low, high, .. } => (low, high),
    }
}

// A guard, once both its expressions are worked out.
fn narrow(
    input: &Input,
    produced: &mut [u32],
    refinements: &mut [u32],
    count: usize,
    test: Guard,
    a: Bound,
    b: Bound,
    meter: &mut Meter,
) -> Result<usize, Stop>
    ensures { answered result (local meter.new produced.new refinements.new) ≡ narrowed (input_in input.now) count test (bare a) (bare b) (local meter.old produced.old refinements.old) }
{
    match test {
        Guard::Compare {
            left,
            relation,
            right,
        } => compare(
            input,
            produced,
            refinements,
            count,
            left,
            relation,
            right,
            a,
            b,
            meter,
        ),
        Guard::Membership { slot, .. } => {
            member(produced, input.constants, count, slot as usize, a, b, meter)
        }
    }
}

// One guard. Both its expressions stay live until it has ended.
fn guard_one(
    input: &Input,
    produced: &mut [u32],
    refinements: &mut [u32],
    count: usize,
    test: Guard,
    meter: &mut Meter,
) -> Result<usize, Stop>
    ensures { answered result (local meter.new produced.new refinements.new) ≡ guard_one (input_in input.now) count test (local meter.old produced.old refinements.old) }
{
    let (first, second) = operands(test);
    let scene = Scene {
        input: *input,
        slots: produced,
        refinements,
        count,
    };
    let (a, b) = scene.both(first, second, meter)?;
    let narrowed = narrow(
        input,
        produced,
        refinements,
        count,
        test,
        a.bound,
        b.bound,
        meter,
    );
    meter.release(b.entries);
    meter.release(a.entries);
    narrowed
}

// All guards of a rule, one after another, a unit of work before each: how many refinements are recorded then.
fn guard_rows(
    input: &Input,
    produced: &mut [u32],
    refinements: &mut [u32],
    rules: &[u32],
    id: usize,
    meter: &mut Meter,
) -> Result<usize, Stop>
    ensures { answered result (local meter.new produced.new refinements.new) ≡ guard_all (input_in input.now) (guards_at rules.now id) (local meter.old produced.old refinements.old) }
{
    let mut count = 0;
    for j in 0..rules::guard_count(rules, id) {
        meter.work(1)?;
        let guard = rules::guard_at(rules, id, j);
        count = guard_one(input, produced, refinements, count, guard, meter)?;
    }
    Ok(count)
}

// The values of a rule's slots after guards, from those before. Where it is stopped, those after guards are dropped.
pub fn guard(
    input: &Input,
    domains: &[u32],
    produced: &mut [u32],
    refinements: &mut [u32],
    rules: &[u32],
    id: usize,
    meter: &mut Meter,
) -> Result<usize, Stop>
    ensures { answered result (local meter.new produced.new refinements.new) ≡ guard (input_in input.now) domains.now (slots_at rules.now id) (guards_at rules.now id) (local meter.old produced.old refinements.old) }
{
    let count = rules::slots_at(rules, id) as usize;
    slots::copy_rows(domains, produced, count, meter)?;
    let guarded = guard_rows(input, produced, refinements, rules, id, meter);
    if guarded.is_err() {
        slots::drop_rows(produced, count, meter);
    }
    guarded
}
