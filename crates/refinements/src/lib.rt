//! What guards have found of expressions (`refinements` of transfer.rs): rows of a lent table, each an expression's id and an interval.
//! Cells beyond the table read as 0 and are not written; any contents read as refinements.
#![tactic(auto)]

ghost use Rattle.std.specs.Prelude.{ℕ, List, ◌≡◌, ◌<◌, min, ◌*◌, IfOk, IfSome};
ghost use Rattle.sizes.specs.Sizes as size;
ghost use Rattle.limits.specs.Metered.{answered, seen};
ghost use Rattle.lattice.specs.Value.{value_of};
ghost use Rattle.lattice.specs.Lattice.{numeric};
ghost use Rattle.lattice.specs.Answers.{answered_value};
ghost use Rattle.refinements.specs.Refinement.{refinement_at, refinements_of, put_refinement, integer?, narrow, restrict, place_or_end, position, notes, note};

use cells::{cell_at, of_cell, put_cell};
use interval::{Integrality, Interval};
use lattice::Abstract;
use limits::{Meter, Stop};

// Where a row begins. All rows beyond the table begin at its end.
fn start(len: usize, k: usize) -> usize
    ensures { result ≡ min (size.refinement_row * k) len }
{
    if len / sizes::REFINEMENT_ROW < k {
        return len;
    }
    sizes::REFINEMENT_ROW * k
}

fn expression_at(cells: &[u32], k: usize) -> u64
    ensures { result ≡ (refinement_at cells.now k).expression }
{
    let at = start(cells.len(), k);
    u64::from(cell_at(cells, at))
}

// The interval in which the value of the k-th expression lies.
pub fn restriction_at(cells: &[u32], k: usize) -> Interval
    ensures { result ≡ (refinement_at cells.now k).restriction }
{
    let at = start(cells.len(), k);
    rows::interval_of(
        cell_at(cells, at + 1),
        cell_at(cells, at + 2),
        cell_at(cells, at + 3),
    )
}

fn put_refinement(cells: &mut [u32], k: usize, id: u64, restriction: Interval)
    ensures { cells.new ≡ put_refinement cells.old k id restriction }
{
    let at = start(cells.len(), k);
    let low = id % 4294967296;
    put_cell(cells, at, low as u32);
    put_cell(cells, at + 1, rows::case_cell(restriction));
    put_cell(cells, at + 2, rows::low_cell(restriction));
    put_cell(cells, at + 3, rows::high_cell(restriction));
}

// Whether all that a value holds are numbers.
fn is_integer(value: Abstract) -> bool
    ensures { result ≡ integer? (value_of value) }
{
    matches!(value.bound.integrality, Integrality::Integer)
}

// A value that holds numbers alone is narrowed, and dropped on every way out.
pub fn narrow(
    constants: &[u32],
    value: Abstract,
    restriction: Interval,
    meter: &mut Meter,
) -> Result<Abstract, Stop>
    ensures { answered_value result meter.new ≡ narrow constants.now restriction (value_of value) meter.old }
{
    if !is_integer(value) {
        return Ok(value);
    }
    let narrowed = value.refine(constants, restriction, meter);
    meter.release(rows::entries_of(value));
    narrowed
}

// The place of an expression's first refinement, if it has one.
pub fn position(
    refinements: &[u32],
    count: usize,
    id: u64,
    meter: &mut Meter,
) -> Result<Option<usize>, Stop>
    ensures place { seen (place_or_end count) result meter.new ≡ position 0 (refinements_of refinements.now count) id meter.old }
    ensures within { IfOk result (λ p. IfSome p (λ k. k < count)) }
{
    for k in 0..count {
        meter.work(1)?;
        if expression_at(refinements, k) == id {
            return Ok(Some(k));
        }
    }
    Ok(None)
}

// The end of `expression`: what is known of an expression narrows its value.
pub fn restrict(
    refinements: &[u32],
    count: usize,
    constants: &[u32],
    value: Abstract,
    id: u64,
    meter: &mut Meter,
) -> Result<Abstract, Stop>
    ensures { answered_value result meter.new ≡ restrict constants.now (refinements_of refinements.now count) id (value_of value) meter.old }
{
    match position(refinements, count, id, meter) {
        Ok(Some(k)) => narrow(constants, value, restriction_at(refinements, k), meter),
        Ok(None) => Ok(value),
        Err(stop) => {
            meter.release(rows::entries_of(value));
            Err(stop)
        }
    }
}

// The same of a numeric value, which has no list: its interval is all that changes.
pub fn restrict_interval(
    refinements: &[u32],
    count: usize,
    interval: Interval,
    id: u64,
    meter: &mut Meter,
) -> Result<Interval, Stop>
    ensures { (constants : List ℕ) → seen numeric result meter.new ≡ restrict constants (refinements_of refinements.now count) id (numeric interval) meter.old }
{
    match position(refinements, count, id, meter)? {
        Some(k) => {
            meter.work(1)?;
            Ok(interval.meet(restriction_at(refinements, k)))
        }
        None => Ok(interval),
    }
}

// A restriction meets the one that is recorded, or is recorded: how many there are then.
pub fn note(
    refinements: &mut [u32],
    count: usize,
    id: u64,
    restriction: Interval,
    meter: &mut Meter,
) -> Result<usize, Stop>
    ensures { answered result (notes meter.new refinements.new) ≡ note count id restriction (notes meter.old refinements.old) }
{
    if let Some(k) = position(refinements, count, id, meter)? {
        let old = restriction_at(refinements, k);
        put_refinement(refinements, k, id, old.meet(restriction));
        return Ok(count);
    }
    if count < refinements.len() / sizes::REFINEMENT_ROW {
        put_refinement(refinements, count, id, restriction);
        return Ok(count + 1);
    }
    Ok(count)
}
