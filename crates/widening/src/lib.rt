//! Widening (`widen` of engine.rs): an interval that grows is moved outward to thresholds, each side by its own count.
#![tactic(auto)]

ghost use Rattle.std.specs.Prelude.{◌≡◌};
ghost use Rattle.widening.specs.Places.{first_place, counted};
ghost use Rattle.std.specs.Int.Signed.{le_z};
ghost use Rattle.limits.specs.Metered.{answered};
ghost use Rattle.widening.specs.Widening.{below, above, widen_low, widen_high, with_ends, widen, growth_at, put_growth, no_growth};

use interval::Interval;
use limits::{Meter, Stop};

// How often the sides of an argument's interval have grown, counted to two.
#[derive(Clone, Copy, Debug, PartialEq, Eq)]
pub struct Growth {
    pub low: u32,
    pub high: u32,
}

// A widened interval, and how often its sides have then grown.
#[derive(Clone, Copy, Debug, PartialEq, Eq)]
pub struct Wide {
    pub interval: Interval,
    pub growth: Growth,
}

// An end of an interval, and how often its side has grown.
#[derive(Clone, Copy, Debug, PartialEq, Eq)]
struct Side {
    end: i32,
    grown: u32,
}

impl Growth {
    // No side has grown yet.
    pub const NONE: Growth = Growth { low: 0, high: 0 };
}

pub fn growth_at(cells: &[u32], argument: usize) -> Growth
    ensures { result ≡ growth_at cells.now argument }
{
    if sizes::POSITIONS <= argument {
        return Growth::NONE;
    }
    Growth {
        low: cells::cell_at(cells, sizes::GROWTH_ROW * argument),
        high: cells::cell_at(cells, sizes::GROWTH_ROW * argument + 1),
    }
}

pub fn put_growth(cells: &mut [u32], argument: usize, growth: Growth)
    ensures { cells.new ≡ put_growth cells.old argument growth }
{
    if argument < sizes::POSITIONS {
        cells::put_cell(cells, sizes::GROWTH_ROW * argument, growth.low);
        cells::put_cell(cells, sizes::GROWTH_ROW * argument + 1, growth.high);
    }
}

// No side of the first `count` arguments has grown yet.
pub fn clear_growth(cells: &mut [u32], count: usize)
    ensures { cells.new ≡ no_growth cells.old count }
{
    for i in 0..count {
        put_growth(cells, i, Growth::NONE);
    }
}

// The greatest threshold that is not above `low`, sought from the top; a unit of work for each that is looked at.
// This side pays as it goes and the other by place, so one function for both would be no plainer.
fn threshold_below(thresholds: &[i32], low: i32, meter: &mut Meter) -> Result<i32, Stop>
    ensures { answered result meter.new ≡ below thresholds.now low meter.old }
{
    for threshold in thresholds.iter().rev() {
        meter.work(1)?;
        if *threshold <= low {
            return Ok(*threshold);
        }
    }
    Ok(low)
}

// The place of the first threshold that is not below `high`, or their number. Not inlined: bench/'s job `climb` spends nearly half of its
// instructions in this loop, and in a function of its own it does not move with whatever is compiled around it.
#[inline(never)]
fn first_above(thresholds: &[i32], high: i32) -> usize
    ensures { result ≡ first_place (le_z high) thresholds.now }
{
    thresholds
        .iter()
        .position(|threshold| high <= *threshold)
        .unwrap_or(thresholds.len())
}

// The least threshold that is not below `high`, sought from the bottom.
fn threshold_above(thresholds: &[i32], high: i32, meter: &mut Meter) -> Result<i32, Stop>
    ensures { answered result meter.new ≡ above thresholds.now high meter.old }
{
    let place = first_above(thresholds, high);
    if place < thresholds.len() {
        meter.units(place as u64 + 1)?;
        return Ok(thresholds[place]);
    }
    meter.units(place as u64)?;
    Ok(high)
}

// A side that does not grow, or that is counted; none where it is moved to a threshold.
fn counted(end: i32, grown: u32, stays: bool) -> Option<Side>
    ensures { result ≡ counted stays end grown }
{
    if stays {
        return Some(Side { end, grown });
    }
    if grown < 2 {
        return Some(Side {
            end,
            grown: grown + 1,
        });
    }
    None
}

// The low side: counted the first two times that it grows, and moved to a threshold later.
fn widen_low(
    thresholds: &[i32],
    old: i32,
    low: i32,
    grown: u32,
    meter: &mut Meter,
) -> Result<Side, Stop>
    ensures { answered result meter.new ≡ widen_low thresholds.now old low grown meter.old }
{
    if let Some(side) = counted(low, grown, old <= low) {
        return Ok(side);
    }
    let end = threshold_below(thresholds, low, meter)?;
    Ok(Side { end, grown })
}

// The high side, by the same rule.
fn widen_high(
    thresholds: &[i32],
    old: i32,
    high: i32,
    grown: u32,
    meter: &mut Meter,
) -> Result<Side, Stop>
    ensures { answered result meter.new ≡ widen_high thresholds.now old high grown meter.old }
{
    if let Some(side) = counted(high, grown, high <= old) {
        return Ok(side);
    }
    let end = threshold_above(thresholds, high, meter)?;
    Ok(Side { end, grown })
}

// The new interval with both ends moved. An Unbounded one is kept.
fn with_ends(next: Interval, low: i32, high: i32) -> Interval
    ensures { result ≡ with_ends next low high }
{
    match next {
        Interval::Bounded { .. } => Interval::Bounded { low, high },
        _ => next,
    }
}

// The new interval, each side of it moved that has grown. Where one of the two is empty, nothing is moved and nothing counted.
pub fn widen(
    thresholds: &[i32],
    previous: Interval,
    next: Interval,
    growth: Growth,
    meter: &mut Meter,
) -> Result<Wide, Stop>
    ensures { answered result meter.new ≡ widen thresholds.now previous next growth meter.old }
{
    let Some((old_low, old_high)) = previous.endpoints() else {
        return Ok(Wide {
            interval: next,
            growth,
        });
    };
    let Some((low, high)) = next.endpoints() else {
        return Ok(Wide {
            interval: next,
            growth,
        });
    };
    let lower = widen_low(thresholds, old_low, low, growth.low, meter)?;
    let upper = widen_high(thresholds, old_high, high, growth.high, meter)?;
    Ok(Wide {
        interval: with_ends(next, lower.end, upper.end),
        growth: Growth {
            low: lower.grown,
            high: upper.grown,
        },
    })
}
