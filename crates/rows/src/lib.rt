//! Abstract values in lent tables: a row for each. Cells beyond a table read as 0 and are not written, so that
//! any table and any row number will do; any contents read as a value.
#![tactic(auto)]

ghost use Rattle.std.specs.Prelude.{◌≡◌, min, ◌+◌, ◌-◌, ◌*◌, ◌≤◌, length, get_or, drop};
ghost use Rattle.std.proofs.lemmas.List.Edits.{sets};
ghost use Rattle.sizes.specs.Sizes as size;
ghost use Rattle.cells.specs.Cells.{of_cell};
ghost use Rattle.limits.specs.Metered.{seen};
ghost use Rattle.lattice.specs.Value.{value_of};
ghost use Rattle.lattice.specs.Lattice.{copied};
ghost use Rattle.rows.specs.Row.{padded, integrality_cell, case_cell, low_cell, high_cell, bound_cells, bound_of, listed?, list_of, entries_of, encode, integrality_of, interval_of, reason_of, row_ids, decode, value_at, put, moved};

use cells::{cell_at, of_cell, put_cell, to_cell};
use interval::{Bound, Integrality, Interval};
use lattice::{Abstract, Widening};
use limits::{Meter, Stop};
use sizes::{
    VALUE_CASE, VALUE_HIGH, VALUE_IDS, VALUE_KEPT, VALUE_LENGTH, VALUE_LOW, VALUE_REASON, VALUE_ROW,
};

// Where a row begins. All rows beyond the table begin at its end.
fn start(len: usize, number: usize) -> usize
    ensures { result ≡ min (size.value_row * number) len }
{
    VALUE_ROW.saturating_mul(number).min(len)
}

fn integrality_of(cell: u32) -> Integrality
    ensures { result ≡ integrality_of cell }
{
    match cell {
        0 => Integrality::Integer,
        _ => Integrality::Mixed,
    }
}

pub fn interval_of(number: u32, low: u32, high: u32) -> Interval
    ensures { result ≡ interval_of number (of_cell low) (of_cell high) }
{
    match number {
        1 => interval::ascending(of_cell(low), of_cell(high)),
        2 => Interval::Unbounded,
        _ => Interval::Bottom,
    }
}

fn reason_of(cell: u32) -> Option<Widening>
    ensures { result ≡ reason_of cell }
{
    match cell {
        1 => Some(Widening::HeadForm),
        2 => Some(Widening::HeadTerm),
        3 => Some(Widening::UnboundVariable),
        4 => Some(Widening::SymbolSize),
        5 => Some(Widening::ValueWidth),
        6 => Some(Widening::Dependency),
        _ => None,
    }
}

// The ids of the row that begins at `at`. `%` with a cast, since a cast alone must fit and no `From` cuts a number.
fn ids_at(cells: &[u32], at: usize) -> [u16; sizes::WIDTH]
    requires { at ≤ length cells.now }
    ensures { result ≡ row_ids (padded size.value_row (drop at cells.now)) }
{
    let mut ids = [0; sizes::WIDTH];
    for j in 0..sizes::WIDTH {
        ids[j] = (cell_at(cells, at + VALUE_IDS + j) % 65536) as u16;
    }
    ids
}

// The bound of the row that begins at `at`, or of the four cells there that tell one.
pub fn read_bound(cells: &[u32], at: usize) -> Bound
    requires { at ≤ length cells.now }
    ensures { result ≡ bound_of cells.now at }
{
    // Four cells that lie in the table want no test each.
    if let [integrality, case, low, high, ..] = &cells[at..] {
        return Bound {
            integrality: integrality_of(*integrality),
            interval: interval_of(*case, *low, *high),
        };
    }
    Bound {
        integrality: integrality_of(cell_at(cells, at)),
        interval: interval_of(
            cell_at(cells, at + VALUE_CASE),
            cell_at(cells, at + VALUE_LOW),
            cell_at(cells, at + VALUE_HIGH),
        ),
    }
}

// The value in the row that begins at `at`. Inlined, so that no cell is tested for where the table is that row.
#[inline(always)]
fn read_row(cells: &[u32], at: usize) -> Abstract
    requires { at ≤ length cells.now }
    ensures { value_of result ≡ decode (padded size.value_row (drop at cells.now)) }
{
    let bound = read_bound(cells, at);
    let kept = cell_at(cells, at + VALUE_KEPT) != 0;
    let len = cell_at(cells, at + VALUE_LENGTH) as usize;
    let reason = reason_of(cell_at(cells, at + VALUE_REASON));
    // Without a list there are no ids to read.
    if !kept {
        return Abstract {
            bound,
            ids: [0; sizes::WIDTH],
            len,
            kept,
            reason,
        };
    }
    let ids = ids_at(cells, at);
    Abstract {
        bound,
        ids,
        len,
        kept,
        reason,
    }
}

pub fn abstract_at(cells: &[u32], row: usize) -> Abstract
    ensures { value_of result ≡ value_at cells.now row }
{
    let at = start(cells.len(), row);
    // A row that lies in the table is read as a table of one row.
    if VALUE_ROW <= cells.len() - at {
        return read_row(&cells[at..at + VALUE_ROW], 0);
    }
    read_row(cells, at)
}

pub fn integrality_cell(integrality: Integrality) -> u32
    ensures { result ≡ integrality_cell integrality }
{
    match integrality {
        Integrality::Integer => 0,
        Integrality::Mixed => 1,
    }
}

pub fn case_cell(interval: Interval) -> u32
    ensures { result ≡ case_cell interval }
{
    match interval {
        Interval::Bottom => 0,
        Interval::Bounded { .. } => 1,
        Interval::Unbounded => 2,
    }
}

pub fn low_cell(interval: Interval) -> u32
    ensures { result ≡ low_cell interval }
{
    match interval {
        Interval::Bounded { low, .. } => to_cell(low),
        _ => 0,
    }
}

pub fn high_cell(interval: Interval) -> u32
    ensures { result ≡ high_cell interval }
{
    match interval {
        Interval::Bounded { high, .. } => to_cell(high),
        _ => 0,
    }
}

// The bound, into the row that begins at `at`.
fn put_bound(cells: &mut [u32], at: usize, bound: Bound)
    requires { at ≤ length cells.old }
    ensures { cells.new ≡ sets cells.old at (bound_cells bound) }
{
    put_cell(cells, at, integrality_cell(bound.integrality));
    put_cell(cells, at + VALUE_CASE, case_cell(bound.interval));
    put_cell(cells, at + VALUE_LOW, low_cell(bound.interval));
    put_cell(cells, at + VALUE_HIGH, high_cell(bound.interval));
}

// The ids of the list, if there is one.
fn listed_ids(value: &Abstract) -> &[u16]
    ensures list { result.now ≡ list_of (value_of value.now).values }
    ensures short { length result.now ≤ size.width }
{
    match value.list() {
        Some(ids) => ids,
        None => &[],
    }
}

// The live entries of a value: those of its list.
pub fn entries_of(value: Abstract) -> u64
    ensures { result ≡ entries_of (value_of value) }
{
    listed_ids(&value).len() as u64
}

// The live entries of the value in a row.
pub fn entries_at(cells: &[u32], row: usize) -> u64
    ensures { result ≡ entries_of (value_at cells.now row) }
{
    let at = start(cells.len(), row);
    if cell_at(cells, at + VALUE_KEPT) == 0 {
        return 0;
    }
    u64::from(cell_at(cells, at + VALUE_LENGTH).min(sizes::WIDTH as u32))
}

// The bound of the value in a row.
pub fn bound_at(cells: &[u32], row: usize) -> Bound
    ensures { result ≡ (value_at cells.now row).bound }
{
    read_bound(cells, start(cells.len(), row))
}

// Whether the value in a row has a list.
pub fn is_listed(cells: &[u32], row: usize) -> bool
    ensures { result ≡ listed? (value_at cells.now row).values }
{
    let at = start(cells.len(), row);
    cell_at(cells, at + VALUE_KEPT) != 0
}

// What a copy of the value in a row costs. The value itself is not read: its ids are many.
pub fn copied_at(cells: &[u32], row: usize, meter: &mut Meter) -> Result<(), Stop>
    ensures { seen (λ _. value_at cells.now row) result meter.new ≡ copied (value_at cells.now row) meter.old }
{
    meter.work(1)?;
    if !is_listed(cells, row) {
        return Ok(());
    }
    let count = entries_at(cells, row);
    meter.work(count)?;
    lists::retain_all(count, meter)
}

// An id of the list, or 0 behind it.
fn id_at(ids: &[u16], j: usize) -> u32
    ensures { result ≡ get_or ids.now j 0 }
{
    match ids.get(j) {
        Some(id) => u32::from(*id),
        None => 0,
    }
}

// The list's ids, and 0 behind them, into the row that begins at `at`.
#[inline(always)]
fn put_ids(cells: &mut [u32], at: usize, ids: &[u16])
    requires { at ≤ length cells.old }
    ensures { cells.new ≡ sets cells.old (at + size.value_ids) (padded (size.value_row - size.value_ids) ids.now) }
{
    for j in 0..VALUE_ROW - VALUE_IDS {
        put_cell(cells, at + VALUE_IDS + j, id_at(ids, j));
    }
}

// A value into the row that begins at `at`. Inlined as `read_row` is.
#[inline(always)]
fn put_row(cells: &mut [u32], at: usize, value: Abstract)
    requires { at ≤ length cells.old }
    ensures { cells.new ≡ sets cells.old at (encode (value_of value)) }
{
    let ids = listed_ids(&value);
    put_bound(cells, at, value.bound);
    put_cell(cells, at + VALUE_KEPT, u32::from(value.kept));
    put_cell(cells, at + VALUE_LENGTH, ids.len() as u32);
    let reason = lattice::reason_number(value.reason);
    put_cell(cells, at + VALUE_REASON, reason);
    put_ids(cells, at, ids);
}

pub fn put_abstract(cells: &mut [u32], row: usize, value: Abstract)
    ensures { cells.new ≡ put cells.old row (value_of value) }
{
    let at = start(cells.len(), row);
    if VALUE_ROW <= cells.len() - at {
        put_row(&mut cells[at..at + VALUE_ROW], 0, value);
        return;
    }
    put_row(cells, at, value);
}

// The first `count` rows of a table stand in another. Nothing is charged. Each is read and written anew, as cells that are no value's would be.
pub fn move_rows(from: &[u32], to: &mut [u32], count: usize)
    ensures { to.new ≡ moved from.now count to.old }
{
    for i in 0..count {
        put_abstract(to, i, abstract_at(from, i));
    }
}
