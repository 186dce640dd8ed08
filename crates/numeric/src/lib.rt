//! Readings of a store whose run has ended (numeric.rs): arguments, their contexts, the slots of rules, constants, and how the run ended.
//! A reading changes nothing, and holds for any header and any contents. The statistics are a field of the header.
#![tactic(auto)]

ghost use Rattle.std.specs.Prelude.{◌≡◌, ◌&&◌, ◌*◌, ◌<◌, ◌≤◌, eqb, length, get_or};
ghost use Rattle.sizes.specs.Sizes as size;
ghost use Rattle.numeric.specs.Reading.{contexts_of, nth, kind_of, name_of, argument_reading, context_count_reading, context_reading, slot_reading, key_reading, name_reading, status_reading};
ghost use Rattle.lattice.specs.Value.{value_of};
ghost use Rattle.numeric.specs.Answers.{readable, reads, kind, status};

use interval::{Bound, Constant};
use lattice::Abstract;
use limits::{Refusal, Stop};
use sizes::{RECORD_ROW, RECORDS};
use store::{Phase, Store};

// How the run ended: stopped, with its Stop and the context in force there.
#[derive(Clone, Copy, Debug, PartialEq, Eq)]
pub enum Ended {
    Completed,
    Stopped(Stop, Option<u32>),
}

// Whether a phase permits readings over tables of these sizes.
fn readable(sized: bool, phase: Phase) -> Result<(), Refusal>
    ensures { result ≡ readable sized phase }
{
    if !sized {
        return Err(Refusal::Shape);
    }
    match phase {
        Phase::Absent | Phase::Open => Err(Refusal::Closed),
        Phase::Completed => Ok(()),
        Phase::Stopped(_, _) => Err(Refusal::Missing),
    }
}

// An argument's bound, list and reason.
// Refused by 1, a table of another size, a run that has not ended; 5, a stopped run, no such argument.
// Charges nothing, as no reading does.
#[tactic(auto, unfolding(crate::specs::Reading::argument_reading))]
pub fn argument(store: &Store, arguments: &[u32], argument: u64) -> Result<Abstract, Refusal>
    ensures { reads value_of result ≡ argument_reading store.now arguments.now argument }
{
    readable(arguments.len() == sizes::ARGUMENT_CELLS, store.phase)?;
    if store.counts.positions as u64 <= argument {
        return Err(Refusal::Missing);
    }
    Ok(rows::abstract_at(arguments, argument as usize))
}

// Whether a record is of an argument.
fn is_of(records: &[u32], place: usize, argument: u64) -> bool
    requires { place < size.records }
    ensures { result ≡ eqb (get_or records.now (size.record_row * place) 0) argument }
{
    cells::cell_at(records, RECORD_ROW * place) as u64 == argument
}

// How many of the first `count` records are of an argument. The count stands in the header, and the table has one size.
fn count_contexts(records: &[u32], count: usize, argument: u64) -> u64
    requires { count ≤ size.records }
    ensures { result ≡ length (contexts_of records.now count argument) }
{
    let mut found = 0;
    for i in 0..count {
        if is_of(records, i, argument) {
            found += 1;
        }
    }
    found
}

// The k-th context of an argument among the first `count` records.
fn find_context(records: &[u32], count: usize, argument: u64, k: u64) -> Result<u64, Refusal>
    requires { count ≤ size.records }
    ensures { reads (λ n. n) result ≡ nth (contexts_of records.now count argument) k }
{
    let mut found = 0;
    for i in 0..count {
        if is_of(records, i, argument) {
            if found == k {
                return Ok(cells::cell_at(records, RECORD_ROW * i + 1) as u64);
            }
            found += 1;
        }
    }
    Err(Refusal::Missing)
}

// How many contexts an argument is recorded with.
// Refused by 1, a table of another size, a run that has not ended; 5, a stopped run, no such argument.
// Charges nothing.
#[tactic(auto, unfolding(crate::specs::Reading::context_count_reading))]
pub fn context_count(store: &Store, records: &[u32], argument: u64) -> Result<u64, Refusal>
    ensures { reads (λ n. n) result ≡ context_count_reading store.now records.now argument }
{
    readable(records.len() == sizes::RECORD_CELLS, store.phase)?;
    if store.counts.positions as u64 <= argument {
        return Err(Refusal::Missing);
    }
    Ok(count_contexts(records, store.counts.provenance.min(RECORDS), argument))
}

// The k-th context that an argument is recorded with, in the order recorded, from 0 on.
// Refused by 1, a table of another size, a run that has not ended; 5, a stopped run, no such argument, no k-th context.
// Charges nothing.
#[tactic(auto, unfolding(crate::specs::Reading::context_reading))]
pub fn context(store: &Store, records: &[u32], argument: u64, k: u64) -> Result<u64, Refusal>
    ensures { reads (λ n. n) result ≡ context_reading store.now records.now argument k }
{
    readable(records.len() == sizes::RECORD_CELLS, store.phase)?;
    if store.counts.positions as u64 <= argument {
        return Err(Refusal::Missing);
    }
    find_context(records, store.counts.provenance.min(RECORDS), argument, k)
}

fn is_slots_sized(rules: usize, slots: usize) -> bool
    ensures { result ≡ eqb rules size.rule_cells && eqb slots size.bounds_cells }
{
    rules == sizes::RULE_CELLS && slots == sizes::BOUNDS_CELLS
}

// The bound of a rule's slot, before guards or after them.
// Refused by 1, tables of other sizes, a run that has not ended; 5, a stopped run, no such rule; 14, no such slot.
// Charges nothing.
#[tactic(auto, unfolding(crate::specs::Reading::slot_reading))]
pub fn slot(
    store: &Store,
    rules: &[u32],
    slots: &[u32],
    rule: u64,
    slot: u64,
    after: bool,
) -> Result<Bound, Refusal>
    ensures { reads (λ b. b) result ≡ slot_reading store.now rules.now slots.now rule slot after }
{
    readable(is_slots_sized(rules.len(), slots.len()), store.phase)?;
    if store.counts.rules as u64 <= rule {
        return Err(Refusal::Missing);
    }
    if rules::slots_at(rules, rule as usize) <= slot {
        return Err(Refusal::MissingSlot);
    }
    let place = results::bound_place(rule as usize, slot as usize, after);
    Ok(rows::read_bound(slots, place))
}

// The key of a constant, but for the bytes of a name.
// Refused by 1, a table of another size, a run that has not ended; 5, a stopped run, no such constant.
// Charges nothing.
#[tactic(auto, unfolding(crate::specs::Reading::key_reading))]
pub fn key(store: &Store, constants: &[u32], constant: u64) -> Result<Constant, Refusal>
    ensures { reads kind result ≡ key_reading store.now constants.now constant }
{
    readable(constants.len() == sizes::CONSTANT_CELLS, store.phase)?;
    if store.counts.constants as u64 <= constant {
        return Err(Refusal::Missing);
    }
    Ok(kind_of(constants, constant as usize))
}

fn kind_of(constants: &[u32], id: usize) -> Constant
    ensures { kind result ≡ kind_of constants.now id }
{
    match keys::kind_at(constants, id) {
        1 => Constant::Number(cells::of_cell(keys::payload_at(constants, id))),
        2 => Constant::Name,
        _ => Constant::Large,
    }
}

// The bytes of a constant's name, if it has one that is retained.
fn name_of<'a>(names: &'a [u8], constants: &[u32], id: usize) -> &'a [u8]
    ensures { result.now ≡ name_of names.now constants.now id }
{
    if keys::kind_at(constants, id) != 2 {
        return &names[..0];
    }
    keys::name_at(names, id, keys::payload_at(constants, id) as usize)
}

fn is_names_sized(names: usize, constants: usize) -> bool
    ensures { result ≡ eqb names size.name_cells && eqb constants size.constant_cells }
{
    names == sizes::NAME_CELLS && constants == sizes::CONSTANT_CELLS
}

// The name of a constant, a part of the lent name store, as 01 names it: empty where it has none that is retained.
// Refused by 1, tables of other sizes, a run that has not ended; 5, a stopped run, no such constant.
// Charges nothing.
#[tactic(auto, unfolding(crate::specs::Reading::name_reading))]
pub fn name<'a>(
    store: &Store,
    names: &'a [u8],
    constants: &[u32],
    constant: u64,
) -> Result<&'a [u8], Refusal>
    ensures { reads (λ p. p.now) result ≡ name_reading store.now names.now constants.now constant }
{
    readable(is_names_sized(names.len(), constants.len()), store.phase)?;
    if store.counts.constants as u64 <= constant {
        return Err(Refusal::Missing);
    }
    Ok(name_of(names, constants, constant as usize))
}

// How the run ended; the statistics beside it are a field of the header.
// Refused by 1, a run that has not ended.
// Charges nothing.
#[tactic(auto, unfolding(crate::specs::Reading::status_reading))]
pub fn status(store: &Store) -> Result<Ended, Refusal>
    ensures { reads status result ≡ status_reading store.now }
{
    match store.phase {
        Phase::Absent | Phase::Open => Err(Refusal::Closed),
        Phase::Completed => Ok(Ended::Completed),
        Phase::Stopped(stop, context) => Ok(Ended::Stopped(stop, context)),
    }
}
