//! `constant` (input.rs): a key is classified, its thresholds are entered, and it is retained once.
#![tactic(auto)]

ghost use Rattle.std.specs.Prelude.{◌≡◌, ◌+◌, ◌≤◌, List, ℕ, length};
ghost use Rattle.sizes.specs.Sizes as size;
ghost use Rattle.limits.specs.Metered.{answered, going};
ghost use Rattle.limits.specs.Refusal.{replied};
ghost use Rattle.store.specs.Calls.{marks};
ghost use Rattle.keys.specs.Key.{key_of};
ghost use Rattle.constants.specs.Constant.{bytes_of, retains, kind_cell, payload_cell, classify, cost, sized, spacious, key_tables, add_key, settle, keep_key, abandon, retain_key, tables, constant_call};
ghost use Rattle.search.specs.Seek.{absent};

use keys::Key;
use limits::{Budget, Refusal, Resource, Stop};
use store::{Counts, Kind, Store};

// Whether the tables have the sizes of 01.
fn sized(names: usize, constants: usize, order: usize, thresholds: usize) -> bool
    ensures { result ≡ sized names constants order thresholds }
{
    names == sizes::NAME_CELLS
        && constants == sizes::CONSTANT_CELLS
        && order == sizes::CONSTANTS
        && thresholds == sizes::THRESHOLDS
}

// Whether the tables have room for one constant more.
fn room(counts: Counts) -> bool
    ensures { result ≡ spacious counts }
{
    counts.constants < sizes::CONSTANTS
        && counts.keys < sizes::CONSTANTS
        && counts.thresholds <= sizes::THRESHOLDS_BEFORE_CALL
}

// What is stored of a key in the name store.
fn bytes_of<'a>(key: Key<'a>) -> &'a [u8]
    ensures { result.now ≡ bytes_of (key_of key.entry) }
{
    match key {
        Key::Number(_) => &[],
        Key::Name(text) => text,
    }
}

// The two cells of a key.
fn cells_of(key: Key<'_>) -> (u32, u32)
    requires { length (bytes_of (key_of key)) ≤ size.name }
    ensures kind { result.0 ≡ kind_cell (key_of key.entry) }
    ensures payload { result.1 ≡ payload_cell (key_of key.entry) }
{
    match key {
        Key::Number(value) => (1, cells::to_cell(value)),
        Key::Name(text) => (2, text.len() as u32),
    }
}

// Whether the key is retained.
fn retained(store: &Store, key: Key<'_>) -> bool
    ensures { result ≡ retains store.now.budget.limits (key_of key.entry) }
{
    bytes_of(key).len() as u64 <= store.budget.limits.symbol
}

// What the reader charges.
fn classify(store: &mut Store, thresholds: &mut [i32], key: Key<'_>) -> Result<(), Refusal>
    requires { store.old.counts.thresholds + 3 ≤ length thresholds.old }
    ensures { replied result (marks store.new thresholds.new) ≡ classify (key_of key.entry) (marks store.old thresholds.old) }
{
    match key {
        Key::Number(value) => store.enter(thresholds, value),
        Key::Name(text) => store.pay(Resource::InspectedBytes, text.len() as u64),
    }
}

// What a new key costs: a link, and the ids that move.
fn pay(moved: u64, budget: &mut Budget) -> Result<(), Stop>
    ensures { answered result budget.new ≡ cost moved budget.old }
{
    budget.pay(Resource::Links, 1)?;
    budget.pay(Resource::Work, moved)
}

// A key that is new: its cells, its bytes, and its place in the key order.
fn add(
    store: &mut Store,
    names: &mut [u8],
    constants: &mut [u32],
    order: &mut [u32],
    low: usize,
    key: Key<'_>,
) -> usize
    requires { (store.old.counts.constants ≤ size.constants) × ((store.old.counts.keys ≤ size.constants) × (length (bytes_of (key_of key)) ≤ size.name)) }
    ensures { going result (key_tables store.new names.new constants.new order.new) ≡ add_key (key_of key.entry) low (key_tables store.old names.old constants.old order.old) }
{
    let id = store.counts.constants;
    let (kind, payload) = cells_of(key);
    keys::put_cells(constants, id, kind, payload);
    keys::put_name(names, id, bytes_of(key));
    search::insert(order, low, store.counts.keys, id as u32);
    store.counts.constants += 1;
    store.counts.keys += 1;
    id
}

// A key that is not in the key order yet: it is paid for, then added.
fn enroll(
    store: &mut Store,
    names: &mut [u8],
    constants: &mut [u32],
    order: &mut [u32],
    low: usize,
    key: Key<'_>,
) -> Result<usize, Refusal>
    requires { (low ≤ store.old.counts.keys) × ((store.old.counts.constants ≤ size.constants) × ((store.old.counts.keys ≤ size.constants) × (length (bytes_of (key_of key)) ≤ size.name))) }
    ensures { replied result (key_tables store.new names.new constants.new order.new) ≡ settle (key_of key.entry) store.old.counts.keys (absent low) (key_tables store.old names.old constants.old order.old) }
{
    let moved = (store.counts.keys - low) as u64;
    pay(moved, &mut store.budget)?;
    Ok(add(store, names, constants, order, low, key))
}

// A retained key: its old id, or a new constant in its place of the key order.
fn keep_key(
    store: &mut Store,
    names: &mut [u8],
    constants: &mut [u32],
    order: &mut [u32],
    key: Key<'_>,
) -> Result<usize, Refusal>
    requires { (store.old.counts.constants ≤ size.constants) × ((store.old.counts.keys ≤ size.constants) × (length (bytes_of (key_of key)) ≤ size.name)) }
    ensures { replied result (key_tables store.new names.new constants.new order.new) ≡ keep_key (key_of key.entry) (key_tables store.old names.old constants.old order.old) }
{
    let mut meter = store.budget.meter();
    let sought = keys::seek_key(names, constants, order, store.counts.keys, key, &mut meter);
    store.budget.settle(meter);
    match sought? {
        Ok(place) => Ok(cells::cell_at(order, place) as usize),
        Err(place) => enroll(store, names, constants, order, place, key),
    }
}

// A name that is not retained: always a new constant.
fn abandon(store: &mut Store, constants: &mut [u32]) -> Result<usize, Refusal>
    requires { store.old.counts.constants ≤ size.constants }
    ensures { (n o : List ℕ) → replied result (key_tables store.new n constants.new o) ≡ abandon (key_tables store.old n constants.old o) }
{
    store.pay(Resource::Links, 1)?;
    let id = store.counts.constants;
    keys::put_cells(constants, id, 0, 0);
    store.counts.constants += 1;
    Ok(id)
}

// Once it is classified, a key is kept or not.
fn retain_key(
    store: &mut Store,
    names: &mut [u8],
    constants: &mut [u32],
    order: &mut [u32],
    key: Key<'_>,
) -> Result<usize, Refusal>
    requires { (store.old.counts.constants ≤ size.constants) × ((store.old.counts.keys ≤ size.constants) × (length (bytes_of (key_of key)) ≤ size.name)) }
    ensures { replied result (key_tables store.new names.new constants.new order.new) ≡ retain_key (key_of key.entry) (key_tables store.old names.old constants.old order.old) }
{
    if retained(store, key) {
        keep_key(store, names, constants, order, key)
    } else {
        abandon(store, constants)
    }
}

// The id of a key: that of an equal retained one, else a new one.
// Refused by 1, tables of other sizes, a name over 64 bytes, a store that is not open; 2, no room for a constant or three thresholds; then 3, 4 and 8.
// Charges a unit of work; a name's bytes, or a number's thresholds; of a retained key the search; of a new one a link and the ids that move.
#[tactic(auto, unfolding(crate::specs::Constant::constant_call))]
pub fn constant(
    store: &mut Store,
    names: &mut [u8],
    constants: &mut [u32],
    order: &mut [u32],
    thresholds: &mut [i32],
    key: Key<'_>,
) -> Result<usize, Refusal>
    ensures { replied result (tables store.new names.new constants.new order.new thresholds.new) ≡ constant_call (key_of key.entry) (tables store.old names.old constants.old order.old thresholds.old) }
{
    if !sized(names.len(), constants.len(), order.len(), thresholds.len())
        || sizes::NAME < bytes_of(key).len()
    {
        return Err(Refusal::Shape);
    }
    if !store.phase.admits(Kind::Feeding) {
        return Err(Refusal::Closed);
    }
    if !room(store.counts) {
        return Err(Refusal::Full);
    }
    store.pay(Resource::Work, 1)?;
    classify(store, thresholds, key)?;
    retain_key(store, names, constants, order, key)
}
