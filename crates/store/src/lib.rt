//! The store's header and its first calls (input.rs): a fresh store, `context`, `work`, `predicate` and `argument`. A call changes the
//! header and the tables that it is lent in place, and a refused one leaves what it was charged. Every call holds for any header and any contents.
#![tactic(auto)]

ghost use Rattle.std.specs.Prelude.{◌≡◌, ◌+◌, ◌≤◌, length};
ghost use Rattle.sizes.specs.Sizes as size;
ghost use Rattle.limits.specs.Budget.{charge};
ghost use Rattle.limits.specs.Metered.{answered};
ghost use Rattle.limits.specs.Refusal.{replied};
ghost use Rattle.store.specs.Store.{fresh_of, admits};
ghost use Rattle.store.specs.Calls.{billing, marks, entering, context_call, work_call, declared, bottoms, room_for, tables, predicate_call, argument_call};
ghost use Rattle.thresholds.specs.Thresholds.{around};

use lattice::Abstract;
use limits::{Budget, Limits, Refusal, Resource, Stop};

// Where a store stands. A stopped run keeps its Stop and the context in force there.
#[derive(Clone, Copy, Debug, PartialEq, Eq)]
pub enum Phase {
    Absent,
    Open,
    Completed,
    Stopped(Stop, Option<u32>),
}

// Calls by what they do to a store: they build it, they feed it constants and seeds, or they run it.
#[derive(Clone, Copy, Debug, PartialEq, Eq)]
pub enum Kind {
    Building,
    Feeding,
    Running,
}

// How many rows of each table stand.
#[derive(Clone, Copy, Debug, PartialEq, Eq)]
pub struct Counts {
    pub predicates: usize,
    pub positions: usize,
    pub constants: usize,
    pub keys: usize,
    pub expressions: usize,
    pub rules: usize,
    pub thresholds: usize,
    pub provenance: usize,
}

#[derive(Clone, Copy, Debug, PartialEq, Eq)]
pub struct Store {
    pub budget: Budget,
    pub counts: Counts,
    // The caller's context, if one is set.
    pub context: Option<u32>,
    pub phase: Phase,
}

// Whether the tables have room for one predicate more.
fn has_room(predicates: usize, positions: usize, arity: u64) -> bool
    ensures { result ≡ room_for predicates positions arity }
{
    predicates < sizes::PREDICATES
        && positions <= sizes::POSITIONS
        && arity <= (sizes::POSITIONS - positions) as u64
}

// The charges of a new predicate beside its first unit of work: all of them or none.
fn declare(arity: u64, budget: &mut Budget) -> Result<(), Stop>
    ensures { answered result budget.new ≡ declared arity budget.old }
{
    let mut paid = *budget;
    paid.pay(Resource::Predicates, 1)?;
    paid.pay(Resource::Positions, arity)?;
    paid.pay(Resource::Work, arity)?;
    *budget = paid;
    Ok(())
}

// Rows of seeds that nothing is seeded to.
fn clear_seeds(seeds: &mut [u32], from: usize, count: usize)
    requires { from + count ≤ size.positions }
    ensures { seeds.new ≡ bottoms seeds.old from count }
{
    for j in 0..count {
        rows::put_abstract(seeds, from + j, Abstract::bottom());
    }
}

impl Phase {
    // Whether a call of this kind finds the store as it wants it: today each wants an open one.
    pub fn admits(self, kind: Kind) -> bool
        ensures { result ≡ admits kind self }
    {
        match kind {
            Kind::Building | Kind::Feeding | Kind::Running => matches!(self, Phase::Open),
        }
    }
}

// A store with nothing in it, open for calls.
// Refused by 1, a width over 16; then there is no store, and every call on what is left meets 1.
// Charges nothing.
pub fn fresh(limits: Limits) -> (Store, Result<(), Refusal>)
    ensures { replied result.1 result.0 ≡ fresh_of limits }
{
    let mut store = Store {
        budget: Budget::new(limits),
        counts: Counts {
            predicates: 0,
            positions: 0,
            constants: 0,
            keys: 0,
            expressions: 0,
            rules: 0,
            thresholds: 0,
            provenance: 0,
        },
        context: None,
        phase: Phase::Open,
    };
    if (sizes::WIDTH as u64) < limits.width {
        store.phase = Phase::Absent;
        return (store, Err(Refusal::Shape));
    }
    (store, Ok(()))
}

impl Store {
    // Sets the context of all later calls.
    // Refused by 1, a store that is not open.
    // Charges nothing.
    #[tactic(auto, unfolding(crate::specs::Calls::context_call))]
    pub fn context(&mut self, context: u32) -> Result<(), Refusal>
        ensures { replied result self.new ≡ context_call context self.old }
    {
        if !self.phase.admits(Kind::Building) {
            return Err(Refusal::Closed);
        }
        self.context = Some(context);
        Ok(())
    }

    // One charge of a call, which a refusal hands on.
    pub fn pay(&mut self, resource: Resource, amount: u64) -> Result<(), Refusal>
        ensures { replied result self.new ≡ billing (charge resource amount) self.old }
    {
        self.budget.pay(resource, amount)?;
        Ok(())
    }

    // A number and its neighbours become thresholds; the call has tested that there is room for three more.
    pub fn enter(&mut self, table: &mut [i32], value: i32) -> Result<(), Refusal>
        requires { self.old.counts.thresholds + 3 ≤ length table.old }
        ensures { replied result (marks self.new table.new) ≡ entering (around value) (marks self.old table.old) }
    {
        thresholds::enter_around(table, &mut self.counts.thresholds, value, &mut self.budget)?;
        Ok(())
    }

    // Counts work of the caller's own.
    // Refused by 1, a store that is not open; then by 3.
    // Charges `amount` units of work, at once.
    #[tactic(auto, unfolding(crate::specs::Calls::work_call))]
    pub fn work(&mut self, amount: u64) -> Result<(), Refusal>
        ensures { replied result self.new ≡ work_call amount self.old }
    {
        if !self.phase.admits(Kind::Building) {
            return Err(Refusal::Closed);
        }
        self.pay(Resource::Work, amount)
    }

    // The id of a predicate's argument.
    // Refused by 1, a table of another size, a store that is not open; 2, more predicates than the table has; 5, no such predicate, no such position.
    // Charges nothing.
    #[tactic(auto, unfolding(crate::specs::Calls::argument_call))]
    pub fn argument(
        &self,
        predicates: &[u32],
        predicate: u64,
        position: u64,
    ) -> Result<usize, Refusal>
        ensures { replied result self.now ≡ argument_call predicate position predicates.now self.now }
    {
        if predicates.len() != sizes::PREDICATE_CELLS {
            return Err(Refusal::Shape);
        }
        if !self.phase.admits(Kind::Building) {
            return Err(Refusal::Closed);
        }
        if sizes::PREDICATES < self.counts.predicates {
            return Err(Refusal::Full);
        }
        if self.counts.predicates as u64 <= predicate {
            return Err(Refusal::Missing);
        }
        let row = sizes::PREDICATE_ROW * (predicate as usize);
        let start = cells::cell_at(predicates, row) as u64;
        let arity = cells::cell_at(predicates, row + 1) as u64;
        if arity <= position {
            return Err(Refusal::Missing);
        }
        Ok((start + position) as usize)
    }

    // A new predicate: its id. Nothing is seeded to its arguments yet.
    // Refused by 1, tables of other sizes, a store that is not open; 2, no room for it or its arguments; then 3, 6, 7 and once more 3.
    // Charges a unit of work, then a predicate, `arity` positions and `arity` units of work, of these three all or none.
    #[tactic(auto, unfolding(crate::specs::Calls::predicate_call))]
    pub fn predicate(
        &mut self,
        predicates: &mut [u32],
        seeds: &mut [u32],
        arity: u64,
    ) -> Result<usize, Refusal>
        ensures { replied result (tables self.new predicates.new seeds.new) ≡ predicate_call arity (tables self.old predicates.old seeds.old) }
    {
        let id = self.counts.predicates;
        let start = self.counts.positions;
        if predicates.len() != sizes::PREDICATE_CELLS || seeds.len() != sizes::ARGUMENT_CELLS {
            return Err(Refusal::Shape);
        }
        if !self.phase.admits(Kind::Building) {
            return Err(Refusal::Closed);
        }
        if !has_room(id, start, arity) {
            return Err(Refusal::Full);
        }
        self.pay(Resource::Work, 1)?;
        declare(arity, &mut self.budget)?;
        let row = sizes::PREDICATE_ROW * id;
        cells::put_cell(predicates, row, start as u32);
        cells::put_cell(predicates, row + 1, arity as u32);
        clear_seeds(seeds, start, arity as usize);
        self.counts.predicates += 1;
        self.counts.positions += arity as usize;
        Ok(id)
    }
}
