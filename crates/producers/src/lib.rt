//! `rule` (input.rs): a whole rule is checked, in the Rust's order, and becomes a row. What it charged before a refusal stays charged, and
//! what its heads recorded stays recorded.
#![tactic(auto)]

ghost use Rattle.std.specs.Prelude.{◌≡◌, ◌+◌, ◌≤◌, ◌<◌, ℕ, length, true};
ghost use Rattle.sizes.specs.Sizes as size;
ghost use Rattle.limits.specs.declared.Meter.{Meter};
ghost use Rattle.limits.specs.Metered.{Metered};
ghost use Rattle.limits.specs.Refusal.{Told, replied};
ghost use Rattle.store.specs.Calls.{billing};
ghost use Rattle.provenance.specs.Provenance.{Room};
ghost use Rattle.provenance.specs.Provenance as provenance;
ghost use Rattle.producers.specs.Producer.{Scope, each, slot_in, check_expression, check_pair, check_body, check_value, check_head, check_heads, check_rule, shapely, sized, spacious, cost, tables, rule_call};
ghost use Rattle.producers.specs.Scopes.{scope_in};

use limits::{Meter, Refusal, Resource};
use nodes::Expression;
use rules::{Binding, Guard, Head, Rule};
use store::{Kind, Store};

// What a rule is checked against: the expressions and the arguments that stand, and the rule's slots.
#[derive(Clone, Copy)]
struct Checker<'a> {
    nodes: &'a [u64],
    expressions: usize,
    arguments: usize,
    slots: u64,
}

// A part of a rule's body: a binding or a guard.
trait Part: Copy {
    // What is checked of it, where so many arguments stand.
    ghost checks: { ℕ → Scope → Self → Metered Told Meter (Unit {0}) };

    fn check(self, checker: Checker, meter: &mut Meter) -> Result<(), Refusal>
        ensures { replied result meter.new ≡ checks checker.entry.arguments (scope_in checker.entry) self meter.old };
}

impl Checker<'_> {
    fn check_slot(self, slot: u64, meter: &Meter) -> Result<(), Refusal>
        ensures { replied result meter.now ≡ slot_in self.entry.slots slot meter.now }
    {
        if self.slots <= slot {
            return Err(Refusal::MissingSlot);
        }
        Ok(())
    }

    // An expression of the rule: it and all below it exist, and so do their slots. The right child comes first.
    fn check_expression(self, id: u64, meter: &mut Meter) -> Result<(), Refusal>
        ensures { replied result meter.new ≡ check_expression (scope_in self.entry) id meter.old }
    {
        meter.work(1)?;
        if self.expressions as u64 <= id {
            return Err(Refusal::Missing);
        }
        match nodes::expression_at(self.nodes, id as usize) {
            Expression::Constant(_) | Expression::Unknown(_, _) => Ok(()),
            Expression::Slot(slot) => self.check_slot(slot, meter),
            Expression::Unary(_, value) | Expression::Absolute(value) => {
                self.check_expression(value, meter)
            }
            Expression::Binary(_, left, right) => {
                self.check_expression(right, meter)?;
                self.check_expression(left, meter)
            }
        }
    }

    // Two expressions, one after the other.
    fn check_pair(self, first: u64, second: u64, meter: &mut Meter) -> Result<(), Refusal>
        ensures { replied result meter.new ≡ check_pair (scope_in self.entry) first second meter.old }
    {
        self.check_expression(first, meter)?;
        self.check_expression(second, meter)
    }

    // A unit of work, and then an expression.
    fn check_value(self, id: u64, meter: &mut Meter) -> Result<(), Refusal>
        ensures { replied result meter.new ≡ check_value (scope_in self.entry) id meter.old }
    {
        meter.work(1)?;
        self.check_expression(id, meter)
    }

    // The parts of a body, a unit of work before each.
    fn check_each<P: Part>(self, parts: &[P], meter: &mut Meter) -> Result<(), Refusal>
        ensures { replied result meter.new ≡ each (P.checks self.entry.arguments (scope_in self.entry)) parts.now meter.old }
    {
        for part in parts {
            meter.work(1)?;
            part.check(self, meter)?;
        }
        Ok(())
    }

    // A head: its expression, then its argument, which is recorded at once.
    fn check_head(self, store: &mut Store, table: &mut [u32], head: Head) -> Result<(), Refusal>
        requires { (store.old.counts.positions ≤ size.positions) × Room 1 store.old.context store.old.counts.provenance }
        ensures { replied result (provenance.records store.new table.new) ≡ check_head (scope_in self.entry) head (provenance.records store.old table.old) }
    {
        let mut meter = store.budget.meter();
        let checked = self.check_value(head.value, &mut meter);
        store.budget.settle(meter);
        checked?;
        provenance::provenance(store, table, head.argument)
    }

    // All heads of a rule.
    fn check_heads(
        self,
        store: &mut Store,
        table: &mut [u32],
        heads: &[Head],
    ) -> Result<(), Refusal>
        requires { (length heads.now ≤ size.heads) × ((store.old.counts.positions ≤ size.positions) × Room (length heads.now) store.old.context store.old.counts.provenance) }
        ensures { replied result (provenance.records store.new table.new) ≡ check_heads (scope_in self.entry) heads.now (provenance.records store.old table.old) }
    {
        for head in heads {
            self.check_head(store, table, *head)?;
        }
        Ok(())
    }

    // The bindings, then the guards.
    fn check_body(self, rule: &Rule, meter: &mut Meter) -> Result<(), Refusal>
        requires { (rule.now.lengths.bindings ≤ size.bindings) × (rule.now.lengths.guards ≤ size.guards) }
        ensures { replied result meter.new ≡ check_body self.entry.arguments (scope_in self.entry) rule.now meter.old }
    {
        self.check_each(&rule.bindings[..rule.lengths.bindings as usize], meter)?;
        self.check_each(&rule.guards[..rule.lengths.guards as usize], meter)
    }
}

impl Part for Binding {
    ghost use Rattle.producers.specs.Producer.{check_binding};

    ghost checks = { check_binding };

    fn check(self, checker: Checker, meter: &mut Meter) -> Result<(), Refusal> {
        match self {
            Binding::Positive { slot, argument } => {
                if checker.arguments as u64 <= argument {
                    return Err(Refusal::Missing);
                }
                checker.check_slot(slot, meter)
            }
            Binding::Assign { slot, value } => {
                checker.check_expression(value, meter)?;
                checker.check_slot(slot, meter)
            }
            Binding::Range { slot, low, high } => {
                checker.check_pair(low, high, meter)?;
                checker.check_slot(slot, meter)
            }
            Binding::Aggregate { slot, .. } => checker.check_slot(slot, meter),
        }
    }
}

impl Part for Guard {
    ghost use Rattle.producers.specs.Producer.{check_guard};

    ghost checks = { λ _. check_guard };

    fn check(self, checker: Checker, meter: &mut Meter) -> Result<(), Refusal> {
        match self {
            Guard::Compare { left, right, .. } => checker.check_pair(left, right, meter),
            Guard::Membership { slot, low, high } => {
                if checker.slots <= slot {
                    return Err(Refusal::MissingSlot);
                }
                checker.check_pair(low, high, meter)
            }
        }
    }
}

// Whether the port has the shape of the rule.
fn is_shapely(rule: &Rule) -> bool
    ensures { result ≡ shapely rule.now }
{
    rule.slots <= sizes::SLOTS as u64
        && rule.lengths.bindings <= sizes::BINDINGS as u64
        && rule.lengths.guards <= sizes::GUARDS as u64
        && rule.lengths.heads <= sizes::HEADS as u64
        && rule.lengths.queries == 0
}

// Whether the tables have the sizes of 01.
fn is_sized(nodes: usize, rules: usize, records: usize) -> bool
    ensures { result ≡ sized nodes rules records }
{
    nodes == sizes::NODE_CELLS && rules == sizes::RULE_CELLS && records == sizes::RECORD_CELLS
}

// Whether the tables have the rows that the header counts, and room for one rule more.
fn has_room(store: &Store) -> bool
    ensures { result ≡ spacious store.now }
{
    store.counts.rules < sizes::RULES
        && store.counts.expressions <= sizes::EXPRESSIONS
        && store.counts.positions <= sizes::POSITIONS
        && provenance::is_recordable(store.context, store.counts.provenance)
}

// What a rule charges before it is looked at: a unit of work, and all its links at once.
fn charge_rule(store: &mut Store, rule: &Rule) -> Result<(), Refusal>
    requires { shapely rule.now ≡ true }
    ensures { replied result store.new ≡ billing (cost rule.now) store.old }
{
    let lengths = rule.lengths;
    store.pay(Resource::Work, 1)?;
    store.pay(
        Resource::Links,
        rule.slots + lengths.bindings + lengths.guards + lengths.heads + 1,
    )
}

// Everything that a rule is checked for, once it is charged.
fn check_rule(
    store: &mut Store,
    nodes: &[u64],
    table: &mut [u32],
    rule: &Rule,
) -> Result<(), Refusal>
    requires { (shapely rule.now ≡ true) × ((store.old.counts.positions ≤ size.positions) × Room size.heads store.old.context store.old.counts.provenance) }
    ensures { replied result (provenance.records store.new table.new) ≡ check_rule nodes.now rule.now (provenance.records store.old table.old) }
{
    let checker = Checker {
        nodes,
        expressions: store.counts.expressions,
        arguments: store.counts.positions,
        slots: rule.slots,
    };
    let mut meter = store.budget.meter();
    let checked = checker.check_body(rule, &mut meter);
    store.budget.settle(meter);
    checked?;
    checker.check_heads(store, table, &rule.heads[..rule.lengths.heads as usize])
}

// A rule: its id. What its heads have recorded of the context stays where it is refused.
// Refused by 1, tables of other sizes, a shape that the port lacks, a store that is not open; 2, no room; 3; 8; then 3, 5, 14 and 8, part by part.
// Charges a unit of work, its links at once, one unit for each part and each node of its expressions, and a link for each record.
#[tactic(auto, unfolding(crate::specs::Producer::rule_call))]
pub fn rule(
    store: &mut Store,
    nodes: &[u64],
    rules: &mut [u32],
    records: &mut [u32],
    rule: &Rule,
) -> Result<usize, Refusal>
    ensures { replied result (tables store.new rules.new records.new) ≡ rule_call nodes.now rule.now (tables store.old rules.old records.old) }
{
    if !is_sized(nodes.len(), rules.len(), records.len()) || !is_shapely(rule) {
        return Err(Refusal::Shape);
    }
    if !store.phase.admits(Kind::Building) {
        return Err(Refusal::Closed);
    }
    if !has_room(store) {
        return Err(Refusal::Full);
    }
    charge_rule(store, rule)?;
    check_rule(store, nodes, records, rule)?;
    let id = store.counts.rules;
    rules::put_rule(rules, id, *rule, store.context);
    store.counts.rules += 1;
    Ok(id)
}
