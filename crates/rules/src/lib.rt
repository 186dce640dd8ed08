//! Rules (numeric.rs) and their rows in a lent table. Cells beyond the table read as 0; any contents read as a rule.
#![tactic(auto)]

ghost use Rattle.std.specs.Prelude.{◌≡◌, ℕ, List, [], ◌∷◌, map, min, length, refl, ◌+◌, ◌*◌, ◌≤◌, ◌<◌, set};
ghost use Rattle.rules.specs.declared.Binding.TheVariants.{Positive, Assign, Range, Aggregate};
ghost use Rattle.rules.specs.declared.Guard.TheVariants.{Compare, Membership};
ghost use Rattle.std.proofs.lemmas.List.Edits.{sets};
ghost use Rattle.sizes.specs.Sizes as size;
ghost use Rattle.rules.specs.Rule.{function_number, relation_number, binding_cells, guard_cells, head_cells, fixed_cells, flat, cell, put_rule};
ghost use Rattle.rules.specs.Read.{function_of, relation_of, binding_of, guard_of, slots_at, context_at, binding_count, guard_count, head_count, binding_at, guard_at, head_at};

use sizes::{
    RULE_BINDING_COUNT, RULE_BINDINGS, RULE_CONTEXT, RULE_GUARD_COUNT, RULE_GUARDS,
    RULE_HEAD_COUNT, RULE_HEADS, RULE_MARK, RULE_ROW,
};

#[derive(Clone, Copy, Debug, PartialEq, Eq)]
pub enum AggregateFunction {
    Count,
    Sum,
    SumPlus,
    Min,
    Max,
}

#[derive(Clone, Copy, Debug, PartialEq, Eq)]
pub enum Relation {
    Lt,
    Le,
    Gt,
    Ge,
    Eq,
    Neq,
}

// Ids and slots are as the caller gives them: any 64-bit number.
#[derive(Clone, Copy, Debug, PartialEq, Eq)]
pub enum Binding {
    Positive {
        slot: u64,
        argument: u64,
    },
    Assign {
        slot: u64,
        value: u64,
    },
    Range {
        slot: u64,
        low: u64,
        high: u64,
    },
    Aggregate {
        slot: u64,
        function: AggregateFunction,
    },
}

#[derive(Clone, Copy, Debug, PartialEq, Eq)]
pub enum Guard {
    Compare {
        left: u64,
        relation: Relation,
        right: u64,
    },
    Membership {
        slot: u64,
        low: u64,
        high: u64,
    },
}

#[derive(Clone, Copy, Debug, PartialEq, Eq)]
pub struct Head {
    pub argument: u64,
    pub value: u64,
}

// How many bindings, guards, heads and integer queries a rule has.
#[derive(Clone, Copy, Debug, PartialEq, Eq)]
pub struct Lengths {
    pub bindings: u64,
    pub guards: u64,
    pub heads: u64,
    pub queries: u64,
}

// Arrays with their lengths: there is no heap, and a rule is made of the words of a call.
#[derive(Clone, Copy)]
pub struct Rule {
    pub slots: u64,
    pub bindings: [Binding; sizes::BINDINGS],
    pub guards: [Guard; sizes::GUARDS],
    pub heads: [Head; sizes::HEADS],
    pub lengths: Lengths,
}

// The numbers that the job format has.
impl From<AggregateFunction> for u64 {
    ghost from_gives = { λ f n. n ≡ function_number f };

    fn from(function: AggregateFunction) -> u64 {
        match function {
            AggregateFunction::Count => 0,
            AggregateFunction::Sum => 1,
            AggregateFunction::SumPlus => 2,
            AggregateFunction::Min => 3,
            AggregateFunction::Max => 4,
        }
    }
}

impl From<Relation> for u64 {
    ghost from_gives = { λ r n. n ≡ relation_number r };

    fn from(relation: Relation) -> u64 {
        match relation {
            Relation::Lt => 0,
            Relation::Le => 1,
            Relation::Gt => 2,
            Relation::Ge => 3,
            Relation::Eq => 4,
            Relation::Neq => 5,
        }
    }
}

// Back from a number. Any is read, the last kind where there is no other: no `TryFrom`, since neither can fail.
impl From<u64> for AggregateFunction {
    ghost from_gives = { λ n f. f ≡ function_of n };

    fn from(number: u64) -> AggregateFunction {
        match number {
            0 => AggregateFunction::Count,
            1 => AggregateFunction::Sum,
            2 => AggregateFunction::SumPlus,
            3 => AggregateFunction::Min,
            _ => AggregateFunction::Max,
        }
    }
}

impl From<u64> for Relation {
    ghost from_gives = { λ n r. r ≡ relation_of n };

    fn from(number: u64) -> Relation {
        match number {
            0 => Relation::Lt,
            1 => Relation::Le,
            2 => Relation::Gt,
            3 => Relation::Ge,
            4 => Relation::Eq,
            _ => Relation::Neq,
        }
    }
}

// What a row has several of, each of them in as many cells.
trait Item: Copy {
    const WIDTH: usize;

    ghost WIDTH: { ℕ };

    ghost item_cells: { Self → List ℕ };

    fn put(self, cells: &mut [u32], at: usize)
        requires { at ≤ size.rule_cells }
        ensures { cells.new ≡ sets cells.old at (map cell (item_cells self)) };

    ghost wide: { (x : Self) → length (item_cells x) ≡ WIDTH };
}

// One cell: 32 bits of a number. `%`, since a cast alone must fit.
fn put_number(cells: &mut [u32], at: usize, number: u64)
    ensures { cells.new ≡ set cells.old at (cell number) }
{
    let low = number % 4294967296;
    cells::put_cell(cells, at, low as u32);
}

// Four cells from `at` on.
fn put_four(cells: &mut [u32], at: usize, a: u64, b: u64, c: u64, d: u64)
    requires { at ≤ size.rule_cells }
    ensures { cells.new ≡ sets cells.old at (map cell (a ∷ b ∷ c ∷ d ∷ [])) }
{
    put_number(cells, at, a);
    put_number(cells, at + 1, b);
    put_number(cells, at + 2, c);
    put_number(cells, at + 3, d);
}

impl Item for Binding {
    const WIDTH: usize = 4;

    ghost WIDTH = { 4 };

    ghost item_cells = { binding_cells };

    fn put(self, cells: &mut [u32], at: usize) {
        match self {
            Binding::Positive { slot, argument } => put_four(cells, at, 0, slot, argument, 0),
            Binding::Assign { slot, value } => put_four(cells, at, 1, slot, value, 0),
            Binding::Range { slot, low, high } => put_four(cells, at, 2, slot, low, high),
            Binding::Aggregate { slot, function } => {
                put_four(cells, at, 3, slot, u64::from(function), 0)
            }
        }
    }

    ghost wide = { elim [ Positive s a ↦ refl | Assign s v ↦ refl | Range s l h ↦ refl | Aggregate s f ↦ refl ] };
}

impl Item for Guard {
    const WIDTH: usize = 4;

    ghost WIDTH = { 4 };

    ghost item_cells = { guard_cells };

    fn put(self, cells: &mut [u32], at: usize) {
        match self {
            Guard::Compare {
                left,
                relation,
                right,
            } => put_four(cells, at, 0, left, u64::from(relation), right),
            Guard::Membership { slot, low, high } => put_four(cells, at, 1, slot, low, high),
        }
    }

    ghost wide = { elim [ Compare l r x ↦ refl | Membership s l h ↦ refl ] };
}

impl Item for Head {
    const WIDTH: usize = 2;

    ghost WIDTH = { 2 };

    ghost item_cells = { head_cells };

    fn put(self, cells: &mut [u32], at: usize) {
        put_number(cells, at, self.argument);
        put_number(cells, at + 1, self.value);
    }

    ghost wide = { λ h. refl };
}

// Items one after another, from `at` on.
fn put_items<T: Item>(cells: &mut [u32], at: usize, items: &[T])
    requires { at + T.WIDTH * length items.now ≤ size.rule_cells }
    ensures { cells.new ≡ sets cells.old at (map cell (flat T.item_cells items.now)) }
{
    for (i, item) in items.iter().enumerate() {
        item.put(cells, at + T::WIDTH * i);
    }
}

// The cells before the bindings.
fn put_fixed(cells: &mut [u32], at: usize, rule: Rule, context: Option<u32>)
    requires { at ≤ 75000 }
    ensures { cells.new ≡ sets cells.old at (map cell (fixed_cells rule context)) }
{
    let lengths = rule.lengths;
    let (mark, number) = match context {
        Some(number) => (1, u64::from(number)),
        None => (0, 0),
    };
    put_four(cells, at, rule.slots, mark, number, lengths.bindings);
    put_number(cells, at + 4, lengths.guards);
    put_number(cells, at + 5, lengths.heads);
}

// A rule and its context, as the row of this id.
pub fn put_rule(cells: &mut [u32], id: usize, rule: Rule, context: Option<u32>)
    requires { (id < size.rules) × ((rule.lengths.bindings ≤ size.bindings) × ((rule.lengths.guards ≤ size.guards) × (rule.lengths.heads ≤ size.heads))) }
    ensures { cells.new ≡ put_rule cells.old id rule context }
{
    let at = RULE_ROW * id;
    let lengths = rule.lengths;
    put_fixed(cells, at, rule, context);
    let bindings = &rule.bindings[..lengths.bindings as usize];
    put_items(cells, at + RULE_BINDINGS, bindings);
    let guards = &rule.guards[..lengths.guards as usize];
    put_items(cells, at + RULE_GUARDS, guards);
    let heads = &rule.heads[..lengths.heads as usize];
    put_items(cells, at + RULE_HEADS, heads);
}

// Where the j-th of things of one width begins; beyond the table, its end.
fn reach(len: usize, width: usize, j: usize) -> usize
    ensures { result ≡ min (width * j) len }
{
    width.saturating_mul(j).min(len)
}

// A kind that does not exist reads as the first.
fn binding_of(kind: u32, a: u32, b: u32, c: u32) -> Binding
    ensures { result ≡ binding_of kind a b c }
{
    let slot = u64::from(a);
    match kind {
        1 => Binding::Assign {
            slot,
            value: u64::from(b),
        },
        2 => Binding::Range {
            slot,
            low: u64::from(b),
            high: u64::from(c),
        },
        3 => Binding::Aggregate {
            slot,
            function: AggregateFunction::from(u64::from(b)),
        },
        _ => Binding::Positive {
            slot,
            argument: u64::from(b),
        },
    }
}

fn guard_of(kind: u32, a: u32, b: u32, c: u32) -> Guard
    ensures { result ≡ guard_of kind a b c }
{
    match kind {
        1 => Guard::Membership {
            slot: u64::from(a),
            low: u64::from(b),
            high: u64::from(c),
        },
        _ => Guard::Compare {
            left: u64::from(a),
            relation: Relation::from(u64::from(b)),
            right: u64::from(c),
        },
    }
}

// A count, or what a row has room for.
fn at_most(count: u32, room: usize) -> usize
    ensures { result ≡ min count room }
{
    (count as usize).min(room)
}

pub fn slots_at(cells: &[u32], id: usize) -> u64
    ensures { result ≡ slots_at cells.now id }
{
    let at = reach(cells.len(), RULE_ROW, id);
    at_most(cells::cell_at(cells, at), sizes::SLOTS) as u64
}

pub fn context_at(cells: &[u32], id: usize) -> Option<u32>
    ensures { result ≡ context_at cells.now id }
{
    let at = reach(cells.len(), RULE_ROW, id);
    let marked = cells::cell_at(cells, at + RULE_MARK) != 0;
    marked.then_some(cells::cell_at(cells, at + RULE_CONTEXT))
}

pub fn binding_count(cells: &[u32], id: usize) -> usize
    ensures { result ≡ binding_count cells.now id }
{
    let at = reach(cells.len(), RULE_ROW, id);
    at_most(
        cells::cell_at(cells, at + RULE_BINDING_COUNT),
        sizes::BINDINGS,
    )
}

pub fn guard_count(cells: &[u32], id: usize) -> usize
    ensures { result ≡ guard_count cells.now id }
{
    let at = reach(cells.len(), RULE_ROW, id);
    at_most(cells::cell_at(cells, at + RULE_GUARD_COUNT), sizes::GUARDS)
}

pub fn head_count(cells: &[u32], id: usize) -> usize
    ensures { result ≡ head_count cells.now id }
{
    let at = reach(cells.len(), RULE_ROW, id);
    at_most(cells::cell_at(cells, at + RULE_HEAD_COUNT), sizes::HEADS)
}

// Table and id stay two parameters here and above: a caller has an id, and a struct of the two would be made for each call.
// The j-th binding, guard and head; one beyond its count is what stands there. Each reads its cells itself: that is one expression,
// and a shared reader would be no plainer.
pub fn binding_at(cells: &[u32], id: usize, j: usize) -> Binding
    ensures { result ≡ binding_at cells.now id j }
{
    let at = reach(cells.len(), RULE_ROW, id) + RULE_BINDINGS + reach(cells.len(), 4, j);
    binding_of(
        cells::cell_at(cells, at),
        cells::cell_at(cells, at + 1),
        cells::cell_at(cells, at + 2),
        cells::cell_at(cells, at + 3),
    )
}

pub fn guard_at(cells: &[u32], id: usize, j: usize) -> Guard
    ensures { result ≡ guard_at cells.now id j }
{
    let at = reach(cells.len(), RULE_ROW, id) + RULE_GUARDS + reach(cells.len(), 4, j);
    guard_of(
        cells::cell_at(cells, at),
        cells::cell_at(cells, at + 1),
        cells::cell_at(cells, at + 2),
        cells::cell_at(cells, at + 3),
    )
}

pub fn head_at(cells: &[u32], id: usize, j: usize) -> Head
    ensures { result ≡ head_at cells.now id j }
{
    let at = reach(cells.len(), RULE_ROW, id) + RULE_HEADS + reach(cells.len(), 2, j);
    Head {
        argument: u64::from(cells::cell_at(cells, at)),
        value: u64::from(cells::cell_at(cells, at + 1)),
    }
}
