//! The value of an expression over the values of a rule's slots (`expression` and `known_identity` of transfer.rs). Expressions
//! are worked out by recursion over their table: the node's id falls. Every value that is made on the way is released by name.
//! Inside an expression values are handed on as operands: no operator asks for more than a bound and the length of a list.
#![tactic(auto)]

ghost use Rattle.std.specs.Prelude.{ℕ, List, ◌≡◌};
ghost use Rattle.std.proofs.Math.Option.{none};
ghost use Rattle.limits.specs.Metered.{answered, after};
ghost use Rattle.lattice.specs.Value.{Reason, value, value_of};
ghost use Rattle.lattice.specs.Answers.{answered_value};
ghost use Rattle.lattice.specs.Constants.{constant_at};
ghost use Rattle.lattice.specs.Lattice.{constant, numeric, copied};
ghost use Rattle.rows.specs.Row.{id_of, value_at};
ghost use Rattle.refinements.specs.Refinement.{narrow, restrict};
ghost use Rattle.evaluation.specs.Evaluation.{known_identity, identical, unknown, expression, both};
ghost use Rattle.evaluation.specs.Operands.{input_in, known_of, operand, numeral, sees, sees_both, combining, one_left, two_left};

use interval::{Bound, Integrality, Interval};
use lattice::{Abstract, Widening};
use limits::{Meter, Stop};
use nodes::{BinaryOp, Expression};

// What the analysis reads of all that was put in: the expressions, the constants, and how long a list may be.
#[derive(Clone, Copy)]
pub struct Input<'a> {
    pub nodes: &'a [u64],
    pub constants: &'a [u32],
    pub width: u64,
}

// Where expressions are worked out: over the slots' values, and under the first `count` refinements. The count stands beside its table, which
// has one size whatever it holds: a slice cut to its rows would ask that they lie within it.
#[derive(Clone, Copy)]
pub struct Scene<'a> {
    pub input: Input<'a>,
    pub slots: &'a [u32],
    pub refinements: &'a [u32],
    pub count: usize,
}

// What is asked of a value that is an operand: its bound, and how many entries its list has.
#[derive(Clone, Copy, Debug, PartialEq, Eq)]
pub struct Operand {
    pub bound: Bound,
    pub entries: u64,
}

impl From<Abstract> for Operand {
    ghost from_gives = { λ v r. r ≡ operand (value_of v) };

    fn from(whole: Abstract) -> Operand {
        Operand {
            bound: whole.bound,
            entries: rows::entries_of(whole),
        }
    }
}

// An operand that is numeric, and so without a list.
fn numeral(interval: Interval) -> Operand
    ensures { result ≡ numeral interval }
{
    Operand {
        bound: Bound::numeric(interval),
        entries: 0,
    }
}

// Whether an expression holds no Unknown, and so has one value in a firing. The right child comes first.
pub fn known_identity(nodes: &[u64], id: u64, meter: &mut Meter) -> Result<bool, Stop>
    ensures { answered result meter.new ≡ known_identity nodes.now id meter.old }
{
    meter.work(1)?;
    match nodes::expression_at(nodes, id as usize) {
        Expression::Constant(_) | Expression::Slot(_) => Ok(true),
        Expression::Unary(_, value) | Expression::Absolute(value) => {
            known_identity(nodes, value, meter)
        }
        Expression::Binary(_, left, right) => {
            if !known_identity(nodes, right, meter)? {
                return Ok(false);
            }
            known_identity(nodes, left, meter)
        }
        Expression::Unknown(_, _) => Ok(false),
    }
}

// Whether a node is e − e, and e has one value.
fn is_identical(
    nodes: &[u64],
    op: BinaryOp,
    left: u64,
    right: u64,
    meter: &mut Meter,
) -> Result<bool, Stop>
    ensures { answered result meter.new ≡ identical nodes.now op left right meter.old }
{
    if !operators::is_difference(op) || left != right {
        return Ok(false);
    }
    known_identity(nodes, left, meter)
}

// Whatever may come of an expression that nothing is known of.
fn unknown(integer: bool, reason: Widening) -> Abstract
    ensures { value_of result ≡ unknown integer reason }
{
    if integer {
        return Abstract {
            reason: Some(reason),
            ..Abstract::numeric(Interval::Unbounded)
        };
    }
    Abstract::top(Some(reason))
}

// A value without a list that is narrowed: its bound is all that changes.
fn narrow_bound(bound: Bound, restriction: Interval, meter: &mut Meter) -> Result<Operand, Stop>
    ensures { (constants : List ℕ) (reason : Reason) → answered result meter.new ≡ sees (narrow constants restriction (value bound none reason) meter.old) }
{
    if let Integrality::Mixed = bound.integrality {
        return Ok(Operand { bound, entries: 0 });
    }
    meter.work(1)?;
    Ok(Operand {
        bound: bound.meet(Bound::numeric(restriction)),
        entries: 0,
    })
}

impl<'a> Input<'a> {
    fn constant(&self, id: u64, meter: &mut Meter) -> Result<Abstract, Stop>
        ensures { answered_value result meter.new ≡ constant (id_of id) (constant_at self.now.constants.now (id_of id)) self.now.width meter.old }
    {
        // `%`, since no `From` cuts a number and a bare cast must fit.
        let short = (id % 65536) as u16;
        let key = lattice::constant_at(self.constants, short);
        Abstract::constant(short, key, self.width, meter)
    }

    // The interval of a node with two children, and the unit of work before it. Inlined: else both intervals are copied for it, 7 % of the
    // time of deep expressions.
    #[inline(always)]
    fn combine(
        &self,
        op: BinaryOp,
        left: u64,
        right: u64,
        x: Interval,
        y: Interval,
        meter: &mut Meter,
    ) -> Result<Interval, Stop>
        ensures { answered result meter.new ≡ combining self.now.nodes.now self.now.constants.now op left right x y meter.old }
    {
        meter.work(1)?;
        if operators::is_empty(x) || operators::is_empty(y) {
            return Ok(Interval::Bottom);
        }
        if is_identical(self.nodes, op, left, right, meter)? {
            return Ok(Interval::Bounded { low: 0, high: 0 });
        }
        if operators::is_covered(self.nodes, self.constants, op, left, right) {
            return Ok(operators::binary(op, x, y));
        }
        Ok(Interval::Unbounded)
    }
}

impl Scene<'_> {
    // What is known of an expression narrows its value, once it is worked out.
    fn restrict(&self, whole: Abstract, id: u64, meter: &mut Meter) -> Result<Abstract, Stop>
        ensures { answered_value result meter.new ≡ restrict self.now.input.constants.now (known_of self.now) id (value_of whole) meter.old }
    {
        // Most expressions have none, and a value is then not handed on.
        if self.count == 0 {
            return Ok(whole);
        }
        refinements::restrict(
            self.refinements,
            self.count,
            self.input.constants,
            whole,
            id,
            meter,
        )
    }

    // The same of an expression with children, which has no list: its interval is all that changes. Inlined, as what follows the children is:
    // a tenth of the time of deep expressions goes with it.
    #[inline(always)]
    fn restrict_interval(
        &self,
        interval: Interval,
        id: u64,
        meter: &mut Meter,
    ) -> Result<Operand, Stop>
        ensures { (constants : List ℕ) → answered result meter.new ≡ sees (restrict constants (known_of self.now) id (numeric interval) meter.old) }
    {
        // Most expressions are not narrowed, and are then not handed on.
        if self.count == 0 {
            return Ok(numeral(interval));
        }
        let narrow = refinements::restrict_interval(
            self.refinements,
            self.count,
            interval,
            id,
            meter,
        )?;
        Ok(numeral(narrow))
    }

    // A node with one child that had so many entries, which are dropped on every way out.
    #[inline(always)]
    fn after_one(
        &self,
        id: u64,
        interval: Interval,
        listed: u64,
        meter: &mut Meter,
    ) -> Result<Operand, Stop>
        ensures { answered result meter.new ≡ sees (after (one_left interval listed meter.old) (restrict self.now.input.constants.now (known_of self.now) id)) }
    {
        let paid = meter.work(1);
        meter.release(listed);
        paid?;
        self.restrict_interval(interval, id, meter)
    }

    // A node with two children, part by part: a struct of them would serve this call alone. Both are dropped on every way out.
    #[inline(always)]
    fn after_two(
        &self,
        id: u64,
        op: BinaryOp,
        left: u64,
        a: Operand,
        right: u64,
        b: Operand,
        meter: &mut Meter,
    ) -> Result<Operand, Stop>
        ensures { answered result meter.new ≡ sees (after (two_left self.now.input.nodes.now self.now.input.constants.now op left right a b meter.old) (restrict self.now.input.constants.now (known_of self.now) id)) }
    {
        let interval = self
            .input
            .combine(op, left, right, a.bound.interval, b.bound.interval, meter);
        meter.release(b.entries);
        meter.release(a.entries);
        self.restrict_interval(interval?, id, meter)
    }

    // A slot that is narrowed, as an operand. Its ids are read only where it has a list. Not inlined, as `constant` below is not.
    #[inline(never)]
    fn narrow_slot(
        &self,
        slot: usize,
        restriction: Interval,
        meter: &mut Meter,
    ) -> Result<Operand, Stop>
        ensures { answered result meter.new ≡ sees (narrow self.now.input.constants.now restriction (value_at self.now.slots.now slot) meter.old) }
    {
        if rows::is_listed(self.slots, slot) {
            let value = rows::abstract_at(self.slots, slot);
            let narrow = refinements::narrow(self.input.constants, value, restriction, meter)?;
            return Ok(Operand::from(narrow));
        }
        narrow_bound(rows::bound_at(self.slots, slot), restriction, meter)
    }

    // A slot as an operand.
    fn slot(&self, slot: usize, id: u64, meter: &mut Meter) -> Result<Operand, Stop>
        ensures { answered result meter.new ≡ sees (after (copied (value_at self.now.slots.now slot) meter.old) (restrict self.now.input.constants.now (known_of self.now) id)) }
    {
        // Through `self` the slice would be read anew behind each write to the meter.
        let slots = self.slots;
        rows::copied_at(slots, slot, meter)?;
        let listed = rows::entries_at(slots, slot);
        match refinements::position(self.refinements, self.count, id, meter) {
            Ok(Some(k)) => {
                let restriction = refinements::restriction_at(self.refinements, k);
                self.narrow_slot(slot, restriction, meter)
            }
            Ok(None) => Ok(Operand {
                bound: rows::bound_at(slots, slot),
                entries: listed,
            }),
            Err(stop) => {
                meter.release(listed);
                Err(stop)
            }
        }
    }

    // A constant as an operand. Not inlined: its value would stand in each frame of a recursion that is 64 deep, and be cleared there.
    #[inline(never)]
    fn constant(&self, constant_id: u64, id: u64, meter: &mut Meter) -> Result<Operand, Stop>
        ensures { answered result meter.new ≡ sees (after (constant (id_of constant_id) (constant_at self.now.input.constants.now (id_of constant_id)) self.now.input.width meter.old) (restrict self.now.input.constants.now (known_of self.now) id)) }
    {
        let value = self.input.constant(constant_id, meter)?;
        Ok(Operand::from(self.restrict(value, id, meter)?))
    }

    // An Unknown as an operand. Not inlined, as `constant` is not.
    #[inline(never)]
    fn unknown(
        &self,
        integer: bool,
        reason: Widening,
        id: u64,
        meter: &mut Meter,
    ) -> Result<Operand, Stop>
        ensures { answered result meter.new ≡ sees (restrict self.now.input.constants.now (known_of self.now) id (unknown integer reason) meter.old) }
    {
        Ok(Operand::from(self.restrict(unknown(integer, reason), id, meter)?))
    }

    // An expression as an operand. The left child comes first.
    pub fn as_operand(&self, id: u64, meter: &mut Meter) -> Result<Operand, Stop>
        ensures { answered result meter.new ≡ sees (expression (input_in self.now.input) self.now.slots.now (known_of self.now) id meter.old) }
    {
        meter.work(1)?;
        match nodes::expression_at(self.input.nodes, id as usize) {
            Expression::Constant(constant) => self.constant(constant, id, meter),
            Expression::Slot(slot) => self.slot(slot as usize, id, meter),
            Expression::Unknown(integer, reason) => self.unknown(integer, reason, id, meter),
            Expression::Unary(op, child) => {
                let a = self.as_operand(child, meter)?;
                let interval = operators::unary(op, a.bound.interval);
                self.after_one(id, interval, a.entries, meter)
            }
            Expression::Absolute(child) => {
                let a = self.as_operand(child, meter)?;
                let interval = operators::absolute(a.bound.interval);
                self.after_one(id, interval, a.entries, meter)
            }
            // As in `both`, which in between would make the recursion mutual.
            Expression::Binary(op, left, right) => {
                let a = self.as_operand(left, meter)?;
                let b = self.as_operand(right, meter);
                let b = meter.holding(a.entries, b)?;
                self.after_two(id, op, left, a, right, b, meter)
            }
        }
    }

    // The value of an expression. One with children is numeric.
    pub fn expression(&self, id: u64, meter: &mut Meter) -> Result<Abstract, Stop>
        ensures { answered_value result meter.new ≡ expression (input_in self.now.input) self.now.slots.now (known_of self.now) id meter.old }
    {
        let value = match nodes::expression_at(self.input.nodes, id as usize) {
            Expression::Constant(constant) => {
                meter.work(1)?;
                self.input.constant(constant, meter)?
            }
            Expression::Slot(slot) => {
                meter.work(1)?;
                rows::abstract_at(self.slots, slot as usize).copied(meter)?
            }
            Expression::Unknown(integer, reason) => {
                meter.work(1)?;
                unknown(integer, reason)
            }
            _ => {
                let seen = self.as_operand(id, meter)?;
                return Ok(Abstract::numeric(seen.bound.interval));
            }
        };
        self.restrict(value, id, meter)
    }

    // Two expressions: the first is live while the second is worked out.
    pub fn both(&self, left: u64, right: u64, meter: &mut Meter) -> Result<(Operand, Operand), Stop>
        ensures { answered result meter.new ≡ sees_both (both (input_in self.now.input) self.now.slots.now (known_of self.now) left right meter.old) }
    {
        let a = self.as_operand(left, meter)?;
        let b = self.as_operand(right, meter);
        let b = meter.holding(a.entries, b)?;
        Ok((a, b))
    }
}
