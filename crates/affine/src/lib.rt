//! What a comparison says of its operands, and what that says of a slot (the arithmetic of `refine_comparison` and `refine_operand` of
//! transfer.rs): where an operand is a slot and a literal, the slot lies in an interval too.
#![tactic(auto)]

ghost use Rattle.std.specs.Prelude.{◌≡◌};
ghost use Rattle.interval.specs.Interval.{endpoints_of};
ghost use Rattle.affine.specs.Affine.{flipped_of, restriction, restricted, neq?, shaped, binary_shape, affine, solved};

use interval::Interval;
use nodes::{BinaryOp, Expression};
use rules::Relation;

// How an expression is made of a slot and a constant: slot + constant, slot − constant, or constant − slot.
#[derive(Clone, Copy, Debug, PartialEq, Eq)]
pub enum Shape {
    Sum,
    Difference,
    Reversed,
}

// A slot and a literal in one of these shapes.
#[derive(Clone, Copy, Debug, PartialEq, Eq)]
pub struct Affine {
    pub shape: Shape,
    pub slot: u64,
    pub constant: i32,
}

// The relation as the right operand sees it.
pub fn flipped(relation: Relation) -> Relation
    ensures { result ≡ flipped_of relation }
{
    match relation {
        Relation::Lt => Relation::Gt,
        Relation::Le => Relation::Ge,
        Relation::Gt => Relation::Lt,
        Relation::Ge => Relation::Le,
        Relation::Eq => Relation::Eq,
        Relation::Neq => Relation::Neq,
    }
}

// Where what stands in a relation to a number from low to high lies.
fn restriction(relation: Relation, low: i32, high: i32) -> Interval
    ensures { result ≡ restriction relation low high }
{
    let (low, high) = (i64::from(low), i64::from(high));
    let (least, greatest) = (i64::from(i32::MIN), i64::from(i32::MAX));
    match relation {
        Relation::Lt => Interval::checked(least, high - 1),
        Relation::Le => Interval::checked(least, high),
        Relation::Gt => Interval::checked(low + 1, greatest),
        Relation::Ge => Interval::checked(low, greatest),
        Relation::Eq => Interval::checked(low, high),
        Relation::Neq => Interval::Unbounded,
    }
}

pub fn restricted(relation: Relation, own: Interval, other: Interval) -> Interval
    ensures { result ≡ restricted relation own other }
{
    let (Some(_), Some((low, high))) = (own.endpoints(), other.endpoints()) else {
        return Interval::Bottom;
    };
    restriction(relation, low, high)
}

pub fn is_neq(relation: Relation) -> bool
    ensures { result ≡ neq? relation }
{
    matches!(relation, Relation::Neq)
}

// A shape of an expression that may be a slot and of the number that may be written in another.
fn shaped(shape: Shape, expression: Expression, literal: Option<i32>) -> Option<Affine>
    ensures { result ≡ shaped shape expression literal }
{
    match (expression, literal) {
        (Expression::Slot(slot), Some(constant)) => Some(Affine {
            shape,
            slot,
            constant,
        }),
        _ => None,
    }
}

// Of the operands of a difference the left one is a slot before the right one is.
fn binary_shape(
    nodes: &[u64],
    constants: &[u32],
    op: BinaryOp,
    left: u64,
    right: u64,
) -> Option<Affine>
    ensures { result ≡ binary_shape nodes.now constants.now op left right }
{
    let first = nodes::expression_at(nodes, left as usize);
    let second = nodes::expression_at(nodes, right as usize);
    let literal = |id| operators::literal_of(nodes, constants, id);
    match (op, first) {
        (BinaryOp::Add, _) => shaped(Shape::Sum, first, literal(right)),
        (BinaryOp::Sub, Expression::Slot(_)) => shaped(Shape::Difference, first, literal(right)),
        (BinaryOp::Sub, _) => shaped(Shape::Reversed, second, literal(left)),
        _ => None,
    }
}

// The slot and the literal that an expression is made of, if it has one of four shapes.
#[tactic(auto, unfolding(crate::specs::Affine::affine))]
pub fn affine_of(nodes: &[u64], constants: &[u32], id: u64) -> Option<Affine>
    ensures { result ≡ affine nodes.now constants.now id }
{
    match nodes::expression_at(nodes, id as usize) {
        Expression::Slot(slot) => Some(Affine {
            shape: Shape::Sum,
            slot,
            constant: 0,
        }),
        Expression::Binary(op, left, right) => binary_shape(nodes, constants, op, left, right),
        _ => None,
    }
}

impl Affine {
    // Where the slot lies if the expression lies in an interval.
    pub fn solve(self, interval: Interval) -> Interval
        ensures { result ≡ solved self.shape self.constant (endpoints_of interval) }
    {
        let Some((low, high)) = interval.endpoints() else {
            return Interval::Bottom;
        };
        let (low, high) = (i64::from(low), i64::from(high));
        let c = i64::from(self.constant);
        match self.shape {
            Shape::Sum => Interval::checked(low - c, high - c),
            Shape::Difference => Interval::checked(low + c, high + c),
            Shape::Reversed => Interval::checked(c - high, c - low),
        }
    }
}
