//! Operators on intervals (`range`, `interval` and `covered` of transfer.rs, with `literal`): what an expression's node makes of the intervals of its children,
//! and the numbers that are written in expressions.
#![tactic(auto)]

ghost use Rattle.std.specs.Prelude.{◌≡◌};
ghost use Rattle.operators.specs.Arithmetic.{empty?, range_of, interval_from, unary_of, absolute_of, arithmetic, binary_of, difference?, span};
ghost use Rattle.lattice.specs.Constants.{constant_at};
ghost use Rattle.rows.specs.Row.{id_of};
ghost use Rattle.operators.specs.Literal.{number_of, literal, covered};

use interval::{Constant, Interval};
use nodes::{BinaryOp, UnaryOp};
use range::Range;

pub fn is_empty(interval: Interval) -> bool
    ensures { result ≡ empty? interval }
{
    matches!(interval, Interval::Bottom)
}

fn range_of(interval: Interval) -> Option<Range>
    ensures { result ≡ range_of interval }
{
    match interval {
        Interval::Bounded { low, high } => Range::new(low, high),
        _ => None,
    }
}

fn interval_from(range: Option<Range>) -> Interval
    ensures { result ≡ interval_from range }
{
    let Some(range) = range else {
        return Interval::Unbounded;
    };
    let (low, high) = range.bounds();
    Interval::Bounded { low, high }
}

pub fn unary(op: UnaryOp, interval: Interval) -> Interval
    ensures { result ≡ unary_of op interval }
{
    match (op, interval) {
        (_, Interval::Bottom) => Interval::Bottom,
        (UnaryOp::Negate, _) => interval_from(range_of(interval).and_then(Range::negation)),
        (UnaryOp::BitwiseNot, _) => Interval::Unbounded,
    }
}

// No range of absolute values is used.
pub fn absolute(interval: Interval) -> Interval
    ensures { result ≡ absolute_of interval }
{
    match interval {
        Interval::Bottom => Interval::Bottom,
        _ => Interval::Unbounded,
    }
}

fn arithmetic(op: BinaryOp, a: Range, b: Range) -> Option<Range>
    ensures { result ≡ arithmetic op a b }
{
    match op {
        BinaryOp::Add => a.sum(b),
        BinaryOp::Sub => a.difference(b),
        BinaryOp::Mul => a.product(b),
        _ => None,
    }
}

pub fn binary(op: BinaryOp, x: Interval, y: Interval) -> Interval
    ensures { result ≡ binary_of op x y }
{
    let (Some(a), Some(b)) = (range_of(x), range_of(y)) else {
        return Interval::Unbounded;
    };
    interval_from(arithmetic(op, a, b))
}

pub fn is_difference(op: BinaryOp) -> bool
    ensures { result ≡ difference? op }
{
    matches!(op, BinaryOp::Sub)
}

// From the low end of one interval to the high end of another.
pub fn span(low: Interval, high: Interval) -> Interval
    ensures { result ≡ span low high }
{
    let (Some((from, _)), Some((_, to))) = (low.endpoints(), high.endpoints()) else {
        return Interval::Bottom;
    };
    Interval::checked(i64::from(from), i64::from(to))
}

// The number of a constant. Ids of constants have 16 bits: `%`, since a cast alone must fit.
fn number_of(constants: &[u32], constant: u64) -> Option<i32>
    ensures { result ≡ number_of (constant_at constants.now (id_of constant)) }
{
    match lattice::constant_at(constants, (constant % 65536) as u16) {
        Constant::Number(n) => Some(n),
        _ => None,
    }
}

// The number of an expression that is a constant. Its row tells without being read as an expression: a product of expressions asks for both
// each time that it is evaluated.
pub fn literal_of(nodes: &[u64], constants: &[u32], id: u64) -> Option<i32>
    ensures { result ≡ literal nodes.now constants.now id }
{
    let node = nodes::node_at(nodes, id as usize);
    if node.kind != 0 {
        return None;
    }
    number_of(constants, node.left)
}

// Whether the range of an operator is used.
pub fn is_covered(nodes: &[u64], constants: &[u32], op: BinaryOp, left: u64, right: u64) -> bool
    ensures { result ≡ covered nodes.now constants.now op left right }
{
    match op {
        BinaryOp::Add | BinaryOp::Sub => true,
        BinaryOp::Mul => {
            literal_of(nodes, constants, left).is_some()
                || literal_of(nodes, constants, right).is_some()
        }
        _ => false,
    }
}
