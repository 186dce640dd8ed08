//! Expressions (numeric.rs) and their rows in a lent table: four cells that tell the expression, and a fifth for its nesting. Cells beyond
//! the table read as 0 and are not written; any contents read as an expression whose children have smaller ids.
#![tactic(auto)]

ghost use Rattle.std.specs.Prelude.{◌≡◌, ◌*◌, min};
ghost use Rattle.sizes.specs.Sizes as size;
ghost use Rattle.nodes.specs.Node.{unary_number, binary_number, node_of, widening_of, read_unary, read_binary, expression_of, node_at, nesting_at, expression_at, put_node};

use cells::{put_word, word_at};
use lattice::Widening;

#[derive(Clone, Copy, Debug, PartialEq, Eq)]
pub enum UnaryOp {
    Negate,
    BitwiseNot,
}

#[derive(Clone, Copy, Debug, PartialEq, Eq)]
pub enum BinaryOp {
    Add,
    Sub,
    Mul,
    Div,
    Mod,
    Pow,
    BitAnd,
    BitOr,
    BitXor,
}

// Ids and slots are as the caller gives them: any 64-bit number.
#[derive(Clone, Copy, Debug, PartialEq, Eq)]
pub enum Expression {
    Constant(u64),
    Slot(u64),
    Unary(UnaryOp, u64),
    Absolute(u64),
    Binary(BinaryOp, u64, u64),
    Unknown(bool, Widening),
}

// The cells that tell an expression.
#[derive(Clone, Copy, Debug, PartialEq, Eq)]
pub struct Node {
    pub kind: u64,
    pub operator: u64,
    pub left: u64,
    pub right: u64,
}

// What cells read as that no call writes.
const UNREAD: Expression = Expression::Unknown(false, Widening::HeadForm);

// The numbers that the job format has.
impl From<UnaryOp> for u64 {
    ghost from_gives = { λ op n. n ≡ unary_number op };

    fn from(op: UnaryOp) -> u64 {
        match op {
            UnaryOp::Negate => 0,
            UnaryOp::BitwiseNot => 1,
        }
    }
}

impl From<BinaryOp> for u64 {
    ghost from_gives = { λ op n. n ≡ binary_number op };

    fn from(op: BinaryOp) -> u64 {
        match op {
            BinaryOp::Add => 0,
            BinaryOp::Sub => 1,
            BinaryOp::Mul => 2,
            BinaryOp::Div => 3,
            BinaryOp::Mod => 4,
            BinaryOp::Pow => 5,
            BinaryOp::BitAnd => 6,
            BinaryOp::BitOr => 7,
            BinaryOp::BitXor => 8,
        }
    }
}

impl From<Expression> for Node {
    ghost from_gives = { λ e n. n ≡ node_of e };

    fn from(expression: Expression) -> Node {
        let (kind, operator, left, right) = match expression {
            Expression::Constant(id) => (0, 0, id, 0),
            Expression::Slot(slot) => (1, 0, slot, 0),
            Expression::Unary(op, value) => (2, u64::from(op), value, 0),
            Expression::Absolute(value) => (3, 0, value, 0),
            Expression::Binary(op, left, right) => (4, u64::from(op), left, right),
            Expression::Unknown(integer, reason) => {
                (5, u64::from(integer), u64::from(u32::from(reason)), 0)
            }
        };
        Node {
            kind,
            operator,
            left,
            right,
        }
    }
}

// Where a row begins. All rows beyond the table begin at its end.
fn start(len: usize, id: usize) -> usize
    ensures { result ≡ min (size.node_row * id) len }
{
    sizes::NODE_ROW.saturating_mul(id).min(len)
}

pub fn node_at(cells: &[u64], id: usize) -> Node
    ensures { result ≡ node_at cells.now id }
{
    let at = start(cells.len(), id);
    // A row that lies in the table wants no test for each cell.
    if let [kind, operator, left, right, ..] = &cells[at..] {
        return Node {
            kind: *kind,
            operator: *operator,
            left: *left,
            right: *right,
        };
    }
    Node {
        kind: word_at(cells, at),
        operator: word_at(cells, at + 1),
        left: word_at(cells, at + 2),
        right: word_at(cells, at + 3),
    }
}

pub fn nesting_at(cells: &[u64], id: usize) -> u64
    ensures { result ≡ nesting_at cells.now id }
{
    word_at(cells, start(cells.len(), id) + 4)
}

pub fn put_node(cells: &mut [u64], id: usize, node: Node, nesting: u64)
    ensures { cells.new ≡ put_node cells.old id node nesting }
{
    let at = start(cells.len(), id);
    put_word(cells, at, node.kind);
    put_word(cells, at + 1, node.operator);
    put_word(cells, at + 2, node.left);
    put_word(cells, at + 3, node.right);
    put_word(cells, at + 4, nesting);
}

// Any number reads as a reason: no `TryFrom`, since it cannot fail.
fn widening_of(number: u64) -> Widening
    ensures { result ≡ widening_of number }
{
    match number {
        2 => Widening::HeadTerm,
        3 => Widening::UnboundVariable,
        4 => Widening::SymbolSize,
        5 => Widening::ValueWidth,
        6 => Widening::Dependency,
        _ => Widening::HeadForm,
    }
}

fn read_unary(operator: u64, value: u64) -> Expression
    ensures { result ≡ read_unary operator value }
{
    match operator {
        0 => Expression::Unary(UnaryOp::Negate, value),
        1 => Expression::Unary(UnaryOp::BitwiseNot, value),
        _ => UNREAD,
    }
}

// Division and remainder are no part of the port yet.
fn read_binary(operator: u64, left: u64, right: u64) -> Expression
    ensures { result ≡ read_binary operator left right }
{
    let op = match operator {
        0 => BinaryOp::Add,
        1 => BinaryOp::Sub,
        2 => BinaryOp::Mul,
        5 => BinaryOp::Pow,
        6 => BinaryOp::BitAnd,
        7 => BinaryOp::BitOr,
        8 => BinaryOp::BitXor,
        _ => return UNREAD,
    };
    Expression::Binary(op, left, right)
}

// The expression of a node: its children have ids under `id`, or it is none. Inlined, as `expression_at` is, which says why.
#[inline(always)]
fn expression_of(node: Node, id: u64) -> Expression
    ensures { result ≡ expression_of node id }
{
    match node.kind {
        0 => Expression::Constant(node.left),
        1 => Expression::Slot(node.left),
        2 if node.left < id => read_unary(node.operator, node.left),
        3 if node.left < id => Expression::Absolute(node.left),
        4 if node.left < id && node.right < id => {
            read_binary(node.operator, node.left, node.right)
        }
        5 => Expression::Unknown(node.operator != 0, widening_of(node.left)),
        _ => UNREAD,
    }
}

// The expression of a row. Inlined: handed over through memory, it takes a fifth of the instructions of a deep expression.
#[inline(always)]
pub fn expression_at(cells: &[u64], id: usize) -> Expression
    ensures { result ≡ expression_at cells.now id }
{
    expression_of(node_at(cells, id), id as u64)
}
