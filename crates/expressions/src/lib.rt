//! `expression` (input.rs): an acyclic expression, whose children have smaller ids. Equal ones share an id, Unknowns never do.
#![tactic(auto)]

ghost use Rattle.std.specs.Prelude.{◌≡◌, ◌+◌, ◌*◌, ◌≤◌, ◌<◌, MatchOption, length};
ghost use Rattle.expressions.specs.Places.{first_node};
ghost use Rattle.sizes.specs.Sizes as size;
ghost use Rattle.limits.specs.Metered.{answered};
ghost use Rattle.limits.specs.Refusal.{replied};
ghost use Rattle.nodes.specs.Node.{same_node, node_at};
ghost use Rattle.expressions.specs.Expression.{supported, child_nesting, deepest, valid, shared, seek_node, older, spacious, tables, share, expression_call};

use limits::{Meter, Refusal, Resource, Stop};
use nodes::{BinaryOp, Expression, Node};
use store::{Counts, Kind, Store};

fn is_supported(value: Expression) -> bool
    ensures { result ≡ supported value }
{
    !matches!(
        value,
        Expression::Binary(BinaryOp::Div | BinaryOp::Mod, _, _)
    )
}

// A missing child counts 0.
fn child_nesting(nodes: &[u64], count: usize, id: u64) -> u64
    ensures { result ≡ child_nesting nodes.now count id }
{
    if id < count as u64 {
        nodes::nesting_at(nodes, id as usize)
    } else {
        0
    }
}

// The larger of the children's nesting.
fn deepest(nodes: &[u64], count: usize, value: Expression) -> u64
    ensures { result ≡ deepest nodes.now count value }
{
    match value {
        Expression::Unary(_, id) | Expression::Absolute(id) => child_nesting(nodes, count, id),
        Expression::Binary(_, left, right) => {
            child_nesting(nodes, count, left).max(child_nesting(nodes, count, right))
        }
        _ => 0,
    }
}

// Whether what the expression names exists.
fn is_valid(counts: Counts, value: Expression) -> bool
    ensures { result ≡ valid counts value }
{
    let constants = counts.constants as u64;
    let expressions = counts.expressions as u64;
    match value {
        Expression::Constant(id) => id < constants,
        Expression::Unary(_, id) | Expression::Absolute(id) => id < expressions,
        Expression::Binary(_, left, right) => left < expressions && right < expressions,
        _ => true,
    }
}

// Whether the table has room for one expression more, and that of constants has all that are counted.
fn has_room(counts: Counts) -> bool
    ensures { result ≡ spacious counts }
{
    counts.expressions < sizes::EXPRESSIONS && counts.constants <= sizes::CONSTANTS
}

fn is_shared(value: Expression) -> bool
    ensures { result ≡ shared value }
{
    !matches!(value, Expression::Unknown(_, _))
}

// Whether a row has these cells. Most rows differ in `left`: it is compared before the others are read.
fn has_node(nodes: &[u64], i: usize, node: Node) -> bool
    requires { size.node_row * i + 2 < length nodes.now }
    ensures { result ≡ same_node (node_at nodes.now i) node }
{
    nodes[sizes::NODE_ROW * i + 2] == node.left && nodes::node_at(nodes, i) == node
}

// The first of the rows that has these cells. Two are looked at in a turn: where the loop over one came to lie in memory decided on a fifth of the
// time of bench/'s job `calls`. A `for`: `find` over the range takes 1.7 times as long.
fn first_node(nodes: &[u64], count: usize, node: Node) -> Option<usize>
    requires { size.node_row * count ≤ length nodes.now }
    ensures { MatchOption result (count ≤ first_node nodes.now node 0 count) (λ i. (i < count) × (i ≡ first_node nodes.now node 0 count)) }
{
    for pair in 0..count / 2 {
        if has_node(nodes, 2 * pair, node) {
            return Some(2 * pair);
        }
        if has_node(nodes, 2 * pair + 1, node) {
            return Some(2 * pair + 1);
        }
    }
    if count % 2 == 1 && has_node(nodes, count - 1, node) {
        return Some(count - 1);
    }
    None
}

// The first of the `count` rows, as the header counts them, that has these cells, or the next place; one unit of work for each that is looked at.
fn seek_node(
    nodes: &[u64],
    count: usize,
    node: Node,
    meter: &mut Meter,
) -> Result<Result<usize, usize>, Stop>
    requires { size.node_row * count ≤ length nodes.now }
    ensures { answered result meter.new ≡ seek_node nodes.now node 0 count meter.old }
{
    match first_node(nodes, count, node) {
        Some(place) => {
            meter.units(place as u64 + 1)?;
            Ok(Ok(place))
        }
        None => {
            meter.units(count as u64)?;
            Ok(Err(count))
        }
    }
}

// The older equal expression, or the place of a new one. An Unknown is not sought.
fn seek_older(
    nodes: &[u64],
    count: usize,
    value: Expression,
    meter: &mut Meter,
) -> Result<Result<usize, usize>, Stop>
    requires { size.node_row * count ≤ length nodes.now }
    ensures { answered result meter.new ≡ older nodes.now count value meter.old }
{
    if is_shared(value) {
        seek_node(nodes, count, Node::from(value), meter)
    } else {
        Ok(Err(count))
    }
}

// An expression that the call takes: the older id, or a new row.
fn share(store: &mut Store, nodes: &mut [u64], value: Expression) -> Result<usize, Refusal>
    requires { (store.old.counts.expressions < size.expressions) × (deepest nodes.old store.old.counts.expressions value < size.nesting) × (size.node_cells ≤ length nodes.old) }
    ensures { replied result (tables store.new nodes.new) ≡ share value (tables store.old nodes.old) }
{
    let id = store.counts.expressions;
    let mut meter = store.budget.meter();
    let sought = seek_older(nodes, id, value, &mut meter);
    store.budget.settle(meter);
    if let Ok(old) = sought? {
        return Ok(old);
    }
    store.pay(Resource::Links, 1)?;
    let nesting = 1 + deepest(nodes, id, value);
    nodes::put_node(nodes, id, Node::from(value), nesting);
    store.counts.expressions += 1;
    Ok(id)
}

// The id of an expression: that of an older equal one, but for an Unknown, else a new one.
// Refused by 1, a table of another size, division, remainder, a store that is not open, nesting over 64; 2, no room; 3; 5, no such part; 3; 8.
// Charges a unit of work, one for each expression that is compared, and a link where it is new.
#[tactic(auto, unfolding(crate::specs::Expression::expression_call))]
pub fn expression(store: &mut Store, nodes: &mut [u64], value: Expression) -> Result<usize, Refusal>
    ensures { replied result (tables store.new nodes.new) ≡ expression_call value (tables store.old nodes.old) }
{
    let count = store.counts.expressions;
    if nodes.len() != sizes::NODE_CELLS || !is_supported(value) {
        return Err(Refusal::Shape);
    }
    if !store.phase.admits(Kind::Building) {
        return Err(Refusal::Closed);
    }
    if sizes::NESTING as u64 <= deepest(nodes, count, value) {
        return Err(Refusal::Shape);
    }
    if !has_room(store.counts) {
        return Err(Refusal::Full);
    }
    store.pay(Resource::Work, 1)?;
    if !is_valid(store.counts, value) {
        return Err(Refusal::Missing);
    }
    share(store, nodes, value)
}
