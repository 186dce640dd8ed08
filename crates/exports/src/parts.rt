//! Expressions and rules of any words. Words that are missing are 0.
ghost use Rattle.std.specs.Prelude.{◌<◌};

use cells::word_at;
use lattice::Widening;
use nodes::{BinaryOp, Expression, UnaryOp};
use rules::{AggregateFunction, Binding, Guard, Head, Lengths, Relation, Rule};
use std::array;

// A code that no kind has is the last one's.
pub fn expression(kind: u64, a: u64, b: u64, c: u64) -> Expression {
    match kind {
        0 => Expression::Constant(a),
        1 => Expression::Slot(a),
        2 => Expression::Unary(codes::unary(a).unwrap_or(UnaryOp::BitwiseNot), b),
        3 => Expression::Absolute(a),
        4 => Expression::Binary(codes::binary(a).unwrap_or(BinaryOp::BitXor), b, c),
        _ => Expression::Unknown(a == 1, codes::reason(b).unwrap_or(Widening::Dependency)),
    }
}

// The i-th binding: four words, from the sixth word on.
fn binding(words: &[u64], i: usize) -> Binding
    requires { i < 32 }
{
    let at = 5 + 4 * i;
    let slot = word_at(words, at + 1);
    let a = word_at(words, at + 2);
    match word_at(words, at) {
        0 => Binding::Positive { slot, argument: a },
        1 => Binding::Assign { slot, value: a },
        2 => Binding::Range {
            slot,
            low: a,
            high: word_at(words, at + 3),
        },
        _ => Binding::Aggregate {
            slot,
            function: AggregateFunction::from(a),
        },
    }
}

// The i-th guard: four words, behind the bindings. Beside the binding, with which it shares no word but the first.
fn guard(words: &[u64], i: usize) -> Guard
    requires { i < 32 }
{
    let at = 133 + 4 * i;
    let a = word_at(words, at + 1);
    let b = word_at(words, at + 2);
    let c = word_at(words, at + 3);
    match word_at(words, at) {
        0 => Guard::Compare {
            left: a,
            relation: Relation::from(b),
            right: c,
        },
        _ => Guard::Membership {
            slot: a,
            low: b,
            high: c,
        },
    }
}

// The i-th head: two words, behind the guards.
fn head(words: &[u64], i: usize) -> Head
    requires { i < 16 }
{
    let at = 261 + 2 * i;
    Head {
        argument: word_at(words, at),
        value: word_at(words, at + 1),
    }
}

// The slots, the four lengths, the bindings, the guards and the heads.
pub fn rule(words: &[u64]) -> Rule {
    let lengths = Lengths {
        bindings: word_at(words, 1),
        guards: word_at(words, 2),
        heads: word_at(words, 3),
        queries: word_at(words, 4),
    };
    Rule {
        slots: word_at(words, 0),
        bindings: array::from_fn(|i| binding(words, i)),
        guards: array::from_fn(|i| guard(words, i)),
        heads: array::from_fn(|i| head(words, i)),
        lengths,
    }
}
