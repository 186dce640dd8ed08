//! The functions of `service` for C, over slices of any length: a crate is a library or a static library, not both, so these are one call each to
//! those that are proved. The test of robust/ drives them with made-up headers and tables; the expressions and rules that it makes of any words are
//! in parts.rs.
#![tactic(auto)]

mod parts;

use keys::Key;
use limits::Refusal;
use replies::Reply;
use shown::{BoundReply, KeyReply, StatusReply, ValueReply};
use sizes::{HEADER, NAME};
use store::Phase;

// A refusal by the phase's word: one that carries the stop, or another one.
fn refusal_of(words: &[u64; HEADER]) -> Refusal {
    match header::of(words).phase {
        Phase::Absent => Refusal::Closed,
        Phase::Open => Refusal::Shape,
        Phase::Completed => Refusal::Full,
        Phase::Stopped(stop, _) => Refusal::Limit(stop),
    }
}

#[unsafe(no_mangle)]
pub extern "C" fn service_fresh(words: &mut [u64; HEADER]) -> Reply {
    service::fresh(words)
}

#[unsafe(no_mangle)]
pub extern "C" fn service_context(words: &mut [u64; HEADER], context: u32) -> Reply {
    service::context(words, context)
}

#[unsafe(no_mangle)]
pub extern "C" fn service_work(words: &mut [u64; HEADER], amount: u64) -> Reply {
    service::work(words, amount)
}

#[unsafe(no_mangle)]
pub extern "C" fn service_predicate(
    words: &mut [u64; HEADER],
    predicates: &mut [u32],
    seeds: &mut [u32],
    arity: u64,
) -> Reply {
    service::predicate(words, predicates, seeds, arity)
}

#[unsafe(no_mangle)]
pub extern "C" fn service_argument(
    words: &[u64; HEADER],
    predicates: &[u32],
    predicate: u64,
    position: u64,
) -> Reply {
    service::argument(words, predicates, predicate, position)
}

#[unsafe(no_mangle)]
pub extern "C" fn service_number(
    words: &mut [u64; HEADER],
    names: &mut [u8],
    constants: &mut [u32],
    order: &mut [u32],
    thresholds: &mut [i32],
    number: i32,
) -> Reply {
    service::constant(
        words,
        names,
        constants,
        order,
        thresholds,
        Key::Number(number),
    )
}

#[unsafe(no_mangle)]
pub extern "C" fn service_name(
    words: &mut [u64; HEADER],
    names: &mut [u8],
    constants: &mut [u32],
    order: &mut [u32],
    thresholds: &mut [i32],
    name: &[u8],
) -> Reply {
    service::constant(words, names, constants, order, thresholds, Key::Name(name))
}

#[unsafe(no_mangle)]
pub extern "C" fn service_expression(
    words: &mut [u64; HEADER],
    nodes: &mut [u64],
    kind: u64,
    a: u64,
    b: u64,
    c: u64,
) -> Reply {
    service::expression(words, nodes, parts::expression(kind, a, b, c))
}

#[unsafe(no_mangle)]
pub extern "C" fn service_seed_value(
    words: &mut [u64; HEADER],
    constants: &[u32],
    seeds: &mut [u32],
    records: &mut [u32],
    argument: u64,
    value: u64,
) -> Reply {
    service::seed_value(words, constants, seeds, records, argument, value)
}

#[unsafe(no_mangle)]
pub extern "C" fn service_seed_interval(
    words: &mut [u64; HEADER],
    seeds: &mut [u32],
    records: &mut [u32],
    thresholds: &mut [i32],
    argument: u64,
    low: i32,
    high: i32,
) -> Reply {
    service::seed_interval(words, seeds, records, thresholds, argument, low, high)
}

#[unsafe(no_mangle)]
pub extern "C" fn service_rule(
    words: &mut [u64; HEADER],
    nodes: &[u64],
    rules: &mut [u32],
    records: &mut [u32],
    rule: &[u64],
) -> Reply {
    service::rule(words, nodes, rules, records, &parts::rule(rule))
}

#[unsafe(no_mangle)]
pub extern "C" fn service_run(
    words: &mut [u64; HEADER],
    nodes: &[u64],
    constants: &[u32],
    rules: &[u32],
    seeds: &[u32],
    thresholds: &mut [i32],
    arguments: &mut [u32],
    slots: &mut [u32],
    current: &mut [u32],
    growth: &mut [u32],
    scratch: &mut [u32],
) -> Reply {
    service::run(
        words, nodes, constants, rules, seeds, thresholds, arguments, slots, current, growth,
        scratch,
    )
}

#[unsafe(no_mangle)]
pub extern "C" fn service_read_argument(
    words: &[u64; HEADER],
    arguments: &[u32],
    argument: u64,
) -> ValueReply {
    service::read_argument(words, arguments, argument)
}

#[unsafe(no_mangle)]
pub extern "C" fn service_context_count(
    words: &[u64; HEADER],
    records: &[u32],
    argument: u64,
) -> Reply {
    service::context_count(words, records, argument)
}

#[unsafe(no_mangle)]
pub extern "C" fn service_read_context(
    words: &[u64; HEADER],
    records: &[u32],
    argument: u64,
    k: u64,
) -> Reply {
    service::read_context(words, records, argument, k)
}

#[unsafe(no_mangle)]
pub extern "C" fn service_read_slot(
    words: &[u64; HEADER],
    rules: &[u32],
    slots: &[u32],
    rule: u64,
    slot: u64,
    after: bool,
) -> BoundReply {
    service::read_slot(words, rules, slots, rule, slot, after)
}

#[unsafe(no_mangle)]
pub extern "C" fn service_read_key(
    words: &[u64; HEADER],
    constants: &[u32],
    constant: u64,
) -> KeyReply {
    service::read_key(words, constants, constant)
}

#[unsafe(no_mangle)]
pub extern "C" fn service_read_name(
    words: &[u64; HEADER],
    names: &[u8],
    constants: &[u32],
    constant: u64,
    text: &mut [u8; NAME],
) -> Reply {
    service::read_name(words, names, constants, constant, text)
}

#[unsafe(no_mangle)]
pub extern "C" fn service_status(words: &[u64; HEADER]) -> StatusReply {
    service::status(words)
}

// The lines of the report, by number: of these `service` has no functions, since a report is no call of demand 3.
#[unsafe(no_mangle)]
pub extern "C" fn service_line(
    words: &[u64; HEADER],
    arguments: &[u32],
    rules: &[u32],
    slots: &[u32],
    line: &mut [u8],
    call: u64,
    a: u64,
    b: u64,
) -> Reply {
    let store = header::of(words);
    if call == 7 {
        return replies::number(report::line_count(&store, arguments, rules, slots));
    }
    replies::id(match call {
        0 => report::status_line(&store, line),
        1 => report::argument_line(&store, arguments, line, a),
        2 => report::slot_line(&store, rules, slots, line, a, b, false),
        3 => report::slot_line(&store, rules, slots, line, a, b, true),
        4 => report::statistics_line(&store, line),
        5 => report::refusal_line(line, refusal_of(words)),
        _ => report::report_line(&store, arguments, rules, slots, line, a),
    })
}
