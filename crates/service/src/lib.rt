//! The store as a service holds it: its header as 64-bit words, its tables as slices of any size that the caller lends, and each answer by value
//! in a struct of numbers. Every function is one call of an entry point, and its promise is the `Exchange` of soundness/specs/Code (for `fresh`
//! `Begins`), of which demand 3 speaks. Refusals and charges are the entry point's.
#![tactic(auto)]

ghost use Rattle.std.specs.Prelude.{◌≡◌, drop};
ghost use Rattle.header.specs.Header.{limits_in, header_of};
ghost use Rattle.keys.specs.Key.{key_of};
ghost use Rattle.input.specs.Input as input;
ghost use Rattle.engine.specs.Call.{read, tables, working, run_leaves};
ghost use Rattle.numeric.specs.Question as asks;
ghost use Rattle.numeric.specs.Step as calls;
ghost use Rattle.numeric.specs.Step.{State};
ghost use Rattle.soundness.specs.Code.{Begins, Exchange};
ghost use Rattle.service.specs.Told as told;
ghost use Rattle.service.specs.Told.{ended_reply};
ghost use Rattle.service.specs.Lent.{for_header, for_predicate, for_argument, for_constant, for_expression, for_value, for_interval, for_rule, for_run, for_argument_reading, for_context_reading, for_slot_reading, for_key_reading, for_name_reading};

use keys::Key;
use limits::Refusal;
use nodes::Expression;
use numeric::Ended;
use replies::Reply;
use rules::Rule;
use shown::{BoundReply, KeyReply, StatusReply, ValueReply};
use sizes::{HEADER, NAME};

// A new store with the limits of the first nine words. Refused, the words are those of no store, and every call on them meets 1: whoever overlooks
// the refusal cannot go on with the store that stood there before.
pub fn fresh(words: &mut [u64; HEADER]) -> Reply
    ensures { Begins (limits_in words.old) (told.done result) (header_of words.new) }
{
    let (store, answer) = store::fresh(header::limits_of(words));
    header::put(&store, words);
    replies::done(answer)
}

// The context of all later calls.
pub fn context(words: &mut [u64; HEADER], context: u32) -> Reply
    ensures { (s : State) → Exchange (for_header (header_of words.old) s) (calls.store (input.context context)) (told.done result) (for_header (header_of words.new) s) }
{
    let mut store = header::of(words);
    let answer = store.context(context);
    header::put(&store, words);
    replies::done(answer)
}

// The caller's own work.
pub fn work(words: &mut [u64; HEADER], amount: u64) -> Reply
    ensures { (s : State) → Exchange (for_header (header_of words.old) s) (calls.store (input.work amount)) (told.done result) (for_header (header_of words.new) s) }
{
    let mut store = header::of(words);
    let answer = store.work(amount);
    header::put(&store, words);
    replies::done(answer)
}

// A new predicate: its id.
pub fn predicate(
    words: &mut [u64; HEADER],
    predicates: &mut [u32],
    seeds: &mut [u32],
    arity: u64,
) -> Reply
    ensures { (s : State) → Exchange (for_predicate (header_of words.old) predicates.old seeds.old s) (calls.store (input.predicate arity)) (told.id result) (for_predicate (header_of words.new) predicates.new seeds.new s) }
{
    let mut store = header::of(words);
    let answer = store.predicate(predicates, seeds, arity);
    header::put(&store, words);
    replies::id(answer)
}

// The id of an argument.
pub fn argument(words: &[u64; HEADER], predicates: &[u32], predicate: u64, position: u64) -> Reply
    ensures { (s : State) → Exchange (for_argument (header_of words.now) predicates.now s) (calls.store (input.argument predicate position)) (told.id result) (for_argument (header_of words.now) predicates.now s) }
{
    replies::id(header::of(words).argument(predicates, predicate, position))
}

// The id of a constant, a new one where its key is new.
pub fn constant(
    words: &mut [u64; HEADER],
    names: &mut [u8],
    constants: &mut [u32],
    order: &mut [u32],
    thresholds: &mut [i32],
    key: Key,
) -> Reply
    ensures { (s : State) → Exchange (for_constant (header_of words.old) names.old constants.old order.old thresholds.old s) (calls.store (input.constant (key_of key.entry))) (told.id result) (for_constant (header_of words.new) names.new constants.new order.new thresholds.new s) }
{
    let mut store = header::of(words);
    let answer = constants::constant(&mut store, names, constants, order, thresholds, key);
    header::put(&store, words);
    replies::id(answer)
}

// The id of an expression, a new one where there is none like it.
pub fn expression(words: &mut [u64; HEADER], nodes: &mut [u64], expression: Expression) -> Reply
    ensures { (s : State) → Exchange (for_expression (header_of words.old) nodes.old s) (calls.store (input.expression expression)) (told.id result) (for_expression (header_of words.new) nodes.new s) }
{
    let mut store = header::of(words);
    let answer = expressions::expression(&mut store, nodes, expression);
    header::put(&store, words);
    replies::id(answer)
}

// A constant is seeded to an argument.
pub fn seed_value(
    words: &mut [u64; HEADER],
    constants: &[u32],
    seeds: &mut [u32],
    records: &mut [u32],
    argument: u64,
    value: u64,
) -> Reply
    ensures { (s : State) → Exchange (for_value (header_of words.old) constants.now seeds.old records.old s) (calls.store (input.seed_value argument value)) (told.done result) (for_value (header_of words.new) constants.now seeds.new records.new s) }
{
    let mut store = header::of(words);
    let answer = seeds::seed_value(&mut store, constants, seeds, records, argument, value);
    header::put(&store, words);
    replies::done(answer)
}

// The numbers from low to high are seeded to an argument.
pub fn seed_interval(
    words: &mut [u64; HEADER],
    seeds: &mut [u32],
    records: &mut [u32],
    thresholds: &mut [i32],
    argument: u64,
    low: i32,
    high: i32,
) -> Reply
    ensures { (s : State) → Exchange (for_interval (header_of words.old) seeds.old records.old thresholds.old s) (calls.store (input.seed_interval argument low high)) (told.done result) (for_interval (header_of words.new) seeds.new records.new thresholds.new s) }
{
    let mut store = header::of(words);
    let answer = seeds::seed_interval(&mut store, seeds, records, thresholds, argument, low, high);
    header::put(&store, words);
    replies::done(answer)
}

// A new rule: its id.
pub fn rule(
    words: &mut [u64; HEADER],
    nodes: &[u64],
    rules: &mut [u32],
    records: &mut [u32],
    rule: &Rule,
) -> Reply
    ensures { (s : State) → Exchange (for_rule (header_of words.old) nodes.now rules.old records.old s) (calls.store (input.rule rule.now)) (told.id result) (for_rule (header_of words.new) nodes.now rules.new records.new s) }
{
    let mut store = header::of(words);
    let answer = producers::rule(&mut store, nodes, rules, records, rule);
    header::put(&store, words);
    replies::id(answer)
}

// The run: accepted where it was taken, whether it has completed or stopped. The last three tables are those that it works in;
// the first two of them hold the current values and the growth afterwards.
pub fn run(
    words: &mut [u64; HEADER],
    nodes: &[u64],
    constants: &[u32],
    rules: &[u32],
    seeds: &[u32],
    thresholds: &mut [i32],
    arguments: &mut [u32],
    slots: &mut [u32],
    current: &mut [u32],
    growth: &mut [u32],
    scratch: &mut [u32],
) -> Reply
    ensures exchange { (s : State) → Exchange (for_run (header_of words.old) nodes.now constants.now rules.now seeds.now thresholds.old arguments.old slots.old s) (calls.run (working current.old growth.old scratch.old)) (told.run result) (for_run (header_of words.new) nodes.now constants.now rules.now seeds.now thresholds.new arguments.new slots.new s) }
    ensures left { (current.new, growth.new) ≡ run_leaves (read nodes.now constants.now rules.now seeds.now) (working current.old growth.old scratch.old) (tables (header_of words.old) thresholds.old arguments.old slots.old) }
{
    let mut store = header::of(words);
    let answer = engine::run(
        &mut store, nodes, constants, rules, seeds, thresholds, arguments, slots, current, growth,
        scratch,
    );
    header::put(&store, words);
    replies::done(answer)
}

// An argument's bound, list and reason.
pub fn read_argument(words: &[u64; HEADER], arguments: &[u32], argument: u64) -> ValueReply
    ensures { (s : State) → Exchange (for_argument_reading (header_of words.now) arguments.now s) (calls.reading (asks.argument argument)) (told.value result) (for_argument_reading (header_of words.now) arguments.now s) }
{
    shown::value(numeric::argument(&header::of(words), arguments, argument))
}

// How many contexts an argument is recorded with.
pub fn context_count(words: &[u64; HEADER], records: &[u32], argument: u64) -> Reply
    ensures { (s : State) → Exchange (for_context_reading (header_of words.now) records.now s) (calls.reading (asks.context_count argument)) (told.number result) (for_context_reading (header_of words.now) records.now s) }
{
    replies::number(numeric::context_count(&header::of(words), records, argument))
}

// The k-th of them, in the order recorded.
pub fn read_context(words: &[u64; HEADER], records: &[u32], argument: u64, k: u64) -> Reply
    ensures { (s : State) → Exchange (for_context_reading (header_of words.now) records.now s) (calls.reading (asks.context argument k)) (told.number result) (for_context_reading (header_of words.now) records.now s) }
{
    replies::number(numeric::context(&header::of(words), records, argument, k))
}

// The bound of a rule's slot, before guards or after them.
pub fn read_slot(
    words: &[u64; HEADER],
    rules: &[u32],
    slots: &[u32],
    rule: u64,
    slot: u64,
    after: bool,
) -> BoundReply
    ensures { (s : State) → Exchange (for_slot_reading (header_of words.now) rules.now slots.now s) (calls.reading (asks.slot rule slot after)) (told.bound result) (for_slot_reading (header_of words.now) rules.now slots.now s) }
{
    shown::bound(numeric::slot(&header::of(words), rules, slots, rule, slot, after))
}

// The key of a constant, but for the bytes of a name.
pub fn read_key(words: &[u64; HEADER], constants: &[u32], constant: u64) -> KeyReply
    ensures { (s : State) → Exchange (for_key_reading (header_of words.now) constants.now s) (calls.reading (asks.key constant)) (told.key result) (for_key_reading (header_of words.now) constants.now s) }
{
    shown::key(numeric::key(&header::of(words), constants, constant))
}

// The name of a constant: the answer is how many bytes it has, and they stand at the beginning of `text`,
// whose other bytes stay.
pub fn read_name(
    words: &[u64; HEADER],
    names: &[u8],
    constants: &[u32],
    constant: u64,
    text: &mut [u8; NAME],
) -> Reply
    ensures exchange { (s : State) → Exchange (for_name_reading (header_of words.now) names.now constants.now s) (calls.reading (asks.name constant)) (told.bytes result text.new) (for_name_reading (header_of words.now) names.now constants.now s) }
    ensures rest { drop result.value text.new ≡ drop result.value text.old }
{
    match numeric::name(&header::of(words), names, constants, constant) {
        Ok(name) => {
            keys::put_name(text, 0, name);
            replies::accepting(name.len() as u64)
        }
        Err(refusal) => replies::refusing(refusal),
    }
}

// An ending as a struct.
fn ended(answer: Result<Ended, Refusal>) -> StatusReply
    ensures { result ≡ ended_reply answer }
{
    match answer {
        Ok(Ended::Completed) => shown::completed(),
        Ok(Ended::Stopped(stop, context)) => shown::stopped(stop, context),
        Err(refusal) => shown::unread(refusal),
    }
}

// How the run ended.
pub fn status(words: &[u64; HEADER]) -> StatusReply
    ensures { (s : State) → Exchange (for_header (header_of words.now) s) (calls.reading asks.status) (told.status result) (for_header (header_of words.now) s) }
{
    ended(numeric::status(&header::of(words)))
}
