//! The answers of readings by value, in structs of numbers: what a caller in another language reads of them. specs/Shown.antt says how an answer
//! becomes one and what one shows.
#![tactic(auto)]

ghost use Rattle.std.specs.Prelude.{◌≡◌};
ghost use Rattle.shown.specs.Shown.{low_of, high_of, bound_reply, bounded, value_reply, valued, key_reply, keyed, completing, stopping, unread};

use interval::{Bound, Constant, Interval};
use lattice::Abstract;
use limits::{Refusal, Stop};
use replies::Reply;

// A bound: `mixed` is 1 where names are among the values; `case` is 0 for no numbers, 1 for those from `low` to `high`, 2 for all. Where there
// is no bound, `reply` says why.
#[repr(C)]
#[derive(Clone, Copy, Debug, PartialEq, Eq)]
pub struct BoundReply {
    pub reply: Reply,
    pub mixed: u32,
    pub case: u32,
    pub low: i32,
    pub high: i32,
}

// A value: its bound; where `kept` is 1 the list of the first `len` ids; and the number of the reason why there is none, 0 for no reason.
#[repr(C)]
#[derive(Clone, Copy, Debug, PartialEq, Eq)]
pub struct ValueReply {
    pub bound: BoundReply,
    pub kept: u32,
    pub reason: u32,
    pub len: u64,
    pub ids: [u16; sizes::WIDTH],
}

// A key: `reply.value` is 1 for a number, which then is `number`, 2 for a name that is retained, and 3 for one that is not.
#[repr(C)]
#[derive(Clone, Copy, Debug, PartialEq, Eq)]
pub struct KeyReply {
    pub reply: Reply,
    pub number: i32,
}

// How a run ended: `reply.value` is 0 for completed and 1 for stopped. Of a stopped run `stop` is the refusal that stopped it, and `context` the
// context in force there, where `set` is 1.
#[repr(C)]
#[derive(Clone, Copy, Debug, PartialEq, Eq)]
pub struct StatusReply {
    pub reply: Reply,
    pub stop: Reply,
    pub set: u32,
    pub context: u32,
}

// The ends of an interval, 0 where it has none.
fn ends_of(interval: Interval) -> (i32, i32)
    ensures { result ≡ (low_of interval, high_of interval) }
{
    match interval {
        Interval::Bounded { low, high } => (low, high),
        Interval::Bottom | Interval::Unbounded => (0, 0),
    }
}

fn with_bound(reply: Reply, bound: Bound) -> BoundReply
    ensures { result ≡ bound_reply reply bound }
{
    let (low, high) = ends_of(bound.interval);
    BoundReply {
        reply,
        mixed: rows::integrality_cell(bound.integrality),
        case: rows::case_cell(bound.interval),
        low,
        high,
    }
}

fn with_value(reply: Reply, value: &Abstract) -> ValueReply
    ensures { result ≡ value_reply reply value.now }
{
    ValueReply {
        bound: with_bound(reply, value.bound),
        kept: u32::from(value.kept),
        reason: lattice::reason_number(value.reason),
        len: value.len as u64,
        ids: value.ids,
    }
}

fn with_key(kind: u64, number: i32) -> KeyReply
    ensures { result ≡ key_reply kind number }
{
    KeyReply {
        reply: replies::accepting(kind),
        number,
    }
}

// Of a reading that shows a bound.
pub fn bound(answer: Result<Bound, Refusal>) -> BoundReply
    ensures { result ≡ bounded answer }
{
    match answer {
        Ok(bound) => with_bound(replies::accepting(0), bound),
        Err(refusal) => with_bound(replies::refusing(refusal), Bound::BOTTOM),
    }
}

// Of a reading that shows a value.
pub fn value(answer: Result<Abstract, Refusal>) -> ValueReply
    ensures { result ≡ valued answer }
{
    match answer {
        Ok(value) => with_value(replies::accepting(0), &value),
        Err(refusal) => ValueReply {
            bound: with_bound(replies::refusing(refusal), Bound::BOTTOM),
            kept: 0,
            reason: 0,
            len: 0,
            ids: [0; sizes::WIDTH],
        },
    }
}

// Of a reading that shows a key, but for the bytes of a name.
pub fn key(answer: Result<Constant, Refusal>) -> KeyReply
    ensures { result ≡ keyed answer }
{
    match answer {
        Ok(Constant::Number(number)) => with_key(1, number),
        Ok(Constant::Name) => with_key(2, 0),
        Ok(Constant::Large) => with_key(3, 0),
        Err(refusal) => KeyReply {
            reply: replies::refusing(refusal),
            number: 0,
        },
    }
}

// Of a run that has completed.
pub fn completed() -> StatusReply
    ensures { result ≡ completing }
{
    StatusReply {
        reply: replies::accepting(0),
        stop: replies::accepting(0),
        set: 0,
        context: 0,
    }
}

// Of a run that was stopped.
pub fn stopped(stop: Stop, context: Option<u32>) -> StatusReply
    ensures { result ≡ stopping stop context }
{
    let (set, context) = match context {
        Some(number) => (1, number),
        None => (0, 0),
    };
    StatusReply {
        reply: replies::accepting(1),
        stop: replies::refusing(Refusal::Limit(stop)),
        set,
        context,
    }
}

// Of a reading of no run that has ended.
pub fn unread(refusal: Refusal) -> StatusReply
    ensures { result ≡ unread refusal }
{
    StatusReply {
        reply: replies::refusing(refusal),
        stop: replies::accepting(0),
        set: 0,
        context: 0,
    }
}
