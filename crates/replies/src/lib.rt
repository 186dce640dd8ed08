//! A call's answer as five words, by value: what a caller in another language reads of a `Result`. specs/Reply.antt says how an answer becomes
//! one and what one tells.
#![tactic(auto)]

ghost use Rattle.std.specs.Prelude.{◌≡◌};
ghost use Rattle.replies.specs.Reply.{accepting, limiting, plain, refusing, reply_of};

use limits::{Refusal, Stop};

// `code` is 0 and `value` what was answered; or `code` is the number of the refusal, and for a charge `limit` its limit and `high` and `low` the
// halves of the observed sum. What is not told is 0.
#[repr(C)]
#[derive(Clone, Copy, Debug, PartialEq, Eq)]
pub struct Reply {
    pub code: u64,
    pub value: u64,
    pub limit: u64,
    pub high: u64,
    pub low: u64,
}

// A refusal that tells its number alone.
fn plain(code: u64) -> Reply
    ensures { result ≡ plain code }
{
    Reply {
        code,
        value: 0,
        limit: 0,
        high: 0,
        low: 0,
    }
}

fn limiting(stop: Stop) -> Reply
    ensures { result ≡ limiting stop }
{
    Reply {
        code: u64::from(stop.resource),
        value: 0,
        limit: stop.limit,
        high: stop.high,
        low: stop.low,
    }
}

// What is answered without a refusal.
pub fn accepting(value: u64) -> Reply
    ensures { result ≡ accepting value }
{
    Reply {
        code: 0,
        value,
        limit: 0,
        high: 0,
        low: 0,
    }
}

pub fn refusing(refusal: Refusal) -> Reply
    ensures { result ≡ refusing refusal }
{
    match refusal {
        Refusal::Limit(stop) => limiting(stop),
        other => plain(u64::from(other)),
    }
}

// Of a call that answers a number.
pub fn number(answer: Result<u64, Refusal>) -> Reply
    ensures { result ≡ reply_of (λ n. n) answer }
{
    match answer {
        Ok(value) => accepting(value),
        Err(refusal) => refusing(refusal),
    }
}

// Of a call that answers an id.
pub fn id(answer: Result<usize, Refusal>) -> Reply
    ensures { result ≡ reply_of (λ n. n) answer }
{
    match answer {
        Ok(id) => accepting(id as u64),
        Err(refusal) => refusing(refusal),
    }
}

// Of a call that answers nothing.
pub fn done(answer: Result<(), Refusal>) -> Reply
    ensures { result ≡ reply_of (λ _. 0) answer }
{
    match answer {
        Ok(()) => accepting(0),
        Err(refusal) => refusing(refusal),
    }
}
