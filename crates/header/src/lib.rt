//! The store's header as 64-bit words: specs/Header.antt says which word is what. Any words are a header, and a header that is written reads
//! back. Words that are missing are 0 and are not written.
#![tactic(auto)]

ghost use Rattle.std.specs.Prelude.{◌≡◌, ◌%◌, ◌^◌, ◌≤◌, length};
ghost use Rattle.std.proofs.lemmas.List.Edits.{sets};
ghost use Rattle.sizes.specs.Sizes as size;
ghost use Rattle.header.specs.Header.{limits_in, statistics_in, counts_in, context_in, resource_of, stop_in, phase_in, header_of, limit_words, statistic_words, count_words, context_words, stop_words, phase_words, words_of, Small, Ended};

use cells::{put_word, word_at};
use limits::{Budget, Limits, Resource, Statistics, Stop};
use sizes::{
    HEADER_CONTEXT, HEADER_COUNTED, HEADER_PHASE, HEADER_ROWS, HEADER_STOP, HEADER_STOP_CONTEXT,
};
use store::{Counts, Phase, Store};

// The limits alone: all that a fresh store asks of its words.
pub fn limits_of(words: &[u64]) -> Limits
    ensures { result ≡ limits_in words.now }
{
    Limits {
        work: word_at(words, 0),
        predicates: word_at(words, 1),
        positions: word_at(words, 2),
        links: word_at(words, 3),
        width: word_at(words, 4),
        entries: word_at(words, 5),
        rounds: word_at(words, 6),
        bytes: word_at(words, 7),
        symbol: word_at(words, 8),
    }
}

fn statistics_of(words: &[u64]) -> Statistics
    ensures { result ≡ statistics_in words.now }
{
    Statistics {
        work: word_at(words, HEADER_COUNTED),
        predicates: word_at(words, HEADER_COUNTED + 1),
        positions: word_at(words, HEADER_COUNTED + 2),
        links: word_at(words, HEADER_COUNTED + 3),
        entries: word_at(words, HEADER_COUNTED + 4),
        rounds: word_at(words, HEADER_COUNTED + 5),
        bytes: word_at(words, HEADER_COUNTED + 6),
        widened: word_at(words, HEADER_COUNTED + 7),
    }
}

fn counts_of(words: &[u64]) -> Counts
    ensures { result ≡ counts_in words.now }
{
    Counts {
        predicates: word_at(words, HEADER_ROWS) as usize,
        positions: word_at(words, HEADER_ROWS + 1) as usize,
        constants: word_at(words, HEADER_ROWS + 2) as usize,
        keys: word_at(words, HEADER_ROWS + 3) as usize,
        expressions: word_at(words, HEADER_ROWS + 4) as usize,
        rules: word_at(words, HEADER_ROWS + 5) as usize,
        thresholds: word_at(words, HEADER_ROWS + 6) as usize,
        provenance: word_at(words, HEADER_ROWS + 7) as usize,
    }
}

// The last 32 bits of a word. `%`, since a cast alone must fit.
pub fn low(word: u64) -> u32
    ensures { result ≡ word % 2 ^ 32 }
{
    (word % 4294967296) as u32
}

// The context of two words: whether there is one, and its number.
fn context_of(words: &[u64], at: usize) -> Option<u32>
    requires { at ≤ size.header }
    ensures { result ≡ context_in words.now at }
{
    if word_at(words, at) == 0 {
        return None;
    }
    Some(low(word_at(words, at + 1)))
}

// Any word is a resource, the last one where there is no other: no `TryFrom`, since it cannot fail.
fn resource_of(code: u64) -> Resource
    ensures { result ≡ resource_of code }
{
    match code {
        3 => Resource::Work,
        4 => Resource::InspectedBytes,
        6 => Resource::Predicates,
        7 => Resource::Positions,
        8 => Resource::Links,
        9 => Resource::ValueEntries,
        _ => Resource::Rounds,
    }
}

fn stop_of(words: &[u64]) -> Stop
    ensures { result ≡ stop_in words.now }
{
    Stop {
        resource: resource_of(word_at(words, HEADER_STOP)),
        limit: word_at(words, HEADER_STOP + 1),
        high: word_at(words, HEADER_STOP + 2),
        low: word_at(words, HEADER_STOP + 3),
    }
}

fn phase_of(words: &[u64]) -> Phase
    ensures { result ≡ phase_in words.now }
{
    match word_at(words, HEADER_PHASE) {
        0 => Phase::Absent,
        1 => Phase::Open,
        2 => Phase::Completed,
        _ => Phase::Stopped(stop_of(words), context_of(words, HEADER_STOP_CONTEXT)),
    }
}

// The header that words stand for.
#[tactic(auto, unfolding(crate::specs::Header::header_of))]
pub fn of(words: &[u64]) -> Store
    ensures { result ≡ header_of words.now }
{
    Store {
        budget: Budget {
            limits: limits_of(words),
            statistics: statistics_of(words),
        },
        counts: counts_of(words),
        context: context_of(words, HEADER_CONTEXT),
        phase: phase_of(words),
    }
}

fn put_limits(words: &mut [u64], limits: Limits)
    ensures { words.new ≡ sets words.old 0 (limit_words limits) }
{
    put_word(words, 0, limits.work);
    put_word(words, 1, limits.predicates);
    put_word(words, 2, limits.positions);
    put_word(words, 3, limits.links);
    put_word(words, 4, limits.width);
    put_word(words, 5, limits.entries);
    put_word(words, 6, limits.rounds);
    put_word(words, 7, limits.bytes);
    put_word(words, 8, limits.symbol);
}

fn put_statistics(words: &mut [u64], statistics: Statistics)
    ensures { words.new ≡ sets words.old size.header_counted (statistic_words statistics) }
{
    put_word(words, HEADER_COUNTED, statistics.work);
    put_word(words, HEADER_COUNTED + 1, statistics.predicates);
    put_word(words, HEADER_COUNTED + 2, statistics.positions);
    put_word(words, HEADER_COUNTED + 3, statistics.links);
    put_word(words, HEADER_COUNTED + 4, statistics.entries);
    put_word(words, HEADER_COUNTED + 5, statistics.rounds);
    put_word(words, HEADER_COUNTED + 6, statistics.bytes);
    put_word(words, HEADER_COUNTED + 7, statistics.widened);
}

fn put_counts(words: &mut [u64], counts: Counts)
    ensures { words.new ≡ sets words.old size.header_rows (count_words counts) }
{
    put_word(words, HEADER_ROWS, counts.predicates as u64);
    put_word(words, HEADER_ROWS + 1, counts.positions as u64);
    put_word(words, HEADER_ROWS + 2, counts.constants as u64);
    put_word(words, HEADER_ROWS + 3, counts.keys as u64);
    put_word(words, HEADER_ROWS + 4, counts.expressions as u64);
    put_word(words, HEADER_ROWS + 5, counts.rules as u64);
    put_word(words, HEADER_ROWS + 6, counts.thresholds as u64);
    put_word(words, HEADER_ROWS + 7, counts.provenance as u64);
}

// Beside what it writes it says what the type does: that the context has 32 bits.
fn put_context(words: &mut [u64], at: usize, context: Option<u32>)
    requires { at ≤ size.header }
    ensures is { words.new ≡ sets words.old at (context_words context) }
    ensures small { Small context }
{
    let (mark, number) = match context {
        Some(number) => (1, u64::from(number)),
        None => (0, 0),
    };
    put_word(words, at, mark);
    put_word(words, at + 1, number);
}

fn put_stop(words: &mut [u64], stop: Stop)
    ensures { words.new ≡ sets words.old size.header_stop (stop_words stop) }
{
    put_word(words, HEADER_STOP, u64::from(stop.resource));
    put_word(words, HEADER_STOP + 1, stop.limit);
    put_word(words, HEADER_STOP + 2, stop.high);
    put_word(words, HEADER_STOP + 3, stop.low);
}

fn put_phase(words: &mut [u64], phase: Phase)
    ensures is { words.new ≡ sets words.old size.header_phase (phase_words phase) }
    ensures small { Ended phase }
{
    match phase {
        Phase::Absent => put_word(words, HEADER_PHASE, 0),
        Phase::Open => put_word(words, HEADER_PHASE, 1),
        Phase::Completed => put_word(words, HEADER_PHASE, 2),
        Phase::Stopped(stop, context) => {
            put_word(words, HEADER_PHASE, 3);
            put_stop(words, stop);
            put_context(words, HEADER_STOP_CONTEXT, context);
        }
    }
}

// Writes a header. Words that it has none for stay. Where there are words for all of it, it reads back.
pub fn put(store: &Store, words: &mut [u64])
    ensures is { words.new ≡ sets words.old 0 (words_of store.now) }
    ensures back { size.header ≤ length words.old → header_of words.new ≡ store.now }
{
    put_limits(words, store.budget.limits);
    put_statistics(words, store.budget.statistics);
    put_counts(words, store.counts);
    put_context(words, HEADER_CONTEXT, store.context);
    put_phase(words, store.phase);
}
