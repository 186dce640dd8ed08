//! The report: each line of 01 written into a lent buffer. A line holds for any header and any contents; where it is refused, the buffer
//! stays as it was.
#![tactic(auto)]

ghost use Rattle.std.specs.Prelude.{◌≡◌, ◌+◌, ◌*◌, ◌/◌, ◌%◌, ◌<◌, ◌≤◌, cond, eqb, length, IfOk};
ghost use Rattle.sizes.specs.Sizes as size;
ghost use Rattle.limits.specs.Refusal.{told};
ghost use Rattle.lattice.specs.Value.{value_of};
ghost use Rattle.rules.specs.Read.{slots_at};
ghost use Rattle.rows.specs.Row.{bound_of};
ghost use Rattle.results.specs.Result.{bound_place};
ghost use Rattle.text.specs.Text.{line as worded, spaced_words};
ghost use Rattle.text.specs.Answers.{Puts};
ghost use Rattle.numeric.specs.Reading.{given};
ghost use Rattle.numeric.specs.Answers.{reads};
ghost use Rattle.report.specs.Places.{lines_before, Stands, Begins};
ghost use Rattle.report.specs.Report.{report_sized, report_of, completed_lines, stopped_lines, line_count, nth_line};
ghost use Rattle.report.specs.Line.{told_words, done_text, argument_text, slot_text, statistics_text, status_line, argument_line, slot_line, statistics_line, refusal_line, on_buffer, written};

use interval::Bound;
use lattice::Abstract;
use limits::{Refusal, Statistics, Stop};
use numeric::Ended;
use store::{Phase, Store};

mod lines;

pub use lines::Lines;

// A head word, at the start of the line.
fn put_word(line: &mut [u8], word: &[u8]) -> usize
    requires { length word.now ≤ length line.old }
    ensures { Puts word.now 0 line.old result line.new }
{
    for (i, byte) in word.iter().enumerate() {
        line[i] = *byte;
    }
    word.len()
}

// A refusal's number, and the limit and the observed sum if it carries them.
fn put_told(line: &mut [u8], at: usize, refusal: Refusal) -> usize
    requires { at + 82 ≤ length line.old }
    ensures puts { Puts (spaced_words (told_words (told refusal))) at line.old result line.new }
    ensures within { result ≤ at + 82 }
{
    let numbered = text::put_number(line, at, u64::from(refusal));
    match refusal {
        Refusal::Limit(stop) => {
            let limited = text::put_number(line, numbered, stop.limit);
            let apart = text::put_byte(line, limited, b' ');
            text::put_wide(line, apart, stop.observed())
        }
        _ => numbered,
    }
}

fn put_done(line: &mut [u8], arguments: u64, rules: u64) -> usize
    requires { size.line ≤ length line.old }
    ensures { Puts (done_text arguments rules) 0 line.old result line.new }
{
    let at = put_word(line, b"done");
    let counted = text::put_number(line, at, arguments);
    let end = text::put_number(line, counted, rules);
    text::put_byte(line, end, b'\n')
}

// A head word, and a refusal behind it.
fn put_refused(line: &mut [u8], word: &[u8], refusal: Refusal) -> usize
    requires { (length word.now ≤ 7) × (size.line ≤ length line.old) }
    ensures { Puts (worded word.now (told_words (told refusal))) 0 line.old result line.new }
{
    let at = put_word(line, word);
    let end = put_told(line, at, refusal);
    text::put_byte(line, end, b'\n')
}

fn put_argument(line: &mut [u8], argument: u64, value: Abstract) -> usize
    requires { size.line ≤ length line.old }
    ensures { Puts (argument_text argument (value_of value)) 0 line.old result line.new }
{
    let bound = value.bound;
    let reason = value.reason;
    let at = text::put_byte(line, 0, b'a');
    let named = text::put_number(line, at, argument);
    let bounded = text::put_bound(line, named, bound);
    let apart = text::put_byte(line, bounded, b' ');
    let listed = text::put_list(line, apart, value);
    let end = text::put_number(line, listed, u64::from(lattice::reason_number(reason)));
    text::put_byte(line, end, b'\n')
}

fn slot_letter(after: bool) -> u8
    ensures { result ≡ cond after 103 100 }
{
    if after { b'g' } else { b'd' }
}

fn put_slot(line: &mut [u8], rule: u64, slot: u64, after: bool, bound: Bound) -> usize
    requires { size.line ≤ length line.old }
    ensures { Puts (slot_text rule slot after bound) 0 line.old result line.new }
{
    let at = text::put_byte(line, 0, slot_letter(after));
    let named = text::put_number(line, at, rule);
    let numbered = text::put_number(line, named, slot);
    let end = text::put_bound(line, numbered, bound);
    text::put_byte(line, end, b'\n')
}

fn put_statistics(line: &mut [u8], counts: Statistics) -> usize
    requires { size.line ≤ length line.old }
    ensures { Puts (statistics_text counts) 0 line.old result line.new }
{
    let at = text::put_byte(line, 0, b's');
    let a = text::put_number(line, at, counts.predicates);
    let b = text::put_number(line, a, counts.positions);
    let c = text::put_number(line, b, counts.links);
    let d = text::put_number(line, c, counts.entries);
    let e = text::put_number(line, d, counts.rounds);
    let f = text::put_number(line, e, counts.bytes);
    let end = text::put_number(line, f, counts.widened);
    text::put_byte(line, end, b'\n')
}

// The first line of a report, `done` or `stop`, into the buffer; answered is how long it is, as by every line below.
// Refused by 1, a buffer of another size, a run that has not ended.
// Charges nothing.
pub fn status_line(store: &Store, line: &mut [u8]) -> Result<usize, Refusal>
    ensures { written result line.new ≡ on_buffer line.old (status_line store.now) }
{
    if line.len() != sizes::LINE {
        return Err(Refusal::Shape);
    }
    let status = numeric::status(store)?;
    match status {
        Ended::Completed => Ok(put_done(
            line,
            store.counts.positions as u64,
            store.counts.rules as u64,
        )),
        Ended::Stopped(stop, _) => Ok(put_refused(line, b"stop", Refusal::Limit(stop))),
    }
}

// The line `a` of an argument.
// Refused by 1, a buffer of another size; then as `numeric::argument` is.
// Charges nothing.
pub fn argument_line(
    store: &Store,
    arguments: &[u32],
    line: &mut [u8],
    argument: u64,
) -> Result<usize, Refusal>
    ensures { written result line.new ≡ on_buffer line.old (argument_line store.now arguments.now argument) }
{
    if line.len() != sizes::LINE {
        return Err(Refusal::Shape);
    }
    let value = numeric::argument(store, arguments, argument)?;
    Ok(put_argument(line, argument, value))
}

// The line `d` of a slot before guards, or `g` after them.
// Refused by 1, a buffer of another size; then as `numeric::slot` is.
// Charges nothing.
pub fn slot_line(
    store: &Store,
    rules: &[u32],
    slots: &[u32],
    line: &mut [u8],
    rule: u64,
    slot: u64,
    after: bool,
) -> Result<usize, Refusal>
    ensures { written result line.new ≡ on_buffer line.old (slot_line store.now rules.now slots.now rule slot after) }
{
    if line.len() != sizes::LINE {
        return Err(Refusal::Shape);
    }
    let bound = numeric::slot(store, rules, slots, rule, slot, after)?;
    Ok(put_slot(line, rule, slot, after, bound))
}

// The line `s`, in any phase.
// Refused by 1, a buffer of another size.
// Charges nothing.
pub fn statistics_line(store: &Store, line: &mut [u8]) -> Result<usize, Refusal>
    ensures { written result line.new ≡ on_buffer line.old (statistics_line store.now) }
{
    if line.len() != sizes::LINE {
        return Err(Refusal::Shape);
    }
    Ok(put_statistics(line, store.budget.statistics))
}

// A refusal as the line of a job.
// Refused by 1, a buffer of another size.
// Charges nothing.
pub fn refusal_line(line: &mut [u8], refusal: Refusal) -> Result<usize, Refusal>
    ensures { written result line.new ≡ on_buffer line.old (refusal_line refusal) }
{
    if line.len() != sizes::LINE {
        return Err(Refusal::Shape);
    }
    Ok(put_refused(line, b"refused", refusal))
}

// ---- the report, line by line

// Where a line behind those of the arguments stands: the rule's number and which of the rule's lines it is, or how many lines lie between it
// and the last rule's.
#[derive(Clone, Copy, Debug, PartialEq, Eq)]
enum Place {
    OfRule(usize, u64),
    Behind(u64),
}

fn is_report_sized(arguments: usize, rules: usize, slots: usize) -> bool
    ensures { result ≡ report_sized arguments rules slots }
{
    arguments == sizes::ARGUMENT_CELLS && rules == sizes::RULE_CELLS && slots == sizes::BOUNDS_CELLS
}

// How many lines a rule has: two for each slot.
fn lines_of(rules: &[u32], rule: usize) -> u64
    ensures lines { result ≡ 2 * slots_at rules.now rule }
    ensures few { result ≤ 2 * size.slots }
{
    2 * rules::slots_at(rules, rule)
}

// How many lines the first `count` rules have.
fn lines_before(rules: &[u32], count: usize) -> u64
    requires { count ≤ size.rules }
    ensures lines { result ≡ lines_before rules.now count }
    ensures few { result ≤ 2 * size.slots * count }
{
    let mut lines = 0;
    for rule in 0..count {
        lines += lines_of(rules, rule);
    }
    lines
}

// Where the search for a line of the rules begins: at a rule, and how many lines the rules before it have.
#[derive(Clone, Copy, Debug, PartialEq, Eq)]
struct Start {
    rule: usize,
    before: u64,
}

// The n-th line of the rules from `from` on.
fn place_from(rules: &[u32], count: usize, from: usize, n: u64) -> Place
    requires { (count ≤ size.rules) × (from ≤ count) }
    ensures { Stands rules.now count (lines_before rules.now from + n) result }
{
    let mut left = n;
    for rule in from..count {
        let lines = lines_of(rules, rule);
        if left < lines {
            return Place::OfRule(rule, left);
        }
        left -= lines;
    }
    Place::Behind(left)
}

// The i-th line of a rule.
fn put_pair(line: &mut [u8], slots: &[u32], rule: usize, i: u64) -> usize
    requires { (size.line ≤ length line.old) × ((rule < size.rules) × (i < 2 * size.slots)) × (length slots.now ≡ size.bounds_cells) }
    ensures { Puts (slot_text rule (i / 2) (eqb (i % 2) 1) (bound_of slots.now (bound_place rule (i / 2) (eqb (i % 2) 1)))) 0 line.old result line.new }
{
    let slot = i / 2;
    let after = i % 2 == 1;
    let bound = rows::read_bound(slots, results::bound_place(rule, slot as usize, after));
    put_slot(line, rule as u64, slot, after, bound)
}

// A line of a completed run's report. A line of a rule is sought from `start` on, and `start` goes to that rule.
fn completed_line(
    store: &Store,
    arguments: &[u32],
    rules: &[u32],
    slots: &[u32],
    line: &mut [u8],
    k: u64,
    start: &mut Start,
) -> Result<usize, Refusal>
    requires { (length line.old ≡ size.line) × (length slots.now ≡ size.bounds_cells) × Begins store.now rules.now k start.old }
    ensures line { written result line.new ≡ on_buffer line.old (nth_line (given (completed_lines store.now arguments.now rules.now slots.now)) k) }
    ensures begins { Begins store.now rules.now k start.new }
    ensures few { IfOk result (λ _. k ≤ size.positions + 2 * size.slots * size.rules + 1) }
{
    let counts = store.counts;
    let positions = counts.positions.min(sizes::POSITIONS) as u64;
    if k == 0 {
        return Ok(put_done(line, counts.positions as u64, counts.rules as u64));
    }
    if k <= positions {
        let value = rows::abstract_at(arguments, (k - 1) as usize);
        return Ok(put_argument(line, k - 1, value));
    }
    let n = k - 1 - positions;
    let rule_count = counts.rules.min(sizes::RULES);
    match place_from(rules, rule_count, start.rule, n - start.before) {
        Place::OfRule(rule, i) => {
            *start = Start {
                rule,
                before: n - i,
            };
            Ok(put_pair(line, slots, rule, i))
        }
        Place::Behind(0) => Ok(put_statistics(line, store.budget.statistics)),
        Place::Behind(_) => Err(Refusal::Missing),
    }
}

// A line of a stopped run's report.
fn stopped_line(store: &Store, line: &mut [u8], stop: Stop, k: u64) -> Result<usize, Refusal>
    requires { length line.old ≡ size.line }
    ensures { written result line.new ≡ on_buffer line.old (nth_line (given (stopped_lines store.now stop)) k) }
{
    match k {
        0 => Ok(put_refused(line, b"stop", Refusal::Limit(stop))),
        1 => Ok(put_statistics(line, store.budget.statistics)),
        _ => Err(Refusal::Missing),
    }
}

// How many lines the report of an ended run has.
// Refused by 1, tables of other sizes, a run that has not ended.
// Charges nothing.
pub fn line_count(
    store: &Store,
    arguments: &[u32],
    rules: &[u32],
    slots: &[u32],
) -> Result<u64, Refusal>
    ensures { reads (λ n. n) result ≡ line_count (report_of store.now arguments.now rules.now slots.now) }
{
    if !is_report_sized(arguments.len(), rules.len(), slots.len()) {
        return Err(Refusal::Shape);
    }
    match store.phase {
        Phase::Absent | Phase::Open => Err(Refusal::Closed),
        Phase::Completed => {
            let positions = store.counts.positions.min(sizes::POSITIONS) as u64;
            Ok(positions + lines_before(rules, store.counts.rules.min(sizes::RULES)) + 2)
        }
        Phase::Stopped(_, _) => Ok(2),
    }
}

// The k-th line of the report, a rule's line sought from `start` on.
fn line_from(
    store: &Store,
    arguments: &[u32],
    rules: &[u32],
    slots: &[u32],
    line: &mut [u8],
    k: u64,
    start: &mut Start,
) -> Result<usize, Refusal>
    requires { Begins store.now rules.now k start.old }
    ensures line { written result line.new ≡ on_buffer line.old (nth_line (report_of store.now arguments.now rules.now slots.now) k) }
    ensures begins { Begins store.now rules.now k start.new }
    ensures few { IfOk result (λ _. k ≤ size.positions + 2 * size.slots * size.rules + 1) }
{
    if line.len() != sizes::LINE || !is_report_sized(arguments.len(), rules.len(), slots.len()) {
        return Err(Refusal::Shape);
    }
    match store.phase {
        Phase::Absent | Phase::Open => Err(Refusal::Closed),
        Phase::Completed => completed_line(store, arguments, rules, slots, line, k, start),
        Phase::Stopped(stop, _) => stopped_line(store, line, stop, k),
    }
}

// The k-th line of the report, from 0 on, into the buffer; answered is how long it is.
// Refused by 1, a buffer or tables of other sizes, a run that has not ended; 5, a line that the report does not have.
// Charges nothing.
pub fn report_line(
    store: &Store,
    arguments: &[u32],
    rules: &[u32],
    slots: &[u32],
    line: &mut [u8],
    k: u64,
) -> Result<usize, Refusal>
    ensures { written result line.new ≡ on_buffer line.old (nth_line (report_of store.now arguments.now rules.now slots.now) k) }
{
    let mut start = Start { rule: 0, before: 0 };
    line_from(store, arguments, rules, slots, line, k, &mut start)
}
