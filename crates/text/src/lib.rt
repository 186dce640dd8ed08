//! Words of the report in bytes of ASCII, written into a line from a place on. A word is the line's own only where it fits: each function
//! asks for the room of its longest text, and answers the place behind what it wrote, which lies within that room. Line and place stay
//! parameters: a struct of `&mut` would have each function promise, beside what it wrote, which line its field still is.
#![tactic(auto)]

ghost use Rattle.std.specs.Prelude.{◌+◌, ◌*◌, ◌/◌, ◌%◌, ◌≤◌, ◌^◌, ◌≡◌, [], ◌∷◌, length};
ghost use Rattle.lattice.specs.Value.{value_of};
ghost use Rattle.text.specs.Text.{decimal, integer, letter, end_words, bound_words, others, bracketed, list_word, spaced_words};
ghost use Rattle.text.specs.Answers.{Puts};

use interval::{Bound, Integrality, Interval};
use lattice::Abstract;

pub fn put_byte(line: &mut [u8], at: usize, byte: u8) -> usize
    requires { at + 1 ≤ length line.old }
    ensures { Puts (byte ∷ []) at line.old result line.new }
{
    line[at] = byte;
    at + 1
}

// The digits of n, for which alone there has to be room: how many they are depends on the caller's type.
fn put_digits(line: &mut [u8], at: usize, n: u64) -> usize
    requires { at + length (decimal n) ≤ length line.old }
    ensures { Puts (decimal n) at line.old result line.new }
{
    if n < 10 {
        return put_byte(line, at, (48 + n) as u8);
    }
    let last = put_digits(line, at, n / 10);
    put_byte(line, last, (48 + n % 10) as u8)
}

pub fn put_decimal(line: &mut [u8], at: usize, n: u64) -> usize
    requires { at + 20 ≤ length line.old }
    ensures puts { Puts (decimal n) at line.old result line.new }
    ensures within { result ≤ at + 20 }
{
    put_digits(line, at, n)
}

// A number of 128 bits: its last digit comes off until 64 bits hold the rest.
pub fn put_wide(line: &mut [u8], at: usize, n: u128) -> usize
    requires { at + 39 ≤ length line.old }
    ensures puts { Puts (decimal n) at line.old result line.new }
    ensures within { result ≤ at + 39 }
{
    if n <= u128::from(u64::MAX) {
        return put_decimal(line, at, n as u64);
    }
    let last = put_wide(line, at, n / 10);
    let digit = n % 10;
    put_byte(line, last, (48 + digit) as u8)
}

// A space and the decimal of a number of 64 bits.
pub fn put_number(line: &mut [u8], at: usize, n: u64) -> usize
    requires { at + 21 ≤ length line.old }
    ensures puts { Puts (32 ∷ decimal n) at line.old result line.new }
    ensures within { result ≤ at + 21 }
{
    let word = put_byte(line, at, b' ');
    put_decimal(line, word, n)
}

pub fn put_integer(line: &mut [u8], at: usize, z: i32) -> usize
    requires { at + 11 ≤ length line.old }
    ensures puts { Puts (integer z) at line.old result line.new }
    ensures within { result ≤ at + 11 }
{
    let n = u64::from(z.unsigned_abs());
    if z < 0 {
        let digits = put_byte(line, at, b'-');
        return put_digits(line, digits, n);
    }
    put_digits(line, at, n)
}

// Two ends, each behind a space.
fn put_ends(line: &mut [u8], at: usize, low: i32, high: i32) -> usize
    requires { at + 24 ≤ length line.old }
    ensures puts { Puts (spaced_words (integer low ∷ integer high ∷ [])) at line.old result line.new }
    ensures within { result ≤ at + 24 }
{
    let first = put_byte(line, at, b' ');
    let space = put_integer(line, first, low);
    let second = put_byte(line, space, b' ');
    put_integer(line, second, high)
}

// A space and a byte.
fn put_letter(line: &mut [u8], at: usize, byte: u8) -> usize
    requires { at + 2 ≤ length line.old }
    ensures { Puts (32 ∷ byte ∷ []) at line.old result line.new }
{
    let word = put_byte(line, at, b' ');
    put_byte(line, word, byte)
}

// A letter for each end, the same one.
fn put_twice(line: &mut [u8], at: usize, byte: u8) -> usize
    requires { at + 4 ≤ length line.old }
    ensures puts { Puts (spaced_words ((byte ∷ []) ∷ (byte ∷ []) ∷ [])) at line.old result line.new }
    ensures within { result ≤ at + 4 }
{
    let second = put_letter(line, at, byte);
    put_letter(line, second, byte)
}

pub fn put_interval(line: &mut [u8], at: usize, interval: Interval) -> usize
    requires { at + 24 ≤ length line.old }
    ensures puts { Puts (spaced_words (end_words interval)) at line.old result line.new }
    ensures within { result ≤ at + 24 }
{
    match interval {
        Interval::Bottom => put_twice(line, at, b'e'),
        Interval::Bounded { low, high } => put_ends(line, at, low, high),
        Interval::Unbounded => put_twice(line, at, b'*'),
    }
}

fn letter_of(integrality: Integrality) -> u8
    ensures { result ∷ [] ≡ letter integrality }
{
    match integrality {
        Integrality::Integer => b'I',
        Integrality::Mixed => b'M',
    }
}

pub fn put_bound(line: &mut [u8], at: usize, bound: Bound) -> usize
    requires { at + 26 ≤ length line.old }
    ensures puts { Puts (spaced_words (bound_words bound)) at line.old result line.new }
    ensures within { result ≤ at + 26 }
{
    let words = put_letter(line, at, letter_of(bound.integrality));
    put_interval(line, words, bound.interval)
}

// The ids behind the first, each behind a comma, and the bracket.
fn put_others(line: &mut [u8], at: usize, ids: &[u16]) -> usize
    requires { (at + 91 ≤ length line.old) × (length ids.now ≤ 15) }
    ensures puts { Puts (others ids.now) at line.old result line.new }
    ensures within { result ≤ at + 91 }
{
    let mut place = at;
    for id in ids {
        let digits = put_byte(line, place, b',');
        place = put_digits(line, digits, u64::from(*id));
    }
    put_byte(line, place, b']')
}

// The ids of a list in brackets, parted by commas.
fn put_ids(line: &mut [u8], at: usize, ids: &[u16]) -> usize
    requires { (at + 97 ≤ length line.old) × (length ids.now ≤ 16) }
    ensures puts { Puts (bracketed ids.now) at line.old result line.new }
    ensures within { result ≤ at + 97 }
{
    let first = put_byte(line, at, b'[');
    match ids {
        [] => put_byte(line, first, b']'),
        [id, rest @ ..] => {
            let second = put_digits(line, first, u64::from(*id));
            put_others(line, second, rest)
        }
    }
}

pub fn put_list(line: &mut [u8], at: usize, value: Abstract) -> usize
    requires { at + 97 ≤ length line.old }
    ensures puts { Puts (list_word (value_of value).values) at line.old result line.new }
    ensures within { result ≤ at + 97 }
{
    match value.list() {
        None => put_byte(line, at, b'-'),
        Some(ids) => put_ids(line, at, ids),
    }
}
