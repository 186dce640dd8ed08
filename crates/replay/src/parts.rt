//! The parts of a job's calls that are more than numbers: limits, expressions, and rules with their bindings, guards and heads. Counts of
//! a rule may pass what a rule can hold: its lengths tell, and what has no room is read and dropped.
use crate::reading::{Malformed, Reader};
use limits::Limits;
use nodes::Expression;
use rules::{AggregateFunction, Binding, Guard, Head, Lengths, Relation, Rule};

// The most parts of one kind that can be read, and the most bytes of a name. A store takes fewer.
const PARTS: u64 = 64;

pub const NAME: usize = 128;

// A part of a rule, as a text has it.
trait Parse: Copy {
    fn parse(reader: &mut Reader) -> Result<Self, Malformed>;
}

impl Parse for Binding {
    fn parse(reader: &mut Reader) -> Result<Binding, Malformed> {
        let kind = reader.number(3)?;
        let slot = reader.wide()?;
        let binding = match kind {
            0 => Binding::Positive {
                slot,
                argument: reader.wide()?,
            },
            1 => Binding::Assign {
                slot,
                value: reader.wide()?,
            },
            2 => Binding::Range {
                slot,
                low: reader.wide()?,
                high: reader.wide()?,
            },
            _ => Binding::Aggregate {
                slot,
                function: AggregateFunction::from(reader.number(4)?),
            },
        };
        Ok(binding)
    }
}

impl Parse for Guard {
    fn parse(reader: &mut Reader) -> Result<Guard, Malformed> {
        let guard = if reader.number(1)? == 0 {
            Guard::Compare {
                left: reader.wide()?,
                relation: Relation::from(reader.number(5)?),
                right: reader.wide()?,
            }
        } else {
            Guard::Membership {
                slot: reader.wide()?,
                low: reader.wide()?,
                high: reader.wide()?,
            }
        };
        Ok(guard)
    }
}

impl Parse for Head {
    fn parse(reader: &mut Reader) -> Result<Head, Malformed> {
        Ok(Head {
            argument: reader.wide()?,
            value: reader.wide()?,
        })
    }
}

// As many parts as a number says. Answers how many there are.
fn parts<T: Parse>(reader: &mut Reader, room: &mut [T]) -> Result<u64, Malformed> {
    let count = reader.number(PARTS)?;
    for i in 0..count as usize {
        let part = T::parse(reader)?;
        if i < room.len() {
            room[i] = part;
        }
    }
    Ok(count)
}

pub fn limits(reader: &mut Reader) -> Result<Limits, Malformed> {
    Ok(Limits {
        work: reader.wide()?,
        predicates: reader.wide()?,
        positions: reader.wide()?,
        links: reader.wide()?,
        width: reader.wide()?,
        entries: reader.wide()?,
        rounds: reader.wide()?,
        bytes: reader.wide()?,
        symbol: reader.wide()?,
    })
}

// The bytes of a name. Answers how many there are.
pub fn name(reader: &mut Reader, bytes: &mut [u8; NAME]) -> Result<usize, Malformed> {
    let len = (reader.number(NAME as u64)? as usize).min(NAME);
    for i in 0..len {
        bytes[i] = u8::try_from(reader.number(255)?).map_err(|_| Malformed {})?;
    }
    Ok(len)
}

// What a code stands for. A text with a code that its table does not have is no job.
fn coded<T: Copy>(kind: Option<T>) -> Result<T, Malformed> {
    kind.ok_or(Malformed {})
}

// The expression of the calls 10 to 15.
pub fn expression(reader: &mut Reader, call: u64) -> Result<Expression, Malformed> {
    Ok(match call {
        10 => Expression::Constant(reader.wide()?),
        11 => Expression::Slot(reader.wide()?),
        12 => Expression::Unary(coded(codes::unary(reader.wide()?))?, reader.wide()?),
        13 => Expression::Absolute(reader.wide()?),
        14 => Expression::Binary(
            coded(codes::binary(reader.wide()?))?,
            reader.wide()?,
            reader.wide()?,
        ),
        _ => {
            let integer = reader.number(1)? == 1;
            Expression::Unknown(integer, coded(codes::reason(reader.wide()?))?)
        }
    })
}

// Integer queries are counted alone: no rule has any.
fn queries(reader: &mut Reader) -> Result<u64, Malformed> {
    let count = reader.number(PARTS)?;
    for _ in 0..count {
        reader.wide()?;
    }
    Ok(count)
}

pub fn rule(reader: &mut Reader) -> Result<Rule, Malformed> {
    let binding = Binding::Positive {
        slot: 0,
        argument: 0,
    };
    let guard = Guard::Membership {
        slot: 0,
        low: 0,
        high: 0,
    };
    let head = Head {
        argument: 0,
        value: 0,
    };
    let slots = reader.wide()?;
    let mut bindings = [binding; 32];
    let mut guards = [guard; 32];
    let mut heads = [head; 16];
    let lengths = Lengths {
        bindings: parts(reader, &mut bindings)?,
        guards: parts(reader, &mut guards)?,
        heads: parts(reader, &mut heads)?,
        queries: queries(reader)?,
    };
    Ok(Rule {
        slots,
        bindings,
        guards,
        heads,
        lengths,
    })
}
