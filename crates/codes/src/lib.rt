//! The codes of operators and reasons in a job, each a place in a table. No `TryFrom`, since the kinds are other crates'.
#![tactic(auto)]

ghost use Rattle.std.specs.Prelude.{◌≡◌};
ghost use Rattle.codes.specs.Codes.{unary_coded, binary_coded, reason_coded};

use lattice::Widening;
use nodes::{BinaryOp, UnaryOp};

pub fn unary(code: u64) -> Option<UnaryOp>
    ensures { result ≡ unary_coded code }
{
    match code {
        0 => Some(UnaryOp::Negate),
        1 => Some(UnaryOp::BitwiseNot),
        _ => None,
    }
}

pub fn binary(code: u64) -> Option<BinaryOp>
    ensures { result ≡ binary_coded code }
{
    match code {
        0 => Some(BinaryOp::Add),
        1 => Some(BinaryOp::Sub),
        2 => Some(BinaryOp::Mul),
        3 => Some(BinaryOp::Div),
        4 => Some(BinaryOp::Mod),
        5 => Some(BinaryOp::Pow),
        6 => Some(BinaryOp::BitAnd),
        7 => Some(BinaryOp::BitOr),
        8 => Some(BinaryOp::BitXor),
        _ => None,
    }
}

// Reasons begin with 1.
pub fn reason(code: u64) -> Option<Widening>
    ensures { result ≡ reason_coded code }
{
    match code {
        1 => Some(Widening::HeadForm),
        2 => Some(Widening::HeadTerm),
        3 => Some(Widening::UnboundVariable),
        4 => Some(Widening::SymbolSize),
        5 => Some(Widening::ValueWidth),
        6 => Some(Widening::Dependency),
        _ => None,
    }
}
