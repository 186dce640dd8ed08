//! Conservative ranges for checked arithmetic (range.rs): sums, differences, products and negation, worked in 64 bits.
//! An answer encloses every result over its operands, with both ends in 32 bits; otherwise the range declines.
#![tactic(auto)]

ghost use Rattle.std.specs.Prelude.{◌≡◌};
ghost use Rattle.range.specs.Range.{new_of, bounds_of, sum_of, difference_of, corners_of, product_of, negation_of};

// A nonempty interval of 32-bit numbers, both ends included.
#[derive(Clone, Copy, Debug, PartialEq, Eq)]
pub struct Range {
    low: i32,
    high: i32,
}

// The range with these ends, where they ascend and both fit 32 bits.
fn checked(low: i64, high: i64) -> Option<Range>
    ensures { result ≡ new_of low high }
{
    if high < low {
        return None;
    }
    Some(Range {
        low: i32::try_from(low).ok()?,
        high: i32::try_from(high).ok()?,
    })
}

// `Range::corners` for the product: from the least to the greatest of the four.
fn corners(low: i32, high: i32, right_low: i32, right_high: i32) -> Option<Range>
    ensures { result ≡ corners_of low high right_low right_high }
{
    let ll = i64::from(low) * i64::from(right_low);
    let lh = i64::from(low) * i64::from(right_high);
    let hl = i64::from(high) * i64::from(right_low);
    let hh = i64::from(high) * i64::from(right_high);
    let lowest = ll.min(lh).min(hl.min(hh));
    let highest = ll.max(lh).max(hl.max(hh));
    checked(lowest, highest)
}

impl Range {
    pub fn new(low: i32, high: i32) -> Option<Range>
        ensures { result ≡ new_of low high }
    {
        checked(i64::from(low), i64::from(high))
    }

    // Both ends, the low one first: the fields are private.
    pub fn bounds(self) -> (i32, i32)
        ensures { result ≡ bounds_of self }
    {
        (self.low, self.high)
    }

    // BinaryOp::Add of `Range::binary`.
    pub fn sum(self, right: Range) -> Option<Range>
        ensures { result ≡ sum_of self right }
    {
        checked(
            i64::from(self.low) + i64::from(right.low),
            i64::from(self.high) + i64::from(right.high),
        )
    }

    // BinaryOp::Sub of `Range::binary`.
    pub fn difference(self, right: Range) -> Option<Range>
        ensures { result ≡ difference_of self right }
    {
        checked(
            i64::from(self.low) - i64::from(right.high),
            i64::from(self.high) - i64::from(right.low),
        )
    }

    // BinaryOp::Mul of `Range::binary`.
    pub fn product(self, right: Range) -> Option<Range>
        ensures { result ≡ product_of self right }
    {
        corners(self.low, self.high, right.low, right.high)
    }

    // UnaryOp::Negate of `Range::unary`.
    pub fn negation(self) -> Option<Range>
        ensures { result ≡ negation_of self }
    {
        checked(-i64::from(self.high), -i64::from(self.low))
    }
}
