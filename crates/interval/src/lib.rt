//! Intervals and bounds (lattice.rs; `Integrality`, `Interval` and `Bound` of numeric.rs). Hull and meet are those of the interval
//! lattice of Cousot and Cousot (1977), and `Unbounded` is its line of all integers.
#![tactic(auto)]

ghost use Rattle.std.specs.Prelude.{◌≡◌};
ghost use Rattle.interval.specs.Interval.{ascending_of, hull_of, meet_of, checked_of, endpoints_of, contains_of};
ghost use Rattle.interval.specs.Bound.{numeric_bound, constant_bound, join_integrality, meet_integrality, hull_bound, meet_bound, allows_of};

// Whether every possible value is a number.
#[derive(Clone, Copy, Debug, PartialEq, Eq)]
pub enum Integrality {
    Integer,
    Mixed,
}

// A bound on the numbers alone.
#[derive(Clone, Copy, Debug, PartialEq, Eq)]
pub enum Interval {
    Bottom,
    Bounded { low: i32, high: i32 },
    Unbounded,
}

// The numbers of a value, and whether names are among its values.
#[derive(Clone, Copy, Debug, PartialEq, Eq)]
pub struct Bound {
    pub integrality: Integrality,
    pub interval: Interval,
}

// A constant as the analysis sees it: a number, a name that is retained, or one too large to be.
#[derive(Clone, Copy, Debug, PartialEq, Eq)]
pub enum Constant {
    Number(i32),
    Name,
    Large,
}

// From low to high, or nothing where they descend.
pub fn ascending(low: i32, high: i32) -> Interval
    ensures { result ≡ ascending_of low high }
{
    if low <= high {
        Interval::Bounded { low, high }
    } else {
        Interval::Bottom
    }
}

impl Interval {
    #[tactic(auto, using(crate::proofs::CodeLaws::hulls))]
    pub fn hull(self, other: Interval) -> Interval
        ensures { result ≡ hull_of self other }
    {
        match (self, other) {
            (Interval::Bottom, interval) | (interval, Interval::Bottom) => interval,
            (Interval::Unbounded, _) | (_, Interval::Unbounded) => Interval::Unbounded,
            (Interval::Bounded { low: a, high: b }, Interval::Bounded { low: c, high: d }) => {
                Interval::Bounded {
                    low: a.min(c),
                    high: b.max(d),
                }
            }
        }
    }

    #[tactic(auto, using(crate::proofs::CodeLaws::meets))]
    pub fn meet(self, other: Interval) -> Interval
        ensures { result ≡ meet_of self other }
    {
        match (self, other) {
            (Interval::Bottom, _) | (_, Interval::Bottom) => Interval::Bottom,
            (Interval::Unbounded, Interval::Unbounded) => Interval::Unbounded,
            (Interval::Unbounded, Interval::Bounded { low, high })
            | (Interval::Bounded { low, high }, Interval::Unbounded) => ascending(low, high),
            (Interval::Bounded { low: a, high: b }, Interval::Bounded { low: c, high: d }) => {
                ascending(a.max(c), b.min(d))
            }
        }
    }

    // From low to high, cut to 32 bits.
    pub fn checked(low: i64, high: i64) -> Interval
        ensures { result ≡ checked_of low high }
    {
        let least = i64::from(i32::MIN);
        let greatest = i64::from(i32::MAX);
        if greatest < low || high < least {
            return Interval::Bottom;
        }
        ascending(low.max(least) as i32, high.min(greatest) as i32)
    }

    // The ends of an interval, if it has a number.
    pub fn endpoints(self) -> Option<(i32, i32)>
        ensures { result ≡ endpoints_of self }
    {
        match self {
            Interval::Bottom => None,
            Interval::Bounded { low, high } => Some((low, high)),
            Interval::Unbounded => Some((i32::MIN, i32::MAX)),
        }
    }

    pub fn contains(self, number: i32) -> bool
        ensures { result ≡ contains_of self number }
    {
        let Some((low, high)) = self.endpoints() else {
            return false;
        };
        low <= number && number <= high
    }
}

impl Integrality {
    // The join has numbers alone where both have.
    fn join(self, other: Integrality) -> Integrality
        ensures { result ≡ join_integrality self other }
    {
        match (self, other) {
            (Integrality::Integer, Integrality::Integer) => Integrality::Integer,
            _ => Integrality::Mixed,
        }
    }

    // The meet has numbers alone where one has.
    fn meet(self, other: Integrality) -> Integrality
        ensures { result ≡ meet_integrality self other }
    {
        match (self, other) {
            (Integrality::Mixed, Integrality::Mixed) => Integrality::Mixed,
            _ => Integrality::Integer,
        }
    }
}

impl Bound {
    // Associated constants, as 01 names them.
    pub const TOP: Bound = Bound {
        integrality: Integrality::Mixed,
        interval: Interval::Unbounded,
    };

    pub const BOTTOM: Bound = Bound {
        integrality: Integrality::Integer,
        interval: Interval::Bottom,
    };

    // Numbers of an interval. A constructor by name, as 01 has it: a `From` reads no plainer where it is called.
    pub fn numeric(interval: Interval) -> Bound
        ensures { result ≡ numeric_bound interval }
    {
        Bound {
            integrality: Integrality::Integer,
            interval,
        }
    }

    // One constant, by name for the same reason.
    pub fn constant(constant: Constant) -> Bound
        ensures { result ≡ constant_bound constant }
    {
        match constant {
            Constant::Number(n) => Bound::numeric(Interval::Bounded { low: n, high: n }),
            Constant::Name | Constant::Large => Bound {
                integrality: Integrality::Mixed,
                interval: Interval::Bottom,
            },
        }
    }

    pub fn hull(self, other: Bound) -> Bound
        ensures { result ≡ hull_bound self other }
    {
        Bound {
            integrality: self.integrality.join(other.integrality),
            interval: self.interval.hull(other.interval),
        }
    }

    pub fn meet(self, other: Bound) -> Bound
        ensures { result ≡ meet_bound self other }
    {
        Bound {
            integrality: self.integrality.meet(other.integrality),
            interval: self.interval.meet(other.interval),
        }
    }

    // Whether a constant lies in the bound: a number in the interval, a name in a Mixed bound.
    pub fn allows(self, constant: Constant) -> bool
        ensures { result ≡ allows_of self constant }
    {
        match constant {
            Constant::Number(n) => self.interval.contains(n),
            Constant::Name | Constant::Large => self.integrality == Integrality::Mixed,
        }
    }
}
