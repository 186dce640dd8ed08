//! Limits and counts (limits.rs, and `Budget` of numeric.rs): what a call may charge, what it has charged, and what it is
//! turned down with. Counts are charged in place, on a meter or a budget; no count ever wraps.
#![tactic(auto)]

ghost use Rattle.std.specs.Prelude.{◌≡◌, ◌-◌};
ghost use Rattle.limits.specs.Charge.{charge_of, observed, counting, units_of};
ghost use Rattle.limits.specs.Records.{count_of, limit_of, with_count, fresh_budget};
ghost use Rattle.limits.specs.declared.Refusal.TheVariants.{Limit};
ghost use Rattle.limits.specs.Refusal.{resource_number, told};
ghost use Rattle.limits.specs.Budget.{charge, released, widened_once};
ghost use Rattle.limits.specs.Meter.{meter_of, with_meter, units, retain, work as metered_work, released as fewer, held_through};
ghost use Rattle.limits.specs.Metered.{answered};

// Inclusive ceilings. Beside each stands its name in limits.rs.
#[derive(Clone, Copy, Debug, PartialEq, Eq)]
pub struct Limits {
    pub work: u64, // max_work
    pub predicates: u64, // max_predicates
    pub positions: u64, // max_positions
    pub links: u64, // max_links
    pub width: u64, // max_values_per_argument
    pub entries: u64, // max_value_entries
    pub rounds: u64, // max_rounds
    pub bytes: u64, // max_inspected_bytes
    pub symbol: u64, // max_symbol_bytes
}

// What has been charged. `entries` are live and go down again, `widened` has no limit, the others only grow.
#[derive(Clone, Copy, Debug, PartialEq, Eq)]
pub struct Statistics {
    pub work: u64,
    pub predicates: u64,
    pub positions: u64,
    pub links: u64,
    pub entries: u64, // value_entries
    pub rounds: u64,
    pub bytes: u64, // inspected_bytes
    pub widened: u64,
}

// The seven counts that have a limit.
#[derive(Clone, Copy, Debug, PartialEq, Eq)]
pub enum Resource {
    Work,
    Predicates,
    Positions,
    Links,
    ValueEntries,
    Rounds,
    InspectedBytes,
}

// A charge that would pass its limit. The observed sum may need 65 bits: it is high * 2^64 + low (01: "two 64-bit halves").
#[derive(Clone, Copy, Debug, PartialEq, Eq)]
pub struct Stop {
    pub resource: Resource,
    pub limit: u64,
    pub high: u64,
    pub low: u64,
}

// Why a call is turned down. Causes are kept apart where several have one number.
#[derive(Clone, Copy, Debug, PartialEq, Eq)]
pub enum Refusal {
    // The phase of the store does not admit the call.
    Closed,
    // The call has a shape that the port lacks.
    Shape,
    // A table could be overfilled.
    Full,
    // A charge would pass its limit.
    Limit(Stop),
    // An id or a position does not exist.
    Missing,
    // The low end exceeds the high one.
    Descending,
    // A rule does not have the slot.
    MissingSlot,
}

// The limits and the counts of one store.
#[derive(Clone, Copy, Debug, PartialEq, Eq)]
pub struct Budget {
    pub limits: Limits,
    pub statistics: Statistics,
}

// Work and live entries, each beside its limit: all that lattice and transfer charge.
#[derive(Clone, Copy, Debug, PartialEq, Eq)]
pub struct Meter {
    pub work: u64,
    pub max_work: u64,
    pub entries: u64,
    pub max_entries: u64,
}

// A count with `amount` more: refused exactly when the sum exceeds the limit.
#[tactic(auto, unfolding(crate::specs::Charge::charge_of), using(crate::proofs::CodeLaws::sum_over, crate::proofs::CodeLaws::sum_within))]
pub fn charge(resource: Resource, old: u64, amount: u64, limit: u64) -> Result<u64, Stop>
    ensures { result ≡ charge_of resource old amount limit }
{
    match old.checked_add(amount) {
        Some(sum) if sum <= limit => Ok(sum),
        Some(sum) => Err(Stop {
            resource,
            limit,
            high: 0,
            low: sum,
        }),
        None => Err(Stop {
            resource,
            limit,
            high: 1,
            low: old.wrapping_add(amount),
        }),
    }
}

// A charge of one count, in place. A refused one changes nothing.
fn charge_count(resource: Resource, count: &mut u64, amount: u64, limit: u64) -> Result<(), Stop>
    ensures { answered result count.new ≡ counting resource limit amount count.old }
{
    *count = charge(resource, *count, amount, limit)?;
    Ok(())
}

// `times` charges of one unit each, of one count. The first that is refused ends them, and those before it stay charged.
pub fn charge_units(resource: Resource, count: &mut u64, times: u64, limit: u64) -> Result<(), Stop>
    ensures { answered result count.new ≡ units_of resource limit times count.old }
{
    let room = limit.saturating_sub(*count);
    if room < times {
        *count += room;
        return charge_count(resource, count, 1, limit);
    }
    *count += times;
    Ok(())
}

// `count` live entries fewer. Counts that no calls make stay at 0.
pub fn release(entries: u64, count: u64) -> u64
    ensures { result ≡ entries - count }
{
    entries.saturating_sub(count)
}

impl Meter {
    // A charge of work. A refused one changes nothing.
    pub fn work(&mut self, amount: u64) -> Result<(), Stop>
        ensures { answered result self.new ≡ metered_work amount self.old }
    {
        let limit = self.max_work;
        charge_count(Resource::Work, &mut self.work, amount, limit)
    }

    // `count` charges of one unit of work each: what a search pays that looks at `count` items. The first that is refused ends them.
    pub fn units(&mut self, count: u64) -> Result<(), Stop>
        ensures { answered result self.new ≡ units count self.old }
    {
        let limit = self.max_work;
        charge_units(Resource::Work, &mut self.work, count, limit)
    }

    // `count` live entries more. A refused charge changes nothing.
    pub fn retain(&mut self, count: u64) -> Result<(), Stop>
        ensures { answered result self.new ≡ retain count self.old }
    {
        let limit = self.max_entries;
        charge_count(Resource::ValueEntries, &mut self.entries, count, limit)
    }

    // `count` live entries fewer. Counts that no calls make stay at 0.
    pub fn release(&mut self, count: u64)
        ensures { self.new ≡ fewer count self.old }
    {
        self.entries = release(self.entries, count);
    }

    // What a step answered while `held` entries were live, which go where it was refused.
    pub fn holding<T: Copy>(&mut self, held: u64, step: Result<T, Stop>) -> Result<T, Stop>
        ensures { answered result self.new ≡ held_through held step self.old }
    {
        if step.is_err() {
            self.release(held);
        }
        step
    }
}

impl Stop {
    // The sum that would have passed the limit.
    pub fn observed(self) -> u128
        ensures { result ≡ observed self }
    {
        u128::from(self.high) * 18446744073709551616 + u128::from(self.low)
    }
}

// 01's number of the refusal that names a resource.
impl From<Resource> for u64 {
    ghost from_gives = { λ r n. n ≡ resource_number r };

    fn from(resource: Resource) -> u64 {
        match resource {
            Resource::Work => 3,
            Resource::InspectedBytes => 4,
            Resource::Predicates => 6,
            Resource::Positions => 7,
            Resource::Links => 8,
            Resource::ValueEntries => 9,
            Resource::Rounds => 10,
        }
    }
}

// A refusal's number: 01's, or 02's.
impl From<Refusal> for u64 {
    ghost from_gives = { λ r n. n ≡ (told r).number };

    fn from(refusal: Refusal) -> u64 {
        match refusal {
            Refusal::Closed | Refusal::Shape => 1,
            Refusal::Full => 2,
            Refusal::Limit(stop) => u64::from(stop.resource),
            Refusal::Missing => 5,
            Refusal::Descending => 13,
            Refusal::MissingSlot => 14,
        }
    }
}

impl From<Stop> for Refusal {
    ghost from_gives = { λ s r. r ≡ Limit s };

    fn from(stop: Stop) -> Refusal {
        Refusal::Limit(stop)
    }
}

impl Limits {
    // The limit of one resource.
    pub fn of(self, resource: Resource) -> u64
        ensures { result ≡ limit_of resource self }
    {
        match resource {
            Resource::Work => self.work,
            Resource::Predicates => self.predicates,
            Resource::Positions => self.positions,
            Resource::Links => self.links,
            Resource::ValueEntries => self.entries,
            Resource::Rounds => self.rounds,
            Resource::InspectedBytes => self.bytes,
        }
    }
}

impl Statistics {
    // The count of one resource. Beside `Limits::of`, since the fields are another struct's: a trait for both would have two matches too.
    pub fn of(self, resource: Resource) -> u64
        ensures { result ≡ count_of resource self }
    {
        match resource {
            Resource::Work => self.work,
            Resource::Predicates => self.predicates,
            Resource::Positions => self.positions,
            Resource::Links => self.links,
            Resource::ValueEntries => self.entries,
            Resource::Rounds => self.rounds,
            Resource::InspectedBytes => self.bytes,
        }
    }

    // The same counts but for one resource's.
    pub fn with(mut self, resource: Resource, count: u64) -> Statistics
        ensures { result ≡ with_count resource count self }
    {
        match resource {
            Resource::Work => self.work = count,
            Resource::Predicates => self.predicates = count,
            Resource::Positions => self.positions = count,
            Resource::Links => self.links = count,
            Resource::ValueEntries => self.entries = count,
            Resource::Rounds => self.rounds = count,
            Resource::InspectedBytes => self.bytes = count,
        }
        self
    }
}

impl Budget {
    // Nothing charged yet.
    pub fn new(limits: Limits) -> Budget
        ensures { result ≡ fresh_budget limits }
    {
        Budget {
            limits,
            statistics: Statistics {
                work: 0,
                predicates: 0,
                positions: 0,
                links: 0,
                entries: 0,
                rounds: 0,
                bytes: 0,
                widened: 0,
            },
        }
    }

    // A charge of one resource. A refused one changes nothing.
    pub fn pay(&mut self, resource: Resource, amount: u64) -> Result<(), Stop>
        ensures { answered result self.new ≡ charge resource amount self.old }
    {
        let count = charge(
            resource,
            self.statistics.of(resource),
            amount,
            self.limits.of(resource),
        )?;
        self.statistics = self.statistics.with(resource, count);
        Ok(())
    }

    // `count` live entries fewer.
    pub fn release_entries(&mut self, count: u64)
        ensures { self.new ≡ released count self.old }
    {
        self.statistics.entries = release(self.statistics.entries, count);
    }

    // One argument more has lost its list. The count has no limit: it stays at the largest number.
    pub fn count_widened(&mut self)
        ensures { self.new ≡ widened_once self.old }
    {
        self.statistics.widened = self.statistics.widened.saturating_add(1);
    }

    // What lattice and transfer charge. It is settled by hand: a closure between the two would have to promise what it does to lent tables.
    pub fn meter(&self) -> Meter
        ensures { result ≡ meter_of self.now }
    {
        Meter {
            work: self.statistics.work,
            max_work: self.limits.work,
            entries: self.statistics.entries,
            max_entries: self.limits.entries,
        }
    }

    // Takes over the counts of a meter on which was charged.
    pub fn settle(&mut self, meter: Meter)
        ensures { self.new ≡ with_meter meter self.old }
    {
        self.statistics.work = meter.work;
        self.statistics.entries = meter.entries;
    }
}
