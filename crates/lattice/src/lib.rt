//! Abstract values (lattice.rs, and the reasons of value.rs): a bound, perhaps a list of constants, and why there is none.
//! Values go in and come back by value. Work and live entries are charged on a meter; whoever makes a list releases its entries
//! on every way out.
#![tactic(auto)]

ghost use Rattle.std.specs.Prelude.{◌≡◌, ◌≤◌, [], length, IfSome};
ghost use Rattle.std.proofs.Math.Option.{some, none};
ghost use Rattle.sizes.specs.Sizes as size;
ghost use Rattle.limits.specs.Metered.{answered, seen};
ghost use Rattle.lists.specs.Lists.{permits};
ghost use Rattle.lists.specs.Ids.{ids_of};
ghost use Rattle.lattice.specs.Value.{value, value_of, widening_number, reason_number};
ghost use Rattle.lattice.specs.Constants.{constant_at};
ghost use Rattle.lattice.specs.Lattice.{bottom, top, numeric, retained, constant, copied, same_lists, same, join_lists, join, permitted, keep_one, sift, reduce, source, meet_lists, bare_meet, meet, refine, loses};
ghost use Rattle.lattice.specs.Answers.{lent, answered_value};

use interval::{Bound, Constant, Interval};
use limits::{Meter, Stop};
use lists::Ids;

// Why an argument lost its list.
#[derive(Clone, Copy, Debug, PartialEq, Eq)]
pub enum Widening {
    HeadForm,
    HeadTerm,
    UnboundVariable,
    SymbolSize,
    ValueWidth,
    Dependency,
}

// A bound, and where `kept` the list of the first `len` ids: array, length and mark, by value, as 01 has it. Ids behind the list mean nothing.
#[derive(Clone, Copy)]
pub struct Abstract {
    pub ids: [u16; sizes::WIDTH],
    pub len: usize,
    pub bound: Bound,
    pub kept: bool,
    pub reason: Option<Widening>,
}

impl From<Widening> for u32 {
    ghost from_gives = { λ w n. n ≡ widening_number w };

    fn from(widening: Widening) -> u32 {
        match widening {
            Widening::HeadForm => 1,
            Widening::HeadTerm => 2,
            Widening::UnboundVariable => 3,
            Widening::SymbolSize => 4,
            Widening::ValueWidth => 5,
            Widening::Dependency => 6,
        }
    }
}

// A reason by its number, and 0 for none.
pub fn reason_number(reason: Option<Widening>) -> u32
    ensures { result ≡ reason_number reason }
{
    match reason {
        Some(widening) => u32::from(widening),
        None => 0,
    }
}

// A constant of the lent table. An id that the table does not have reads as a name that is not retained.
pub fn constant_at(constants: &[u32], id: u16) -> Constant
    ensures { result ≡ constant_at constants.now id }
{
    let at = sizes::CONSTANT_ROW * usize::from(id);
    match cells::cell_at(constants, at) {
        1 => Constant::Number(cells::of_cell(cells::cell_at(constants, at + 1))),
        2 => Constant::Name,
        _ => Constant::Large,
    }
}

fn listed(bound: Bound, list: Ids, reason: Option<Widening>) -> Abstract
    ensures { value_of result ≡ value bound (some (ids_of list)) reason }
{
    let (ids, len) = list.into_parts();
    Abstract {
        ids,
        len,
        bound,
        kept: true,
        reason,
    }
}

fn unlisted(bound: Bound, reason: Option<Widening>) -> Abstract
    ensures { value_of result ≡ value bound none reason }
{
    Abstract {
        ids: [0; sizes::WIDTH],
        len: 0,
        bound,
        kept: false,
        reason,
    }
}

// A constant that is retained: its own id for a list, where the width admits one.
fn retained(id: u16, bound: Bound, width: u64, meter: &mut Meter) -> Result<Abstract, Stop>
    ensures { answered_value result meter.new ≡ retained id bound width meter.old }
{
    if width == 0 {
        return Ok(unlisted(bound, Some(Widening::ValueWidth)));
    }
    meter.retain(1)?;
    let mut list = Ids::new();
    list.push(id);
    Ok(listed(bound, list, None))
}

// The lists of two values of one bound.
fn same_lists(left: &Abstract, right: &Abstract, meter: &mut Meter) -> Result<bool, Stop>
    ensures { answered result meter.new ≡ same_lists (value_of left.now).values (value_of right.now).values meter.old }
{
    match (left.list(), right.list()) {
        (Some(l), Some(r)) if l.len() == r.len() => lists::same_ids(l, r, meter),
        (None, None) => Ok(true),
        _ => Ok(false),
    }
}

// The union of two lists in a join.
fn join_lists(
    left: &[u16],
    right: &[u16],
    width: u64,
    bound: Bound,
    reason: Option<Widening>,
    meter: &mut Meter,
) -> Result<Abstract, Stop>
    ensures { answered_value result meter.new ≡ join_lists width bound reason (some left.now) (some right.now) meter.old }
{
    match lists::merge(left, right, width, meter)? {
        Some(list) => Ok(listed(bound, list, reason)),
        None => Ok(unlisted(bound, reason.or(Some(Widening::ValueWidth)))),
    }
}

// The list that a meet goes through: the shorter one, the left one of two of one length.
fn source<'a>(left: &'a Abstract, right: &'a Abstract) -> Option<&'a [u16]>
    ensures list { lent (λ l. l.now) result ≡ source (value_of left.now).values (value_of right.now).values }
    ensures short { IfSome result (λ l. length l.now ≤ size.width) }
{
    match (left.list(), right.list()) {
        (Some(l), Some(r)) => Some(if l.len() <= r.len() { l } else { r }),
        (Some(l), None) => Some(l),
        (None, r) => r,
    }
}

// Whether a list is lost on the way from one value to the other.
pub fn is_lost(old: &Abstract, new: &Abstract) -> bool
    ensures { result ≡ loses (value_of old.now).values (value_of new.now).values }
{
    old.kept && !new.kept
}

// Two values that are met, within the bound that both have.
#[derive(Clone, Copy)]
struct Meeting<'a> {
    left: &'a Abstract,
    right: &'a Abstract,
    bound: Bound,
    constants: &'a [u32],
}

impl Meeting<'_> {
    // Whether both values permit an id.
    fn permitted(&self, id: u16, meter: &mut Meter) -> Result<bool, Stop>
        ensures { answered result meter.new ≡ permitted (value_of self.now.left.now) (value_of self.now.right.now) id meter.old }
    {
        if !self.left.permits(id, meter)? {
            return Ok(false);
        }
        self.right.permits(id, meter)
    }

    // Whether an id of the shorter list stays. `held` ids have stayed before it.
    fn keep_one(&self, held: u64, id: u16, meter: &mut Meter) -> Result<bool, Stop>
        ensures { answered result meter.new ≡ keep_one (value_of self.now.left.now) (value_of self.now.right.now) self.now.bound self.now.constants.now held id meter.old }
    {
        let step = meter.work(1);
        meter.holding(held, step)?;
        let both = self.permitted(id, meter);
        let both = meter.holding(held, both)?;
        if both && self.bound.allows(constant_at(self.constants, id)) {
            lists::retain_one(held, meter)?;
            return Ok(true);
        }
        Ok(false)
    }

    // What is left of a list: the ids that stay.
    fn sift(&self, list: &[u16], meter: &mut Meter) -> Result<Ids, Stop>
        requires { length list.now ≤ size.width }
        ensures { seen ids_of result meter.new ≡ sift (value_of self.now.left.now) (value_of self.now.right.now) self.now.bound self.now.constants.now [] list.now meter.old }
    {
        let mut kept = Ids::new();
        for id in list {
            if self.keep_one(kept.len() as u64, *id, meter)? {
                kept.push(*id);
            }
        }
        Ok(kept)
    }

    // `Abstract::reduce`: the bound, shrunk to what the list holds.
    fn reduce(&self, kept: &[u16], meter: &mut Meter) -> Result<Bound, Stop>
        ensures { answered result meter.new ≡ reduce self.now.bound self.now.constants.now kept.now meter.old }
    {
        let mut held = Bound::BOTTOM;
        for id in kept {
            let step = meter.work(1);
            meter.holding(kept.len() as u64, step)?;
            held = held.hull(Bound::constant(constant_at(self.constants, *id)));
        }
        Ok(self.bound.meet(held))
    }

    // What is left of a list, and the bound shrunk to it.
    fn through(&self, list: &[u16], meter: &mut Meter) -> Result<Abstract, Stop>
        requires { length list.now ≤ size.width }
        ensures { answered_value result meter.new ≡ meet_lists (value_of self.now.left.now) (value_of self.now.right.now) self.now.bound self.now.constants.now (some list.now) meter.old }
    {
        let kept = self.sift(list, meter)?;
        let bound = self.reduce(kept.as_slice(), meter)?;
        Ok(listed(bound, kept, None))
    }

    // Where neither value has a list: none, or the empty one where nothing is left.
    fn bare(&self) -> Abstract
        ensures { value_of result ≡ bare_meet (value_of self.now.left.now) (value_of self.now.right.now) self.now.bound }
    {
        let reason = self.left.reason.or(self.right.reason);
        if self.bound == Bound::BOTTOM {
            return listed(self.bound, Ids::new(), reason);
        }
        unlisted(self.bound, reason)
    }
}

impl Abstract {
    pub fn bottom() -> Abstract
        ensures { value_of result ≡ bottom }
    {
        listed(Bound::BOTTOM, Ids::new(), None)
    }

    pub fn top(reason: Option<Widening>) -> Abstract
        ensures { value_of result ≡ top reason }
    {
        unlisted(Bound::TOP, reason)
    }

    pub fn numeric(interval: Interval) -> Abstract
        ensures { value_of result ≡ numeric interval }
    {
        match interval {
            Interval::Bottom => Abstract::bottom(),
            _ => unlisted(Bound::numeric(interval), None),
        }
    }

    // The list, where there is one.
    pub fn list(&self) -> Option<&[u16]>
        ensures list { lent (λ l. l.now) result ≡ (value_of self.now).values }
        ensures short { IfSome result (λ l. length l.now ≤ size.width) }
    {
        if !self.kept {
            return None;
        }
        Some(&self.ids[..self.len.min(sizes::WIDTH)])
    }

    // One constant. It has a list where it is retained and the width admits one.
    pub fn constant(id: u16, key: Constant, width: u64, meter: &mut Meter) -> Result<Abstract, Stop>
        ensures { answered_value result meter.new ≡ constant id key width meter.old }
    {
        let bound = Bound::constant(key);
        match key {
            Constant::Large => Ok(unlisted(bound, Some(Widening::SymbolSize))),
            _ => retained(id, bound, width, meter),
        }
    }

    pub fn copied(self, meter: &mut Meter) -> Result<Abstract, Stop>
        ensures { answered_value result meter.new ≡ copied (value_of self) meter.old }
    {
        meter.work(1)?;
        if let Some(list) = self.list() {
            let count = list.len() as u64;
            meter.work(count)?;
            lists::retain_all(count, meter)?;
        }
        Ok(self)
    }

    // Whether the list, if there is one, has an id.
    fn permits(&self, id: u16, meter: &mut Meter) -> Result<bool, Stop>
        ensures { answered result meter.new ≡ permits (value_of self.now).values id meter.old }
    {
        match self.list() {
            Some(ids) => lists::permits_id(ids, id, meter),
            None => Ok(true),
        }
    }

    // Equal bounds and equal lists; the reasons are not compared.
    pub fn same(self, other: Abstract, meter: &mut Meter) -> Result<bool, Stop>
        ensures { answered result meter.new ≡ same (value_of self) (value_of other) meter.old }
    {
        meter.work(1)?;
        if self.bound == other.bound {
            return same_lists(&self, &other, meter);
        }
        Ok(false)
    }

    pub fn join(self, other: Abstract, width: u64, meter: &mut Meter) -> Result<Abstract, Stop>
        ensures { answered_value result meter.new ≡ join width (value_of self) (value_of other) meter.old }
    {
        meter.work(1)?;
        let bound = self.bound.hull(other.bound);
        let reason = self.reason.or(other.reason);
        match (self.list(), other.list()) {
            (Some(left), Some(right)) => join_lists(left, right, width, bound, reason, meter),
            _ => Ok(unlisted(bound, reason)),
        }
    }

    pub fn meet(
        self,
        constants: &[u32],
        other: Abstract,
        meter: &mut Meter,
    ) -> Result<Abstract, Stop>
        ensures { answered_value result meter.new ≡ meet constants.now (value_of self) (value_of other) meter.old }
    {
        meter.work(1)?;
        let meeting = Meeting {
            left: &self,
            right: &other,
            bound: self.bound.meet(other.bound),
            constants,
        };
        match source(&self, &other) {
            Some(ids) => meeting.through(ids, meter),
            None => Ok(meeting.bare()),
        }
    }

    // The part of a value whose numbers lie in an interval.
    pub fn refine(
        self,
        constants: &[u32],
        interval: Interval,
        meter: &mut Meter,
    ) -> Result<Abstract, Stop>
        ensures { answered_value result meter.new ≡ refine constants.now (value_of self) interval meter.old }
    {
        self.meet(constants, Abstract::numeric(interval), meter)
    }
}
