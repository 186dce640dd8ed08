//! `rule` and `head` of transfer.rs: the values of a rule's slots before and after guards, and the value of a head. The caller lends the tables
//! that a rule fills, one by one as in guards, and drops their rows when it has done with them.
#![tactic(auto)]

ghost use Rattle.std.specs.Prelude.{◌≡◌};
ghost use Rattle.limits.specs.Metered.{answered};
ghost use Rattle.lattice.specs.Answers.{answered_value};
ghost use Rattle.refinements.specs.Refinement.{refinements_of};
ghost use Rattle.evaluation.specs.Operands.{input_in};
ghost use Rattle.transfer.specs.Transfer.{frame, rule, head};

use evaluation::{Input, Scene};
use lattice::Abstract;
use limits::{Meter, Stop};

// The values of a rule's slots, and how many refinements its guards have recorded. Where it is stopped, nothing that it made stays live.
pub fn rule(
    input: &Input,
    rules: &[u32],
    arguments: &[u32],
    domains: &mut [u32],
    produced: &mut [u32],
    refinements: &mut [u32],
    id: usize,
    meter: &mut Meter,
) -> Result<usize, Stop>
    ensures { answered result (frame meter.new domains.new produced.new refinements.new) ≡ rule (input_in input.now) rules.now id arguments.now (frame meter.old domains.old produced.old refinements.old) }
{
    bindings::bind(input, domains, rules, arguments, id, meter)?;
    let guarded = guards::guard(input, domains, produced, refinements, rules, id, meter);
    if guarded.is_err() {
        slots::drop_rows(domains, rules::slots_at(rules, id) as usize, meter);
    }
    guarded
}

// The value of a head, under the first `count` refinements.
pub fn head(
    input: &Input,
    produced: &[u32],
    refinements: &[u32],
    count: usize,
    id: u64,
    meter: &mut Meter,
) -> Result<Abstract, Stop>
    ensures { answered_value result meter.new ≡ head (input_in input.now) produced.now (refinements_of refinements.now count) id meter.old }
{
    let scene = Scene {
        input: *input,
        slots: produced,
        refinements,
        count,
    };
    scene.expression(id, meter)
}
