//! Document 01's example: argument 0 begins with 0 and gets slot + 1 where slot is in argument 0 and slot < 10. Writes the report of its
//! run, or the line of the first refusal.
#![tactic(auto)]

use keys::Key;
use limits::{Limits, Refusal};
use nodes::{BinaryOp, Expression};
use report::Lines;
use rules::{Binding, Guard, Head, Lengths, Relation, Rule};
use std::io::{Stdout, Write};
use store::Store;

// A store and its tables.
#[derive(Drop)]
struct Design {
    store: Store,
    names: [u8; sizes::NAME_CELLS],
    constants: [u32; sizes::CONSTANT_CELLS],
    order: [u32; sizes::CONSTANTS],
    thresholds: [i32; sizes::THRESHOLDS],
    nodes: [u64; sizes::NODE_CELLS],
    predicates: [u32; sizes::PREDICATE_CELLS],
    seeds: [u32; sizes::ARGUMENT_CELLS],
    records: [u32; sizes::RECORD_CELLS],
    rules: [u32; sizes::RULE_CELLS],
    arguments: [u32; sizes::ARGUMENT_CELLS],
    slots: [u32; sizes::BOUNDS_CELLS],
    current: [u32; sizes::ARGUMENT_CELLS],
    growth: [u32; sizes::GROWTH_CELLS],
    scratch: [u32; sizes::SCRATCH_CELLS],
}

impl Design {
    // A design without anything in it.
    fn new(store: Store) -> Design {
        Design {
            store,
            names: [0; sizes::NAME_CELLS],
            constants: [0; sizes::CONSTANT_CELLS],
            order: [0; sizes::CONSTANTS],
            thresholds: [0; sizes::THRESHOLDS],
            nodes: [0; sizes::NODE_CELLS],
            predicates: [0; sizes::PREDICATE_CELLS],
            seeds: [0; sizes::ARGUMENT_CELLS],
            records: [0; sizes::RECORD_CELLS],
            rules: [0; sizes::RULE_CELLS],
            arguments: [0; sizes::ARGUMENT_CELLS],
            slots: [0; sizes::BOUNDS_CELLS],
            current: [0; sizes::ARGUMENT_CELLS],
            growth: [0; sizes::GROWTH_CELLS],
            scratch: [0; sizes::SCRATCH_CELLS],
        }
    }

    // A predicate of one argument: the argument's id.
    fn declare(&mut self) -> Result<u64, Refusal> {
        let predicate = self
            .store
            .predicate(&mut self.predicates, &mut self.seeds, 1)?;
        let argument = self.store.argument(&self.predicates, predicate as u64, 0)?;
        Ok(argument as u64)
    }

    fn number(&mut self, value: i32) -> Result<u64, Refusal> {
        let id = constants::constant(
            &mut self.store,
            &mut self.names,
            &mut self.constants,
            &mut self.order,
            &mut self.thresholds,
            Key::Number(value),
        )?;
        Ok(id as u64)
    }

    fn seed(&mut self, argument: u64, constant: u64) -> Result<(), Refusal> {
        seeds::seed_value(
            &mut self.store,
            &self.constants,
            &mut self.seeds,
            &mut self.records,
            argument,
            constant,
        )
    }

    fn expression(&mut self, value: Expression) -> Result<u64, Refusal> {
        let id = expressions::expression(&mut self.store, &mut self.nodes, value)?;
        Ok(id as u64)
    }

    // The whole store up to its run.
    fn build(&mut self) -> Result<(), Refusal> {
        let argument = self.declare()?;
        let zero = self.number(0)?;
        let one = self.number(1)?;
        let ten = self.number(10)?;
        self.seed(argument, zero)?;
        let slot = self.expression(Expression::Slot(0))?;
        let step = self.expression(Expression::Constant(one))?;
        let bound = self.expression(Expression::Constant(ten))?;
        let next = self.expression(Expression::Binary(BinaryOp::Add, slot, step))?;
        producers::rule(
            &mut self.store,
            &self.nodes,
            &mut self.rules,
            &mut self.records,
            &counting(argument, slot, bound, next),
        )?;
        Ok(())
    }

    fn run(&mut self) -> Result<(), Refusal> {
        engine::run(
            &mut self.store,
            &self.nodes,
            &self.constants,
            &self.rules,
            &self.seeds,
            &mut self.thresholds,
            &mut self.arguments,
            &mut self.slots,
            &mut self.current,
            &mut self.growth,
            &mut self.scratch,
        )
    }

    fn line_count(&self) -> Result<u64, Refusal> {
        report::line_count(&self.store, &self.arguments, &self.rules, &self.slots)
    }

    fn report(&self, output: Stdout, count: u64) {
        let mut lines = Lines::new(&self.store, &self.arguments, &self.rules, &self.slots);
        let mut line = [0; sizes::LINE];
        for _ in 0..count {
            let written = lines.next(&mut line);
            tell(output, written, &line);
        }
    }
}

// Writes the first `len` bytes of a line. A failed write is passed over.
fn send(output: Stdout, line: &[u8], len: usize) {
    if let Some(bytes) = line.get(..len) {
        let _ = output.write_all(bytes);
    }
}

fn complain(output: Stdout, refusal: Refusal) {
    let mut line = [0; sizes::LINE];
    if let Ok(len) = report::refusal_line(&mut line, refusal) {
        send(output, &line, len);
    }
}

// Writes a line of the report. A line that is refused says so.
fn tell(output: Stdout, written: Result<usize, Refusal>, line: &[u8]) {
    match written {
        Ok(len) => send(output, line, len),
        Err(refusal) => complain(output, refusal),
    }
}

// Ample limits, and lists of at most 4 values.
fn limits() -> Limits {
    Limits {
        work: 1000000,
        predicates: 64,
        positions: 256,
        links: 100000,
        width: 4,
        entries: 100000,
        rounds: 1000,
        bytes: 100000,
        symbol: 64,
    }
}

// The argument gets `next` where slot 0 is in the argument and `slot` < `bound`: 01 says it of its example with 10.
fn counting(argument: u64, slot: u64, bound: u64, next: u64) -> Rule {
    let binding = Binding::Positive { slot: 0, argument };
    let guard = Guard::Compare {
        left: slot,
        relation: Relation::Lt,
        right: bound,
    };
    let head = Head {
        argument,
        value: next,
    };
    Rule {
        slots: 1,
        bindings: [binding; 32],
        guards: [guard; 32],
        heads: [head; 16],
        lengths: Lengths {
            bindings: 1,
            guards: 1,
            heads: 1,
            queries: 0,
        },
    }
}

// A design with its run: how many lines its report has, or the first refusal.
fn bounded(design: &mut Design, fresh: Result<(), Refusal>) -> Result<u64, Refusal> {
    fresh?;
    design.build()?;
    design.run()?;
    design.line_count()
}

fn main(rt: HostRuntime) {
    let output = rt.stdout();
    let (store, fresh) = store::fresh(limits());
    let mut design = Design::new(store);
    match bounded(&mut design, fresh) {
        Ok(count) => design.report(output, count),
        Err(refusal) => complain(output, refusal),
    }
}
