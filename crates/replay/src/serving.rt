//! The calls of a job, each read, carried out and answered by its line, if the text did not break off.
use crate::parts;
use crate::reading::{Malformed, Reader};
use crate::tables::Tables;
use crate::writing::Writer;
use interval::Constant;
use keys::Key;
use report::Lines;
use store::{Phase, Store};

// A job: its text, its answers, the store so far, and the tables.
#[derive(Drop)]
pub struct Session {
    pub reader: Reader,
    pub writer: Writer,
    pub store: Store,
    pub tables: Tables,
}

impl Session {
    // A job begins with a fresh store; any other text, an empty one too, is none.
    pub fn begin(&mut self) -> Result<(), Malformed> {
        match self.reader.call()? {
            Some(1) => self.fresh(),
            _ => Err(Malformed {}),
        }
    }

    // If the call before this was refused, a person is told where and why.
    pub fn tell(&mut self) {
        if let Some(refusal) = self.writer.take_refusal() {
            self.reader.teller.refused(self.reader.start, refusal);
        }
        if self.writer.is_nearly_full() {
            self.reader.teller.flush();
        }
    }

    fn fresh(&mut self) -> Result<(), Malformed> {
        let (store, answer) = store::fresh(parts::limits(&mut self.reader)?);
        self.store = store;
        self.writer.done(answer);
        Ok(())
    }

    // One call but the run, by its number. Any other number is no call.
    pub fn step(&mut self, call: u64) -> Result<(), Malformed> {
        match call {
            1 => self.fresh(),
            2 => self.context(),
            3 => self.work(),
            4..=5 => self.predicate(call),
            6..=7 => self.constant(call),
            10..=15 => self.expression(call),
            20..=21 => self.seed(call),
            22 => self.rule(),
            40..=43 => self.reading(call),
            50..=51 => {
                self.state_line(call);
                Ok(())
            }
            _ => Err(Malformed {}),
        }
    }

    fn context(&mut self) -> Result<(), Malformed> {
        let context = u32::try_from(self.reader.wide()?).map_err(|_| Malformed {})?;
        self.writer.done(self.store.context(context));
        Ok(())
    }

    fn work(&mut self) -> Result<(), Malformed> {
        let amount = self.reader.wide()?;
        self.writer.done(self.store.work(amount));
        Ok(())
    }

    // The calls 4 and 5.
    fn predicate(&mut self, call: u64) -> Result<(), Malformed> {
        let first = self.reader.wide()?;
        let tables = &mut self.tables;
        let answer = if call == 4 {
            self.store
                .predicate(&mut tables.predicates, &mut tables.seeds, first)
        } else {
            let position = self.reader.wide()?;
            self.store.argument(&tables.predicates, first, position)
        };
        self.writer.answered(answer);
        Ok(())
    }

    // The calls 6 and 7.
    fn constant(&mut self, call: u64) -> Result<(), Malformed> {
        let mut bytes = [0; parts::NAME];
        let key = if call == 6 {
            Key::Number(self.reader.signed()?)
        } else {
            let len = parts::name(&mut self.reader, &mut bytes)?;
            Key::Name(&bytes[..len.min(parts::NAME)])
        };
        let tables = &mut self.tables;
        let answer = constants::constant(
            &mut self.store,
            &mut tables.names,
            &mut tables.constants,
            &mut tables.order,
            &mut tables.thresholds,
            key,
        );
        self.writer.answered(answer);
        Ok(())
    }

    // The calls 10 to 15.
    fn expression(&mut self, call: u64) -> Result<(), Malformed> {
        let value = parts::expression(&mut self.reader, call)?;
        let answer = expressions::expression(&mut self.store, &mut self.tables.nodes, value);
        self.writer.answered(answer);
        Ok(())
    }

    // The calls 20 and 21.
    fn seed(&mut self, call: u64) -> Result<(), Malformed> {
        let argument = self.reader.wide()?;
        let tables = &mut self.tables;
        let answer = if call == 20 {
            let value = self.reader.wide()?;
            seeds::seed_value(
                &mut self.store,
                &tables.constants,
                &mut tables.seeds,
                &mut tables.records,
                argument,
                value,
            )
        } else {
            let low = self.reader.signed()?;
            let high = self.reader.signed()?;
            seeds::seed_interval(
                &mut self.store,
                &mut tables.seeds,
                &mut tables.records,
                &mut tables.thresholds,
                argument,
                low,
                high,
            )
        };
        self.writer.done(answer);
        Ok(())
    }

    fn rule(&mut self) -> Result<(), Malformed> {
        let rule = parts::rule(&mut self.reader)?;
        let tables = &mut self.tables;
        let answer = producers::rule(
            &mut self.store,
            &tables.nodes,
            &mut tables.rules,
            &mut tables.records,
            &rule,
        );
        self.writer.answered(answer);
        Ok(())
    }

    // The run, with the lines of its report or its refusal.
    pub fn run(&mut self) {
        let tables = &mut self.tables;
        let answer = engine::run(
            &mut self.store,
            &tables.nodes,
            &tables.constants,
            &tables.rules,
            &tables.seeds,
            &mut tables.thresholds,
            &mut tables.arguments,
            &mut tables.slots,
            &mut tables.current,
            &mut tables.growth,
            &mut tables.scratch,
        );
        match answer {
            Ok(()) => self.report(),
            Err(refusal) => self.writer.refused(refusal),
        }
    }

    // The lines of a run that has ended.
    fn report(&mut self) {
        let tables = &self.tables;
        let counted = report::line_count(
            &self.store,
            &tables.arguments,
            &tables.rules,
            &tables.slots,
        );
        match counted {
            Ok(count) => self.report_lines(count),
            Err(refusal) => self.writer.refused(refusal),
        }
    }

    fn report_lines(&mut self, count: u64) {
        let tables = &self.tables;
        let mut lines = Lines::new(&self.store, &tables.arguments, &tables.rules, &tables.slots);
        let mut line = [0; sizes::LINE];
        for _ in 0..count {
            let written = lines.next(&mut line);
            self.writer.line(written, &line);
        }
    }

    // The calls 40 to 43.
    fn reading(&mut self, call: u64) -> Result<(), Malformed> {
        let id = self.reader.wide()?;
        match call {
            40 => self.argument_line(id),
            41 => self.contexts_line(id),
            42 => self.slot_lines(id)?,
            _ => self.key_line(id),
        }
        Ok(())
    }

    fn argument_line(&mut self, argument: u64) {
        let mut line = [0; sizes::LINE];
        let written = report::argument_line(
            &self.store,
            &self.tables.arguments,
            &mut line,
            argument,
        );
        self.writer.line(written, &line);
    }

    fn slot_line(&mut self, rule: u64, slot: u64, after: bool) {
        let mut line = [0; sizes::LINE];
        let tables = &self.tables;
        let written = report::slot_line(
            &self.store,
            &tables.rules,
            &tables.slots,
            &mut line,
            rule,
            slot,
            after,
        );
        self.writer.line(written, &line);
    }

    // Both lines of a slot, or one refusal.
    fn slot_lines(&mut self, rule: u64) -> Result<(), Malformed> {
        let slot = self.reader.wide()?;
        let tables = &self.tables;
        match numeric::slot(&self.store, &tables.rules, &tables.slots, rule, slot, false) {
            Ok(_) => {
                self.slot_line(rule, slot, false);
                self.slot_line(rule, slot, true);
            }
            Err(refusal) => self.writer.refused(refusal),
        }
        Ok(())
    }

    fn contexts_line(&mut self, argument: u64) {
        self.reader.teller.flush();
        match numeric::context_count(&self.store, &self.tables.records, argument) {
            Ok(count) => self.context_words(argument, count),
            Err(refusal) => self.writer.refused(refusal),
        }
    }

    // The contexts of an argument, which are so many.
    fn context_words(&mut self, argument: u64, count: u64) {
        self.writer.put(b"p");
        self.writer.number(argument);
        for k in 0..count {
            let context = numeric::context(&self.store, &self.tables.records, argument, k);
            self.writer.number(context.unwrap_or(0));
        }
        self.writer.put(b"\n");
    }

    fn key_line(&mut self, constant: u64) {
        match numeric::key(&self.store, &self.tables.constants, constant) {
            Ok(key) => {
                self.writer.put(b"k");
                self.writer.number(constant);
                self.key_words(constant, key);
            }
            Err(refusal) => self.writer.refused(refusal),
        }
    }

    fn key_words(&mut self, constant: u64, key: Constant) {
        match key {
            Constant::Number(value) => {
                self.writer.put(b" number ");
                self.writer.integer(value);
                self.writer.put(b"\n");
            }
            Constant::Name => self.name_words(constant),
            Constant::Large => self.writer.put(b" large\n"),
        }
    }

    fn name_words(&mut self, constant: u64) {
        let tables = &self.tables;
        let name = numeric::name(&self.store, &tables.names, &tables.constants, constant);
        let name = name.unwrap_or(&[]);
        self.writer.put(b" name");
        self.writer.number(name.len() as u64);
        for byte in name {
            self.writer.number(u64::from(*byte));
        }
        self.writer.put(b"\n");
    }

    // The calls 50 and 51.
    fn state_line(&mut self, call: u64) {
        if call == 50 {
            self.counts_line();
        } else {
            self.stop_line();
        }
    }

    // The line of call 50, all counts.
    fn counts_line(&mut self) {
        let counts = self.store.budget.statistics;
        self.writer.put(b"n");
        for count in [
            counts.work,
            counts.predicates,
            counts.positions,
            counts.links,
            counts.entries,
            counts.rounds,
            counts.bytes,
            counts.widened,
        ] {
            self.writer.number(count);
        }
        self.writer.put(b"\n");
    }

    // The context in force where a run stopped.
    fn stop_line(&mut self) {
        match self.store.phase {
            Phase::Stopped(_, Some(context)) => {
                self.writer.put(b"c");
                self.writer.number(u64::from(context));
                self.writer.put(b"\n");
            }
            _ => self.writer.put(b"c -\n"),
        }
    }
}
