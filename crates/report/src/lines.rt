//! The lines of a report, one after the other.

ghost use Rattle.std.specs.Prelude.{◌≡◌};
ghost use Rattle.report.specs.Line.{on_buffer, written};
ghost use Rattle.report.specs.Report.{report_of, nth_line};
ghost use Rattle.report.specs.Places.{Begins, after_line};

use crate::{Start, line_from};
use limits::Refusal;
use store::Store;

// Before the k-th line of a report. A rule's line is sought from `start` on, so that whoever takes all lines does not walk over all rules for
// each of them, as `report_line` does.
#[derive(Clone, Copy)]
pub struct Lines<'a> {
    store: &'a Store,
    arguments: &'a [u32],
    rules: &'a [u32],
    slots: &'a [u32],
    k: u64,
    start: Start,
    ghost begins: { Begins store.now rules.now k start },
}

impl<'a> Lines<'a> {
    // Before the first line.
    pub fn new(
        store: &'a Store,
        arguments: &'a [u32],
        rules: &'a [u32],
        slots: &'a [u32],
    ) -> Lines<'a>
        ensures whole { report_of result.store.now result.arguments.now result.rules.now result.slots.now ≡ report_of store.now arguments.now rules.now slots.now }
        ensures first { result.k ≡ 0 }
    {
        Lines {
            store,
            arguments,
            rules,
            slots,
            k: 0,
            start: Start { rule: 0, before: 0 },
        }
    }

    // The next line of the report into the buffer, as `report_line` has it: its length, or its refusals. A refused one stays the next one.
    // Charges nothing.
    pub fn next(&mut self, line: &mut [u8]) -> Result<usize, Refusal>
        ensures line { written result line.new ≡ on_buffer line.old (nth_line (report_of self.old.store.now self.old.arguments.now self.old.rules.now self.old.slots.now) self.old.k) }
        ensures whole { report_of self.new.store.now self.new.arguments.now self.new.rules.now self.new.slots.now ≡ report_of self.old.store.now self.old.arguments.now self.old.rules.now self.old.slots.now }
        ensures on { self.new.k ≡ after_line result self.old.k }
    {
        let mut start = self.start;
        let len = line_from(
            self.store,
            self.arguments,
            self.rules,
            self.slots,
            line,
            self.k,
            &mut start,
        )?;
        self.k += 1;
        self.start = start;
        Ok(len)
    }
}
