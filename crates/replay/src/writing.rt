//! The lines that answer a job, on standard output by way of a buffer.
use crate::buffer::Buffer;
use limits::Refusal;
use std::io::Stdout;

// Standard output, and the last refusal that was written there, until it is taken.
#[derive(Drop)]
pub struct Writer {
    out: Buffer<Stdout, 65536>,
    refusal: Option<Refusal>,
}

impl Writer {
    pub fn new(to: Stdout) -> Writer {
        Writer {
            out: Buffer::new(to),
            refusal: None,
        }
    }

    pub fn flush(&mut self) {
        self.out.flush();
    }

    pub fn put(&mut self, word: &[u8]) {
        self.out.put(word);
    }

    // Whether the next answer may have the buffer written out. Those of a run and of its contexts can be longer.
    pub fn is_nearly_full(&self) -> bool {
        !self.out.has_room(1024)
    }

    // A space and a number.
    pub fn number(&mut self, n: u64) {
        self.out.number(n);
    }

    pub fn integer(&mut self, z: i32) {
        let mut word = [0; 32];
        let end = text::put_integer(&mut word, 0, z);
        self.put(&word[..end]);
    }

    // The refusal among what was written since this was last asked.
    pub fn take_refusal(&mut self) -> Option<Refusal> {
        let refusal = self.refusal;
        self.refusal = None;
        refusal
    }

    pub fn refused(&mut self, refusal: Refusal) {
        self.refusal = Some(refusal);
        let mut line = [0; sizes::LINE];
        if let Ok(len) = report::refusal_line(&mut line, refusal) {
            self.put(&line[..len.min(sizes::LINE)]);
        }
    }

    // A line of the report, or why there is none.
    pub fn line(&mut self, written: Result<usize, Refusal>, line: &[u8]) {
        match written {
            Ok(len) => self.put(&line[..len.min(line.len())]),
            Err(refusal) => self.refused(refusal),
        }
    }

    // The answer to a call without an id.
    pub fn done(&mut self, answer: Result<(), Refusal>) {
        match answer {
            Ok(()) => self.put(b"ok\n"),
            Err(refusal) => self.refused(refusal),
        }
    }

    // The answer to a call with an id.
    pub fn answered(&mut self, answer: Result<usize, Refusal>) {
        match answer {
            Ok(id) => {
                self.put(b"ok");
                self.number(id as u64);
                self.put(b"\n");
            }
            Err(refusal) => self.refused(refusal),
        }
    }
}
