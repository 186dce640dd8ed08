//! Standard input as the text of a job: decimal integers, parted by spaces and line feeds. The buffer is filled anew once it is used up,
//! so that a text of any length can be read.
use crate::telling::Teller;
use std::io::{Read, Stdin};
use words::Word;

// The text is no job.
#[derive(Clone, Copy, Debug, PartialEq, Eq)]
pub struct Malformed {}

// Where a word stands in the text, all counted from 1: its line, its number among the words, and the number of the call that it is part of.
#[derive(Clone, Copy, Debug, PartialEq, Eq)]
pub struct Place {
    pub line: u64,
    pub word: u64,
    pub call: u64,
}

// Standard input, and what of it has been read and not been looked at yet: the bytes from `at` up to `end`. `place` is that of the word read
// last, `start` that of the word that its call begins with. What `teller` has is written out before the program waits for more of the text.
#[derive(Drop)]
pub struct Reader {
    from: Stdin,
    pub teller: Teller,
    bytes: [u8; 65536],
    at: usize,
    end: usize,
    over: bool,
    pub place: Place,
    pub start: Place,
}

impl Reader {
    pub fn new(from: Stdin, teller: Teller) -> Reader {
        let place = Place {
            line: 1,
            word: 0,
            call: 0,
        };
        Reader {
            from,
            teller,
            bytes: [0; 65536],
            at: 0,
            end: 0,
            over: false,
            place,
            start: place,
        }
    }

    // More of the text, where all that the buffer has is looked at. A read that fails ends the text.
    fn fill(&mut self) {
        if self.at < self.end || self.over {
            return;
        }
        self.teller.flush();
        self.end = self.from.read(&mut self.bytes).unwrap_or(0);
        self.at = 0;
        self.over = self.end == 0;
    }

    // The next byte, or none at the end of the text.
    fn peek(&mut self) -> Option<u8> {
        self.fill();
        if self.end <= self.at {
            return None;
        }
        self.bytes.get(self.at).copied()
    }

    fn pass(&mut self) {
        if self.at < self.end {
            self.at += 1;
        }
    }

    // The first byte of the next word, or none at the end of the text.
    fn next_word(&mut self) -> Option<u8> {
        for _ in 0..u64::MAX {
            match self.peek() {
                Some(b' ') => self.pass(),
                Some(b'\n') => {
                    self.place.line = self.place.line.saturating_add(1);
                    self.pass();
                }
                first => return first,
            }
        }
        None
    }

    // The next word, part by part: it may go on behind the end of the buffer.
    fn word(&mut self) -> Result<Word, Malformed> {
        self.next_word();
        self.place.word = self.place.word.saturating_add(1);
        let mut word = Word::new();
        for _ in 0..u64::MAX {
            self.fill();
            let rest = self.bytes.get(self.at..self.end).unwrap_or(&[]);
            let part = words::first_word(rest);
            let len = part.len();
            word = word.read(part).ok_or(Malformed {})?;
            self.at = self.at.saturating_add(len);
            if self.at < self.end || self.over {
                return Ok(word);
            }
        }
        Err(Malformed {})
    }

    // A number from 0 to `most`.
    pub fn number(&mut self, most: u64) -> Result<u64, Malformed> {
        self.word()?.natural(most).ok_or(Malformed {})
    }

    // An id, a position, a slot, an arity or a limit.
    pub fn wide(&mut self) -> Result<u64, Malformed> {
        self.number(u64::MAX)
    }

    // A number of 32 signed bits.
    pub fn signed(&mut self) -> Result<i32, Malformed> {
        self.word()?.signed().ok_or(Malformed {})
    }

    // The number of the next call, or none at the end of the text.
    pub fn call(&mut self) -> Result<Option<u64>, Malformed> {
        if self.next_word().is_none() {
            return Ok(None);
        }
        self.place.call = self.place.call.saturating_add(1);
        self.start = self.place;
        self.start.word = self.place.word.saturating_add(1);
        Ok(Some(self.number(51)?))
    }
}
