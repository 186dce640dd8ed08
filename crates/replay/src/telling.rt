//! What a person is told on standard error: where in the text a call was refused or the text is no job, and why.
use crate::buffer::Buffer;
use crate::reading::Place;
use limits::{Refusal, Resource};
use std::io::Stderr;

// Standard error, by way of a buffer: a job may have many refusals, and a write for each word of each would take longer than the calls.
// What is written there is for people: the lines that answer a job are all on standard output.
#[derive(Drop)]
pub struct Teller {
    out: Buffer<Stderr, 1024>,
}

// Why a call was refused.
fn cause(refusal: Refusal) -> &'static [u8] {
    match refusal {
        Refusal::Closed => b"the store does not admit this call now",
        Refusal::Shape => b"the port does not have this shape",
        Refusal::Full => b"a table has no room for it",
        Refusal::Limit(stop) => passed(stop.resource),
        Refusal::Missing => b"an id or a position does not exist",
        Refusal::Descending => b"low exceeds high",
        Refusal::MissingSlot => b"the rule does not have a slot",
    }
}

// Which limit a charge would pass.
fn passed(resource: Resource) -> &'static [u8] {
    match resource {
        Resource::Work => b"work would pass its limit",
        Resource::Predicates => b"predicates would pass their limit",
        Resource::Positions => b"positions would pass their limit",
        Resource::Links => b"links would pass their limit",
        Resource::ValueEntries => b"live list entries would pass their limit",
        Resource::Rounds => b"rounds would pass their limit",
        Resource::InspectedBytes => b"inspected bytes would pass their limit",
    }
}

impl Teller {
    pub fn new(to: Stderr) -> Teller {
        Teller {
            out: Buffer::new(to),
        }
    }

    // Before the program waits for more of the text, before a run, before answers are written out, and at the end.
    pub fn flush(&mut self) {
        self.out.flush();
    }

    // How each line begins. None is cut in two by what standard output has in between.
    fn place(&mut self, place: Place) {
        self.out.reserve(256);
        self.out.put(b"line");
        self.out.number(place.line);
        self.out.put(b", call");
        self.out.number(place.call);
        self.out.put(b", word");
        self.out.number(place.word);
        self.out.put(b": ");
    }

    // A call was refused: where it begins, the refusal's number and its cause.
    pub fn refused(&mut self, place: Place, refusal: Refusal) {
        self.place(place);
        self.out.put(b"refused");
        self.out.number(u64::from(refusal));
        self.out.put(b", ");
        self.out.put(cause(refusal));
        self.out.put(b"\n");
    }

    // The text is no job: the word that this was found at. Behind the last word of a text that breaks off stands none.
    pub fn malformed(&mut self, place: Place) {
        self.place(place);
        self.out.put(b"malformed, this word cannot stand here, or the text ends before it\n");
    }
}
