//! Answers the jobs on standard input, line by line. All tables are arrays of `main`, lent down to the calls.
#![tactic(auto)]

mod buffer;
mod parts;
mod reading;
mod serving;
mod tables;
mod telling;
mod writing;

use limits::Limits;
use reading::{Malformed, Reader};
use serving::Session;
use store::Store;
use tables::Tables;
use telling::Teller;
use writing::Writer;

// What stands before the first call: no store, since no store is that wide.
fn nothing() -> Store {
    let (store, _) = store::fresh(Limits {
        work: 0,
        predicates: 0,
        positions: 0,
        links: 0,
        width: 17,
        entries: 0,
        rounds: 0,
        bytes: 0,
        symbol: 0,
    });
    store
}

// Answers calls until the text ends or is found to be no job. The run is called here and not by `step`: a frame as large as its tables is
// then entered once and not for every line.
fn serve(session: &mut Session) -> Result<(), Malformed> {
    session.begin()?;
    for _ in 0..u64::MAX {
        session.tell();
        match session.reader.call()? {
            None => return Ok(()),
            Some(30) => {
                session.reader.teller.flush();
                session.run();
            }
            Some(call) => session.step(call)?,
        }
    }
    Ok(())
}

fn main(rt: HostRuntime) {
    let mut session = Session {
        reader: Reader::new(rt.stdin(), Teller::new(rt.stderr())),
        writer: Writer::new(rt.stdout()),
        store: nothing(),
        tables: Tables::new(),
    };
    if serve(&mut session).is_err() {
        session.writer.put(b"malformed\n");
        let place = session.reader.place;
        session.reader.teller.malformed(place);
    }
    session.reader.teller.flush();
    session.writer.flush();
}
