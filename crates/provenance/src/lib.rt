//! Provenance (input.rs): the contexts under which an argument is seeded or produced, in a lent table, in the order recorded.
#![tactic(auto)]

ghost use Rattle.std.specs.Prelude.{◌≡◌, ◌+◌, ◌*◌, ◌≤◌, [], ◌∷◌};
ghost use Rattle.std.proofs.lemmas.List.Edits.{sets};
ghost use Rattle.sizes.specs.Sizes as size;
ghost use Rattle.limits.specs.Refusal.{replied};
ghost use Rattle.provenance.specs.Provenance.{records, provenance, recordable, Room};

use limits::{Refusal, Resource};
use store::Store;

// Whether the table has room for what one call records.
pub fn is_recordable(context: Option<u32>, standing: usize) -> bool
    ensures { result ≡ recordable context standing }
{
    context.is_none() || standing <= sizes::RECORDS_BEFORE_CALL
}

// The two cells of a record.
fn put_record(table: &mut [u32], number: usize, argument: u32, context: u32)
    requires { number ≤ size.records }
    ensures { table.new ≡ sets table.old (size.record_row * number) (argument ∷ context ∷ []) }
{
    let row = sizes::RECORD_ROW * number;
    cells::put_cell(table, row, argument);
    cells::put_cell(table, row + 1, context);
}

// An argument is produced under the context in force; the call has tested that there is room.
#[tactic(auto, unfolding(crate::specs::Provenance::provenance))]
pub fn provenance(store: &mut Store, table: &mut [u32], argument: u64) -> Result<(), Refusal>
    requires { (store.old.counts.positions ≤ size.positions) × Room 1 store.old.context store.old.counts.provenance }
    ensures { replied result (records store.new table.new) ≡ provenance argument (records store.old table.old) }
{
    if store.counts.positions as u64 <= argument {
        return Err(Refusal::Missing);
    }
    let Some(context) = store.context else {
        return Ok(());
    };
    store.pay(Resource::Links, 1)?;
    put_record(table, store.counts.provenance, argument as u32, context);
    store.counts.provenance += 1;
    Ok(())
}
