//! What a store promises.
ghost use Rattle.std.specs.Prelude.{◌≡◌, ◌<◌, ◌^◌, true, is_some, IfOk, OnOk, OnErr};
ghost use Rattle.version_store.specs.Read.{ReadsAt, two_bounds, may_read};
ghost use Rattle.version_store.specs.Store.{Applies, EndsSnapshot, Held, AddsSnapshot, fits_in, table_at};

use plain_data::OutOfMemory;
use server_data::{Need, RowList, Transaction};

/// The number of a snapshot. The number of one that was ended may be given again.
#[derive(Clone, Copy)]
pub struct SnapshotId {
    pub number: u64,
}

/// What a server holds at present, and what it held at each live snapshot. A refusal, which comes only for
/// want of memory, changes nothing.
pub trait Store {
    /// The database at present, and those at the live snapshots.
    ghost held: { Self → Held };

    /// Whether the changes of the transaction fit the present database, each after those before it. Takes
    /// no memory.
    fn fits(&self, transaction: &Transaction) -> bool
        ensures { result ≡ fits_in (held self.now).present transaction.now };

    /// Commits the transaction. Its condition is that the transaction fits. The live snapshots stay as
    /// they are.
    fn apply(&mut self, transaction: &Transaction) -> Result<(), OutOfMemory>
        requires { fits_in (held self.old).present transaction.now ≡ true }

        ensures ok { OnOk result (Applies (held self.old) transaction.now (held self.new)) }
        ensures err { OnErr result (held self.new ≡ held self.old) };

    /// Takes a snapshot, which is live from then on and shows the present database. Its condition is that
    /// fewer than 2^63 are live. Its number is one that no live snapshot has.
    fn snapshot(&mut self) -> Result<SnapshotId, OutOfMemory>
        requires { (held self.old).live < 2 ^ 63 }

        ensures ok { IfOk result (λ id. AddsSnapshot (held self.old) id.number (held self.new)) }
        ensures err { OnErr result (held self.new ≡ held self.old) };

    /// The rows of a table at a snapshot whose key is greater than `above` and at most `upto`, in rising
    /// order of the key; where the table has no key all its rows, in the order in which they were put.
    /// Rows whose key isn't a number of 128 bits stand before the others, and are inside no bound that is
    /// given. Among these, and among rows of equal keys, the order is that in which they were put; of equal
    /// rows the first is the one that was removed. Its conditions are that the snapshot is live, that the
    /// table is there at it, and that both bounds are None where the table has no key.
    fn read(
        &self,
        id: SnapshotId,
        table: &Need,
        above: Option<i128>,
        upto: Option<i128>,
    ) -> Result<RowList, OutOfMemory>
        requires { may_read (table_at (held self.now) id.number table.now) (two_bounds above upto)
            ≡ true }

        ensures { IfOk result (λ read.
            ReadsAt ((held self.now).shown id.number) table.now (two_bounds above upto) read) };

    /// Ends a snapshot. Its condition is that the snapshot is live. The others stay as they are. Takes no
    /// memory.
    fn end(&mut self, id: SnapshotId)
        requires { is_some ((held self.old).shown id.number) ≡ true }

        ensures { EndsSnapshot (held self.old) id.number (held self.new) };
}
