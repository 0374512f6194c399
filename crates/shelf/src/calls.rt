// The calls of a shelf.
// That a call keeps the number of records and the loan stands as two clauses, since the proofs of the crates that use a shelf cite
// each by its name.
ghost use Rattle.std.specs.Prelude.{◌≡◌, ◌<◌, [], length};
ghost use Rattle.std.specs.List.{remove, slice_get};
ghost use Rattle.shelf.specs.Order.{first_after, place, sought};
ghost use Rattle.shelf.specs.Standing.{live, held, over};
ghost use Rattle.shelf.specs.Calls.{insert_answer, insert_live, replace_answer, replace_live};

use crate::moves::{close_gap, open_gap};
use crate::{Record, Shelf, ShelfFault};

impl<'a, R: Record> Shelf<'a, R> {
    /// An empty shelf over the records handed over.
    pub fn new(records: &'a mut [R]) -> Self
        ensures live { live result ≡ [] }
        ensures lent { result.records ≡ records.entry }
    {
        Shelf { records, len: 0 }
    }

    /// Ends the shelf and hands the records back.
    pub fn into_records(self) -> &'a mut [R]
        ensures { result ≡ self.entry.records }
    {
        let Shelf { records, len: _ } = self;
        records
    }

    // The records that stand.
    fn standing(&self) -> &[R]
        ensures { result.now ≡ live self.now }
    {
        let records = &*self.records;
        &records[..self.len]
    }

    /// How many records stand.
    pub fn count(&self) -> usize
        ensures { result ≡ length (live self.now) }
    {
        self.standing().len()
    }

    /// The record at a place, counted from 0, or none.
    pub fn get(&self, at: usize) -> Option<R>
        ensures { result ≡ slice_get (live self.now) at }
    {
        self.standing().get(at).copied()
    }

    /// The first record, or none.
    pub fn first(&self) -> Option<R>
        ensures { result ≡ slice_get (live self.now) 0 }
    {
        self.get(0)
    }

    // How many records have keys before the key.
    fn place(&self, key: R::Key) -> usize
        ensures { result ≡ place R.Record.key R.Record.before key (live self.now) }
    {
        self.standing()
            .partition_point(|record| R::precedes(record.get_key(), key))
    }

    /// The place where the key stands, or else the place where it would.
    pub fn find(&self, key: R::Key) -> Result<usize, usize>
        ensures { result ≡ sought R.Record.key R.Record.before key (live self.now) }
    {
        let at = self.place(key);
        match self.get(at) {
            Some(record) if !R::precedes(key, record.get_key()) => Ok(at),
            _ => Err(at),
        }
    }

    /// The first record whose key comes after the key, or none.
    pub fn after(&self, key: R::Key) -> Option<R>
        ensures { result ≡ first_after R.Record.key R.Record.before key (live self.now) }
    {
        match self.find(key) {
            Ok(at) => self.get(at + 1),
            Err(at) => self.get(at),
        }
    }

    /// Puts a record at its place. Refuses a key that stands, and else a record for which there is no room.
    pub fn insert(&mut self, item: R) -> Result<(), ShelfFault>
        ensures answer { result ≡ insert_answer R.Record.key R.Record.before item (live self.old) (length (held self.old)) }
        ensures live { live self.new ≡ insert_live R.Record.key R.Record.before item (live self.old) (length (held self.old)) }
        ensures records { held self.new ≡ over (live self.new) (held self.old) }
        ensures most { length (held self.new) ≡ length (held self.old) }
        ensures lent { self.new.records.ghost_name ≡ self.old.records.ghost_name }
    {
        let Err(at) = self.find(item.get_key()) else {
            return Err(ShelfFault::Taken);
        };
        let len = self.len;
        if len == self.records.len() {
            return Err(ShelfFault::NoRoom);
        }
        // A borrow of its own: the order has to hold again only when the count is written too.
        let records = &mut *self.records;
        open_gap(records, len, at, item);
        self.len = len + 1;
        Ok(())
    }

    /// Puts a record in the place of one with the same key. Refuses where none stands at that place.
    pub fn replace(&mut self, at: usize, item: R) -> Result<(), ShelfFault>
        ensures answer { result ≡ replace_answer R.Record.key R.Record.before at item (live self.old) }
        ensures live { live self.new ≡ replace_live R.Record.key R.Record.before at item (live self.old) }
        ensures records { held self.new ≡ over (live self.new) (held self.old) }
        ensures most { length (held self.new) ≡ length (held self.old) }
        ensures lent { self.new.records.ghost_name ≡ self.old.records.ghost_name }
    {
        let old = self.get(at).ok_or(ShelfFault::Elsewhere)?;
        let (key, standing) = (item.get_key(), old.get_key());
        if R::precedes(standing, key) || R::precedes(key, standing) {
            return Err(ShelfFault::Elsewhere);
        }
        self.records[at] = item;
        Ok(())
    }

    /// Takes away the record at a place and hands it back, or none where none stands.
    pub fn remove(&mut self, at: usize) -> Option<R>
        ensures answer { result ≡ slice_get (live self.old) at }
        ensures live { live self.new ≡ remove (live self.old) at }
        ensures records { held self.new ≡ over (live self.new) (held self.old) }
        ensures most { length (held self.new) ≡ length (held self.old) }
        ensures lent { self.new.records.ghost_name ≡ self.old.records.ghost_name }
    {
        let old = self.get(at)?;
        let len = self.len;
        self.len = len - 1;
        close_gap(self.records, len, at);
        Some(old)
    }
}
