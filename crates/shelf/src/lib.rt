//! A shelf: records handed over by its owner, those that stand kept at the front in the order of their keys.
#![tactic(auto)]

pub mod calls;
mod moves;

ghost use Rattle.std.specs.Prelude.{◌≡◌, ◌≤◌, Bool, true, false, length, take};
ghost use Rattle.shelf.specs.Order.{ascends};

/// A kind of record that names its key. The keys of a kind have a total order.
pub trait Record: Copy {
    type Key: Copy;

    // the key of a record
    ghost key: { Self → Self.Key };

    // whether a key comes before another
    ghost before: { Self.Key → Self.Key → Bool };

    /// The key of the record.
    fn get_key(&self) -> Self::Key
        ensures { result ≡ key self.now };

    /// Whether the first key comes before the second.
    fn precedes(a: Self::Key, b: Self::Key) -> bool
        ensures { result ≡ before a b };

    ghost irreflexive: { (x : Self.Key) → before x x ≡ false };

    ghost transitive: { (x y z : Self.Key) → before x y ≡ true → before y z ≡ true → before x z ≡ true };

    ghost total: { (x y : Self.Key) → before x y ≡ false → before y x ≡ false → x ≡ y };
}

/// Why a shelf refuses a record.
#[derive(Clone, Copy, PartialEq, Eq, Debug)]
pub enum ShelfFault {
    /// A record with its key stands already.
    Taken,
    /// Every record handed over is in use.
    NoRoom,
    /// No record with its key stands at the place.
    Elsewhere,
}

/// Records handed over, of which the first `len` stand, in the order of their keys.
// A slice with a count and no `Vec`: the memory is handed over, and no heap is used while entries run.
#[derive(Drop)]
pub struct Shelf<'a, R: Record> {
    records: &'a mut [R],
    len: usize,
    ghost fits: { len ≤ length records.now },
    ghost sorted: { ascends R.Record.key R.Record.before (take len records.now) ≡ true },
}
