// Writes to the records handed over: one more among the first, and one less.
// They stand apart from the shelf's calls, since their proofs speak of slices alone.
ghost use Rattle.std.specs.Prelude.{◌≡◌, ◌+◌, ◌-◌, ◌<◌, ◌≤◌, ◌++◌, length, take, drop};
ghost use Rattle.std.specs.List.{insert, remove};

// Makes room at a place among the first `len` records, and puts the item there.
pub fn open_gap<X: Copy>(records: &mut [X], len: usize, at: usize, item: X)
    requires inside { at ≤ len }
    requires room { len < length records.old }
    ensures { records.new ≡ insert (take len records.old) at item ++ drop (len + 1) records.old }
{
    records.copy_within(at..len, at + 1);
    records[at] = item;
}

// Moves the records past a place among the first `len` one place to the front; the last of these stays where it was too.
pub fn close_gap<X: Copy>(records: &mut [X], len: usize, at: usize)
    requires inside { at < len }
    requires room { len ≤ length records.old }
    ensures { records.new ≡ remove (take len records.old) at ++ drop (len - 1) records.old }
{
    records.copy_within(at + 1..len, at);
}
