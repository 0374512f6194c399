// Numbers of any width up to 32 bits, written one behind the other, the most significant bit first.
ghost use Rattle.std.specs.Prelude.{◌≡◌, ℕ, ◌+◌, ◌*◌, ◌^◌, ◌<◌, ◌≤◌, true, length, drop};
ghost use Rattle.layout.specs.Bits.{total, fit, packed};
ghost use Rattle.feed.specs.Cursor.{Wrote, narrow, widths_in, values_in};

// Where the writer stands: whole bytes written, and the bits of the byte that is not whole yet.
#[derive(Clone, Copy)]
pub struct Cursor {
    pub at: usize,
    pub held: u32,
    pub rest: u64,
    ghost part: { (held < 8) × (rest < 2 ^ held) },
}

// Whether no value is wider than its field. A field is a pair of its width and its value, and no struct with names, so
// that a record's fields fit in one line of `write_entry`.
pub fn all_fit(fields: &[(u32, u32)]) -> bool
    requires fields { narrow (widths_in fields.now) ≡ true }
    ensures answer { result ≡ fit (widths_in fields.now) (values_in fields.now) }
{
    // A loop: with `all` it stayed unproved that each shift is below 64 bits, and that the answer is `fit`.
    for &(width, value) in fields {
        if value as u64 >> width != 0 {
            return false;
        }
    }
    true
}

impl Cursor {
    // Writes a number in so many bits.
    pub fn put(self, out: &mut [u8], width: u32, value: u32) -> Cursor
        requires field { (width ≤ 32) × (value < 2 ^ width) }
        requires room { 8 * self.at + self.held + width ≤ 8 * length out.old }
        ensures place { 8 * result.at + result.held ≡ 8 * self.at + self.held + width }
        ensures wrote { (n : ℕ) → Wrote out.old self.at self.held self.rest n → Wrote out.new result.at result.held result.rest (n * 2 ^ width + value) }
        ensures kept { drop result.at out.new ≡ drop result.at out.old }
    {
        let mut at = self.at;
        let mut held = self.held + width;
        let mut rest = self.rest << width | value as u64;
        // So many whole bytes as the bits held give: a count of bits, and no loop over a slice.
        while held >= 8 {
            held -= 8;
            out[at] = (rest >> held) as u8;
            rest &= (1 << held) - 1;
            at += 1;
        }
        Cursor { at, held, rest }
    }

    // Writes the values of fields, each in its width.
    pub fn put_all(self, out: &mut [u8], fields: &[(u32, u32)]) -> Cursor
        requires fields { (narrow (widths_in fields.now) ≡ true) × (fit (widths_in fields.now) (values_in fields.now) ≡ true) }
        requires room { 8 * self.at + self.held + total (widths_in fields.now) ≤ 8 * length out.old }
        ensures place { 8 * result.at + result.held ≡ 8 * self.at + self.held + total (widths_in fields.now) }
        ensures wrote { (n : ℕ) → Wrote out.old self.at self.held self.rest n → Wrote out.new result.at result.held result.rest (packed n (widths_in fields.now) (values_in fields.now)) }
        ensures kept { drop result.at out.new ≡ drop result.at out.old }
    {
        let mut cursor = self;
        for &(width, value) in fields {
            cursor = cursor.put(out, width, value);
        }
        cursor
    }
}
