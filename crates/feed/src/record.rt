// One record: an entry's bits, written and read.
ghost use Rattle.std.specs.Prelude.{◌≡◌, ℕ, ◌+◌, ◌*◌, ◌<◌, ◌≤◌, length, Ok, OnOk};
ghost use Rattle.entry.specs.declared.refusals.Place.{Place};
ghost use Rattle.feed.specs.Cursor.{widths_in, values_in};
ghost use Rattle.layout.specs.Bits.{AreBytes, fields};
ghost use Rattle.layout.specs.Layout.{code as code_of, widths as widths_of, side_of, entry_of, size as size_of};
ghost use Rattle.layout.specs.Reading.{first_record};
ghost use Rattle.layout.specs.Writing.{answer_with, output_with, answer, output};

use super::cursor::{Cursor, all_fit};
use super::words::bits;
use entry::kinds::Kind;
use entry::refusals::{Place, Refusal};
use entry::{Entry, Params, Side};
use layout::kinds;

// The bytes of the longest record, that of parameters.
pub(crate) const LONGEST_RECORD: usize = 20;

// The side of a bit. Only a record has sides as bits, so this conversion stands here and not beside the type.
fn side_of(bit: u32) -> Side
    ensures answer { result ≡ side_of bit }
{
    if bit == 0 { Side::Buy } else { Side::Sell }
}

// The entry in a whole record.
fn entry_of(kind: Kind, src: &[u8]) -> Entry
    requires whole { length src.now ≡ size_of kind }
    ensures answer { result ≡ entry_of kind (fields src.now 4 (widths_of kind)) }
{
    let time = bits(src, 4, 30);
    match kind {
        Kind::Clock => Entry::Clock { time },
        Kind::Post => Entry::Post {
            time,
            side: side_of(bits(src, 34, 1)),
            mode: bits(src, 35, 2) as u8,
            price: bits(src, 37, 30),
        },
        Kind::Leave => Entry::Leave {
            time,
            side: side_of(bits(src, 34, 1)),
            price: bits(src, 35, 30),
        },
        Kind::Trade => Entry::Trade {
            time,
            mode: bits(src, 34, 2) as u8,
            price: bits(src, 36, 30),
            quantity: bits(src, 66, 24),
        },
        Kind::Parameters => Entry::Parameters {
            time,
            params: Params {
                sp: bits(src, 34, 30),
                l: bits(src, 64, 30),
                ur: bits(src, 94, 30),
                lr: bits(src, 124, 30),
            },
        },
        Kind::Reference => Entry::Reference {
            time,
            session: bits(src, 34, 3) as u8,
            price: bits(src, 37, 30),
        },
        Kind::Ruling => Entry::Ruling {
            time,
            price: bits(src, 34, 30),
        },
    }
}

// The entry of the first record, which has this place in its feed. The clause `bytes` repeats what the type says, since
// the reader's proof needs it.
pub(crate) fn decode(src: &[u8], place: Place) -> Result<Entry, Refusal>
    requires some { 0 < length src.now }
    requires short { place.bit ≤ 524288 }
    ensures answer { result ≡ first_record src.now place }
    ensures bytes { AreBytes src.now }
{
    let kind = Kind::try_from(src[0] >> 4).map_err(|_| Refusal::UnknownKind(place))?;
    let size = kinds::size(kind);
    let record = src.get(..size).ok_or(Refusal::FeedEnds(place))?;
    let used = kinds::bits(kind);
    if bits(record, used, 8 * size - used) != 0 {
        return Err(Refusal::SpareBitSet(Place {
            bit: place.bit + used,
            ..place
        }));
    }
    Ok(entry_of(kind, record))
}

// Writes a record of this kind at the start of `out`, and answers its length. A field is its width and its value.
fn write(out: &mut [u8], kind: Kind, fields: &[(u32, u32)]) -> Result<usize, Refusal>
    requires layout { widths_in fields.now ≡ widths_of kind }
    ensures answer { result ≡ answer_with (widths_of kind) (values_in fields.now) out.old }
    ensures after { out.new ≡ output_with (code_of kind) (widths_of kind) (values_in fields.now) out.old }
{
    if !all_fit(fields) {
        return Err(Refusal::OutOfRange);
    }
    let size = kinds::size(kind);
    if out.len() < size {
        return Err(Refusal::OutputShort);
    }
    let start = Cursor {
        at: 0,
        held: 4,
        rest: u8::from(kind) as u64,
    };
    let end = start.put_all(out, fields);
    let _whole = end.put(out, (8 - end.held) % 8, 0);
    Ok(size)
}

/// Writes an entry's record at the start of `out`, and answers its length. The bytes behind it are kept, and what was
/// written is read as the same entry. A figure wider than its field is refused, then an output that is too short; a
/// refusal writes nothing.
pub fn encode(entry: Entry, out: &mut [u8]) -> Result<usize, Refusal>
    ensures answer { result ≡ answer entry out.old }
    ensures after { out.new ≡ output entry out.old }
    ensures back { OnOk result ((place : Place) → first_record out.new place ≡ Ok entry) }
{
    write_entry(entry, out)
}

// Writes an entry's record: its kind, and its fields in their order. It stands apart from `encode`, whose clause `back` follows from
// these two: stated here, it would be proved at each of the seven returns.
fn write_entry(entry: Entry, out: &mut [u8]) -> Result<usize, Refusal>
    ensures answer { result ≡ answer entry out.old }
    ensures after { out.new ≡ output entry out.old }
{
    match entry {
        Entry::Clock { time } => write(out, Kind::Clock, &[(30, time)]),
        Entry::Post {
            time,
            side,
            mode,
            price,
        } => write(
            out,
            Kind::Post,
            &[(30, time), (1, side as u32), (2, mode as u32), (30, price)],
        ),
        Entry::Leave { time, side, price } => write(
            out,
            Kind::Leave,
            &[(30, time), (1, side as u32), (30, price)],
        ),
        Entry::Trade {
            time,
            mode,
            price,
            quantity,
        } => write(
            out,
            Kind::Trade,
            &[(30, time), (2, mode as u32), (30, price), (24, quantity)],
        ),
        Entry::Parameters {
            time,
            params: Params { sp, l, ur, lr },
        } => write(
            out,
            Kind::Parameters,
            &[(30, time), (30, sp), (30, l), (30, ur), (30, lr)],
        ),
        Entry::Reference {
            time,
            session,
            price,
        } => write(
            out,
            Kind::Reference,
            &[(30, time), (3, session as u32), (30, price)],
        ),
        Entry::Ruling { time, price } => write(out, Kind::Ruling, &[(30, time), (30, price)]),
    }
}
