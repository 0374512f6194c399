// Two boards driven by the same orders, and compared.
use board::standing::Levels;
use board::{Board, BoardFault};
use entry::Side;

/// How many prices a grid has.
pub const PRICES: u32 = 256;

// A pseudorandom number from 0 to 2^31 - 1, from the one before it.
fn next_number(number: u32) -> u32 {
    number.wrapping_mul(1_103_515_245).wrapping_add(12_345) & 0x7fff_ffff
}

/// Whether a side of two boards has the same levels, best first, at most `most` of them.
pub(crate) fn same_levels<A: Board, B: Board>(a: &A, b: &B, side: Side, most: usize) -> bool {
    Levels::of(a, side).nth(most).is_none()
        && Levels::of(a, side).eq(Levels::of(b, side))
        && Levels::of(a, side).all(|level| {
            a.at(side, level.price) == Some(level) && b.at(side, level.price) == Some(level)
        })
}

/// Sends so many orders, of which about two in three come and one in three leaves, to two boards.
/// Whether each order was answered alike.
pub(crate) fn same_answers<A: Board, B: Board>(
    a: &mut A,
    b: &mut B,
    start: u32,
    orders: u32,
) -> bool {
    let mut number = 7;
    for time in 0..orders {
        number = next_number(number);
        let side = if number / 65_536 % 2 == 0 {
            Side::Buy
        } else {
            Side::Sell
        };
        let price = start.saturating_add(number / 256 % PRICES);
        let (first, second) = if number / 131_072 % 3 == 0 {
            (a.take(side, price), b.take(side, price))
        } else {
            (a.add(side, price, time), b.add(side, price, time))
        };
        if first != second {
            return false;
        }
    }
    true
}

/// Adds a level at each of so many prices. Whether each was taken.
pub(crate) fn fill<B: Board>(board: &mut B, side: Side, start: u32, levels: u32) -> bool {
    (0..levels).all(|i| board.add(side, start.saturating_add(i), i) == Ok(()))
}

/// Adds so many orders at one price. Whether each was taken.
pub(crate) fn pile<B: Board>(board: &mut B, side: Side, price: u32, orders: u32) -> bool {
    (0..orders).all(|time| board.add(side, price, time) == Ok(()))
}

/// Whether one more order at a price is refused like this.
pub(crate) fn refuses<B: Board>(board: &mut B, side: Side, price: u32, fault: BoardFault) -> bool {
    board.add(side, price, 0) == Err(fault)
}
