//! What a day is told, one entry at a time, in raw figures: any figure that fits its type may come, and is judged later.
#![tactic(auto)]

pub mod codes;
pub mod kinds;
pub mod refusals;
pub mod sides;
pub mod windows;

/// The side of an order. A higher price is better for a buy, a lower one for a sell.
#[derive(Clone, Copy, PartialEq, Eq, Debug)]
pub enum Side {
    Buy,
    Sell,
}

/// The risk parameters: settlement price, fluctuation limit, and the two recalculation limits of the risk radius.
#[derive(Clone, Copy, PartialEq, Eq, Debug)]
pub struct Params {
    pub sp: u32,
    pub l: u32,
    pub ur: u32,
    pub lr: u32,
}

// Modes and sessions are numbers here, since any may come and the engine refuses those that are none.
/// One entry. Times are milliseconds since midnight of the trading day's first calendar day, prices are price units.
#[derive(Clone, Copy, PartialEq, Eq, Debug)]
pub enum Entry {
    /// Time goes on, and nothing else happens.
    Clock {
        time: u32,
    },
    /// An order is announced. Mode 0 is main trading, 2 negotiated deals.
    Post {
        time: u32,
        side: Side,
        mode: u8,
        price: u32,
    },
    /// One order of main trading leaves.
    Leave {
        time: u32,
        side: Side,
        price: u32,
    },
    /// A trade. Mode 0 is main trading, 1 the closing auction, 2 negotiated deals.
    Trade {
        time: u32,
        mode: u8,
        price: u32,
        quantity: u32,
    },
    /// New risk parameters.
    Parameters {
        time: u32,
        params: Params,
    },
    /// A reference price for a session: 1 morning, 2 main, 3 evening, 4 weekend morning.
    Reference {
        time: u32,
        session: u8,
        price: u32,
    },
    /// The exchange sets the quotation.
    Ruling {
        time: u32,
        price: u32,
    },
}
