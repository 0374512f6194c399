// The ranges of an entry's figures.
ghost use Rattle.std.specs.Prelude.{◌≡◌};
ghost use Rattle.rules.specs.Checks.{is_price, is_quantity, are_params};

use entry::Params;

/// The latest time of a trading day.
pub const LAST_TIME: u32 = 863_999_999;

const GREATEST_PRICE: u32 = 1_000_000_000;

const GREATEST_QUANTITY: u32 = 16_777_215;

// A price is at least 1.
pub(crate) fn is_price(price: u32) -> bool
    ensures { result ≡ is_price price }
{
    (1..=GREATEST_PRICE).contains(&price)
}

// A quantity is at least 1.
pub(crate) fn is_quantity(quantity: u32) -> bool
    ensures { result ≡ is_quantity quantity }
{
    (1..=GREATEST_QUANTITY).contains(&quantity)
}

// Of the four parameters SP alone must be above 0, and LR must not be above UR.
pub(crate) fn are_params(params: Params) -> bool
    ensures { result ≡ are_params params }
{
    is_price(params.sp)
        && params.l <= GREATEST_PRICE
        && params.ur <= GREATEST_PRICE
        && params.lr <= params.ur
}
