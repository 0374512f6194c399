// What the lender of a ladder's records finds in them when the ladder is done.
ghost use Rattle.std.specs.Prelude.{◌≡◌, length};
ghost use Rattle.try_boards.specs.Lending.{lent_level};

use board::{Board, Level};
use entry::Side;
use ladder::Ladder;
use ladder::records::{BuyLevel, SellLevel};

/// Lends the records to a ladder for one buy, and reads the first record of the buys when they come back.
pub fn lend_for_one(buys: &mut [BuyLevel], sells: &mut [SellLevel]) -> Option<Level>
    ensures answer { result ≡ lent_level (length buys.old) (length sells.old) }
{
    Ladder::test(buys.len(), sells.len()).ok()?;
    let mut ladder = Ladder::new(buys, sells);
    let _ = ladder.add(Side::Buy, 7, 3);
    let (records, _) = ladder.into_records();
    Some(records.first()?.0)
}
