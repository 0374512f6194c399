// The same orders to both boards; sides, levels and ranges at their limits.
use crate::driving::{fill, pile, refuses, same_answers, same_levels};
use crate::lending::lend_for_one;
use board::{Board, BoardFault, Level};
use entry::Side;
use entry::refusals::Refusal;
use grid::Grid;
use ladder::Ladder;
use ladder::records::{BuyLevel, SellLevel};
use std::test::Fail;

#[test]
fn first_tests(rt: HostRuntime) {
    assert!(rt; matches!(Grid::test(0), Err(Refusal::OutOfRange)));
    assert!(rt; matches!(Grid::test(1), Ok(())));
    assert!(rt; matches!(Grid::test(999_999_745), Ok(())));
    assert!(rt; matches!(Grid::test(999_999_746), Err(Refusal::OutOfRange)));
    assert!(rt; matches!(Ladder::test(15, 15), Err(Refusal::OutOfRange)));
    assert!(rt; matches!(Ladder::test(16, 16), Ok(())));
    assert!(rt; matches!(Ladder::test(16, 17), Err(Refusal::OutOfRange)));
    assert!(rt; matches!(Ladder::test(4_096, 4_096), Ok(())));
    assert!(rt; matches!(Ladder::test(4_097, 4_097), Err(Refusal::OutOfRange)));
}

#[test]
fn alike_under_many_orders(rt: HostRuntime) -> Result<(), Fail> {
    let mut buys = [BuyLevel::default(); 256];
    let mut sells = [SellLevel::default(); 256];
    Ladder::test(256, 256)?;
    let mut ladder = Ladder::new(&mut buys, &mut sells);
    Grid::test(1_000)?;
    let mut grid = Grid::new(1_000);
    assert!(rt; same_answers(&mut ladder, &mut grid, 1_000, 100_000));
    assert!(rt; same_levels(&ladder, &grid, Side::Buy, 256));
    assert!(rt; same_levels(&ladder, &grid, Side::Sell, 256));
    assert!(rt; !ladder.is_empty());
    assert!(rt; !grid.is_empty());
    Ok(())
}

#[test]
fn filled_to_the_last_level(rt: HostRuntime) -> Result<(), Fail> {
    let mut buys = [BuyLevel::default(); 256];
    let mut sells = [SellLevel::default(); 256];
    Ladder::test(256, 256)?;
    let mut ladder = Ladder::new(&mut buys, &mut sells);
    Grid::test(1_000)?;
    let mut grid = Grid::new(1_000);
    assert!(rt; fill(&mut ladder, Side::Buy, 1_000, 256));
    assert!(rt; fill(&mut grid, Side::Buy, 1_000, 256));
    assert!(rt; fill(&mut ladder, Side::Sell, 1_000, 256));
    assert!(rt; fill(&mut grid, Side::Sell, 1_000, 256));
    assert!(rt; same_levels(&ladder, &grid, Side::Buy, 256));
    assert!(rt; same_levels(&ladder, &grid, Side::Sell, 256));
    assert!(rt; refuses(&mut ladder, Side::Buy, 1_256, BoardFault::NoPlace));
    assert!(rt; refuses(&mut grid, Side::Buy, 1_256, BoardFault::NoPlace));
    assert!(rt; refuses(&mut ladder, Side::Sell, 999, BoardFault::NoPlace));
    assert!(rt; refuses(&mut grid, Side::Sell, 999, BoardFault::NoPlace));
    assert!(rt; pile(&mut ladder, Side::Buy, 1_255, 1));
    assert!(rt; pile(&mut grid, Side::Buy, 1_255, 1));
    assert!(rt; same_levels(&ladder, &grid, Side::Buy, 256));
    Ok(())
}

#[test]
fn filled_to_the_last_order(rt: HostRuntime) -> Result<(), Fail> {
    let mut buys = [BuyLevel::default(); 16];
    let mut sells = [SellLevel::default(); 16];
    Ladder::test(16, 16)?;
    let mut ladder = Ladder::new(&mut buys, &mut sells);
    Grid::test(1_000)?;
    let mut grid = Grid::new(1_000);
    assert!(rt; pile(&mut ladder, Side::Sell, 1_010, 65_535));
    assert!(rt; pile(&mut grid, Side::Sell, 1_010, 65_535));
    assert!(rt; refuses(&mut ladder, Side::Sell, 1_010, BoardFault::LevelFull));
    assert!(rt; refuses(&mut grid, Side::Sell, 1_010, BoardFault::LevelFull));
    assert!(rt; same_levels(&ladder, &grid, Side::Sell, 16));
    assert_eq!(rt;
        grid.best(Side::Sell),
        Some(Level {
            price: 1_010,
            orders: 65_535,
            since: 0,
        })
    );
    assert_eq!(rt; ladder.take(Side::Sell, 1_010), Ok(()));
    assert_eq!(rt; grid.take(Side::Sell, 1_010), Ok(()));
    assert!(rt; pile(&mut ladder, Side::Sell, 1_010, 1));
    assert!(rt; pile(&mut grid, Side::Sell, 1_010, 1));
    assert_eq!(rt;
        ladder.take(Side::Buy, 1_010),
        Err(BoardFault::NothingThere)
    );
    assert_eq!(rt; grid.take(Side::Buy, 1_010), Err(BoardFault::NothingThere));
    Ok(())
}

#[test]
fn outside_the_range(rt: HostRuntime) -> Result<(), Fail> {
    let mut buys = [BuyLevel::default(); 16];
    let mut sells = [SellLevel::default(); 16];
    Ladder::test(16, 16)?;
    let mut ladder = Ladder::new(&mut buys, &mut sells);
    Grid::test(1)?;
    let mut grid = Grid::new(1);
    assert!(rt; refuses(&mut ladder, Side::Buy, 0, BoardFault::NoPlace));
    assert!(rt; refuses(&mut grid, Side::Buy, 0, BoardFault::NoPlace));
    assert!(rt; refuses(&mut ladder, Side::Sell, 1_000_000_001, BoardFault::NoPlace));
    assert!(rt; refuses(&mut grid, Side::Sell, 257, BoardFault::NoPlace));
    assert!(rt; pile(&mut ladder, Side::Sell, 1_000_000_000, 1));
    assert!(rt; pile(&mut grid, Side::Sell, 256, 1));
    assert_eq!(rt;
        ladder.take(Side::Buy, u32::MAX),
        Err(BoardFault::NothingThere)
    );
    assert_eq!(rt;
        grid.take(Side::Buy, u32::MAX),
        Err(BoardFault::NothingThere)
    );
    Ok(())
}

#[test]
fn records_come_back(rt: HostRuntime) {
    let mut buys = [BuyLevel::default(); 16];
    let mut sells = [SellLevel::default(); 16];
    assert_eq!(rt;
        lend_for_one(&mut buys, &mut sells),
        Some(Level {
            price: 7,
            orders: 1,
            since: 3,
        })
    );
}
