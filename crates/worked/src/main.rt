//! The worked examples that are runs: each list of entries on a ladder and on a grid, with the trail of both, and one record's bytes.
#![tactic(auto)]

use board::Board;
use engine::ClosedDay;
use entry::refusals::Refusal;
use entry::{Entry, Params, Side};
use feed::record::encode;
use grid::Grid;
use ladder::Ladder;
use ladder::records::{BuyLevel, SellLevel};
use plan::fixed::FixedPlan;
use rules::figures::{OpenFigures, TrailLine};
use std::io;

const EMPTY: TrailLine = TrailLine {
    answer: 99,
    quotation: 99,
};

/// The parameters of the examples.
const USUAL: Params = Params {
    sp: 1_000,
    l: 100,
    ur: 1_300,
    lr: 700,
};

/// Ten o'clock, when the main session starts.
const TEN: u32 = 36_000_000;

fn buy(time: u32, price: u32) -> Entry {
    Entry::Post {
        time,
        side: Side::Buy,
        mode: 0,
        price,
    }
}

fn leave(time: u32, price: u32) -> Entry {
    Entry::Leave {
        time,
        side: Side::Buy,
        price,
    }
}

// The three entries of the first run.
fn three() -> [Entry; 3] {
    [
        buy(TEN, 1_010),
        Entry::Clock { time: TEN + 5_000 },
        buy(TEN + 5_000, 1_071),
    ]
}

/// What a run on a first day came to: its answer, and what the day then held.
type Outcome = (Result<(), Refusal>, OpenFigures);

// Runs the entries on the first day of a security, opened at 0 on the board, with one calendar day of a quoted security.
fn first_day<B: Board>(
    board: &mut B,
    entries: &[Entry],
    trail: &mut [TrailLine],
) -> Result<Outcome, Refusal> {
    let plan = FixedPlan::new(1, 0)?;
    match ClosedDay::newly_listed().open(board, 0, USUAL) {
        Ok(mut day) => {
            let answer = day.run(board, &plan, entries, trail);
            let figures = day.figures();
            let _ = day.close().into_figures();
            Ok((answer, figures))
        }
        Err((closed, refusal)) => {
            let _ = closed.into_figures();
            Err(refusal)
        }
    }
}

// The two functions differ in how a board is made, and share what is done on it.
fn on_ladder(entries: &[Entry], trail: &mut [TrailLine]) -> Result<Outcome, Refusal> {
    let mut buys = [BuyLevel::default(); 16];
    let mut sells = [SellLevel::default(); 16];
    Ladder::test(buys.len(), sells.len())?;
    let mut ladder = Ladder::new(&mut buys, &mut sells);
    first_day(&mut ladder, entries, trail)
}

fn on_grid(entries: &[Entry], trail: &mut [TrailLine]) -> Result<Outcome, Refusal> {
    Grid::test(900)?;
    let mut grid = Grid::new(900);
    first_day(&mut grid, entries, trail)
}

// Runs the three entries with a trail of two lines, and prints the answer, what the trail holds, and the day's time and quotation.
fn short_trail(rt: &HostRuntime) -> io::Result<()> {
    let mut trail = [EMPTY; 2];
    match on_grid(&three(), &mut trail) {
        Ok((answer, day)) => println!(rt;
            "a trail of two lines: {}, line 2 {} {}, time {}, quotation {}",
            answer.map_or_else(Refusal::number, |()| 0),
            trail[1].answer,
            trail[1].quotation,
            day.time,
            day.quotation
        ),
        Err(refusal) => println!(rt; "no day: refused {}", refusal.number()),
    }
}

// Prints the trail of the entries on both boards, side by side, and one line past the list, which is kept.
fn compare(rt: &HostRuntime, name: &str, entries: &[Entry]) -> io::Result<()> {
    let mut ladder = [EMPTY; 8];
    let mut grid = [EMPTY; 8];
    for made in [on_ladder(entries, &mut ladder), on_grid(entries, &mut grid)] {
        if let Err(refusal) = made {
            println!(rt; "no day: refused {}", refusal.number())?;
        }
    }
    println!(rt; "{name}: ladder, grid")?;
    let lines = entries.len().saturating_add(1);
    for (a, b) in ladder.iter().zip(&grid).take(lines) {
        println!(rt;
            "  {} {}, {} {}",
            a.answer, a.quotation, b.answer, b.quotation
        )?;
    }
    Ok(())
}

// Prints the bytes of an entry's record, in hexadecimal.
fn print_record(rt: &HostRuntime, entry: Entry) -> io::Result<()> {
    let mut out = [0u8; 20];
    match encode(entry, &mut out) {
        Ok(size) => {
            for byte in out.iter().take(size) {
                print!(rt; "{byte:02X} ")?;
            }
            println!(rt; "")
        }
        Err(refusal) => println!(rt; "refused {}", refusal.number()),
    }
}

fn main(rt: HostRuntime) -> io::Result<()> {
    compare(&rt, "a buy ripens, and the next one is too high", &three())?;
    compare(
        &rt,
        "two buys of one millisecond: no credit",
        &[
            buy(TEN, 1_020),
            buy(TEN, 1_010),
            leave(TEN + 2_000, 1_020),
            Entry::Clock { time: TEN + 4_999 },
            Entry::Clock { time: TEN + 5_000 },
        ],
    )?;
    compare(
        &rt,
        "the better buy came first: its two seconds count",
        &[
            buy(TEN, 1_020),
            buy(TEN + 1_000, 1_010),
            leave(TEN + 2_000, 1_020),
            Entry::Clock { time: TEN + 3_999 },
            Entry::Clock { time: TEN + 4_000 },
        ],
    )?;
    compare(
        &rt,
        "a refused buy leaves no trace",
        &[
            buy(TEN, 1_061),
            Entry::Clock { time: TEN + 5_000 },
            leave(TEN + 5_000, 1_061),
            buy(TEN + 5_000, 1_060),
            Entry::Clock { time: TEN + 9_999 },
            Entry::Clock { time: TEN + 10_000 },
        ],
    )?;
    short_trail(&rt)?;
    print_record(&rt, buy(TEN, 1_000_000))
}
