// A new board, and the commands for a board, whichever it is.
ghost use Rattle.std.specs.Prelude.{◌≡◌};
ghost use Rattle.day.specs.Boards.{board_after};

use crate::report::{Answer, GridStart, Halt, LadderCount, NewBoard};
use board::standing::Levels;
use board::{Board, Level};
use entry::Side;
use entry::refusals::Refusal;
use grid::Grid;
use ladder::Ladder;
use script::command::{BoardCommand, BoardShape};
use std::alloc::{AllocError, Global};

/// The board that is asked for, if its first test is passed.
pub(crate) fn new_board(shape: BoardShape) -> Result<NewBoard, Refusal> {
    match shape {
        BoardShape::Ladder { count } => {
            let count = count as usize;
            Ladder::test(count, count)?;
            Ok(NewBoard::Ladder(LadderCount { count }))
        }
        BoardShape::Grid { start } => {
            Grid::test(start)?;
            Ok(NewBoard::Grid(GridStart { start }))
        }
    }
}

// The levels of a side, best first.
fn levels<B: Board>(heap: Global, board: &B, side: Side) -> Result<String, AllocError> {
    let mut text = String::new(heap);
    for Level {
        price,
        orders,
        since,
    } in Levels::of(board, side) {
        if !text.is_empty() {
            text.push_str(" ")?;
        }
        write!(text, "{price}:{orders}:{since}")?;
    }
    if text.is_empty() {
        text.push_str("none")?;
    }
    Ok(text)
}

/// What a command for a board is answered.
pub(crate) fn board_answer<B: Board>(
    heap: Global,
    board: &mut B,
    command: BoardCommand,
) -> Result<Answer, Halt>
    ensures after { B.Board.book board.new ≡ board_after (B.Board.book board.old) command }
{
    match command {
        BoardCommand::Add { side, price, time } => {
            let added = board.add(side, price, time);
            Ok(Answer::Done(added.map_err(Refusal::from)))
        }
        BoardCommand::Take { side, price } => {
            let taken = board.take(side, price);
            Ok(Answer::Done(taken.map_err(Refusal::from)))
        }
        BoardCommand::Levels { side } => Ok(Answer::Levels(levels(heap, board, side)?)),
    }
}
