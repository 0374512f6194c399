// A script, carried out.
ghost use Rattle.std.specs.Prelude.{◌<◌, length, IfOk, OnSome};
ghost use Rattle.script_words.specs.Lines.{to_come};

use crate::boards::{board_answer, new_board};
use crate::plans::Timetable;
use crate::report::{Answer, GridStart, Halt, LadderCount, NewBoard, OutOfPlace, Report, Stop};
use board::Level;
use grid::Grid;
use ladder::Ladder;
use ladder::records::{BuyLevel, SellLevel};
use script::command::{BoardCommand, Command, DayCommand};
use script_parse::parse::parse;
use script_words::lines::Lines;
use std::alloc::{AllocError, Global};

// A script that is being carried out: the lines that are left, the number of the last one taken, what was printed, and the plan.
#[derive(Drop)]
struct ScriptRun<'a> {
    heap: Global,
    lines: Lines<'a>,
    line: usize,
    text: String,
    timetable: Timetable,
}

impl<'a> ScriptRun<'a> {
    // The command of the next line that has one; none at the script's end. That fewer lines are left, here and below, is what lets the
    // loops end.
    fn command(&mut self) -> Result<Option<Command<'a>>, Halt>
        ensures fewer { IfOk result (λ found. OnSome found (length (to_come self.new.lines) < length (to_come self.old.lines))) }
    {
        while let Some(line) = self.lines.next() {
            // Counted here and not by `enumerate`, since the number is kept when the function returns.
            self.line = self.line.saturating_add(1);
            match parse(line) {
                Ok(Some(command)) => return Ok(Some(command)),
                Ok(None) => {}
                Err(fault) => return Err(Halt::Unreadable(format!(in self.heap; "{fault}")?)),
            }
        }
        Ok(None)
    }

    // Carries out lines until one asks for another board. Commands for a board are answered by the function that is passed.
    fn until_board<F: FnMut(BoardCommand) -> Result<Answer, Halt>>(
        &mut self,
        mut on_board: F,
    ) -> Result<Option<NewBoard>, Halt>
        requires { F.IsAlwaysCallable on_board }
        ensures fewer { IfOk result (λ next. OnSome next (length (to_come self.new.lines) < length (to_come self.old.lines))) }
    {
        while let Some(command) = self.command()? {
            let answer = match command {
                Command::Plan(plan) => self.timetable.answer(self.heap, plan)?,
                Command::NewBoard(shape) => new_board(shape).into(),
                Command::Board(board) => on_board(board)?,
                Command::Day(DayCommand::Listed | DayCommand::Open { .. }) => {
                    return Err(OutOfPlace::DaysNotBuilt.into());
                }
                Command::Entry(_) | Command::Day(_) => return Err(OutOfPlace::NoOpenDay.into()),
            };
            writeln!(self.text, "{command} -> {answer}")?;
            if let Answer::Board(board) = answer {
                return Ok(Some(board));
            }
        }
        Ok(None)
    }

    // Carries out lines while there is no board.
    fn without_board(&mut self) -> Result<Option<NewBoard>, Halt>
        ensures fewer { IfOk result (λ next. OnSome next (length (to_come self.new.lines) < length (to_come self.old.lines))) }
    {
        self.until_board(|_| Err(OutOfPlace::NoBoard.into()))
    }

    // Carries out lines on a new board.
    fn on_board(&mut self, board: NewBoard) -> Result<Option<NewBoard>, Halt>
        ensures fewer { IfOk result (λ next. OnSome next (length (to_come self.new.lines) < length (to_come self.old.lines))) }
    {
        let heap = self.heap;
        match board {
            NewBoard::Ladder(LadderCount { count }) => {
                let mut buys = vec![in heap; BuyLevel::default(); count]?;
                let mut sells = vec![in heap; SellLevel::default(); count]?;
                let mut ladder = Ladder::new(buys.as_mut_slice(), sells.as_mut_slice());
                self.until_board(|command| board_answer(heap, &mut ladder, command))
            }
            NewBoard::Grid(GridStart { start }) => {
                let mut grid = Grid::new(start);
                self.until_board(|command| board_answer(heap, &mut grid, command))
            }
        }
    }

    // Carries out all lines.
    fn run(&mut self) -> Result<(), Halt> {
        let mut next = self.without_board()?;
        while let Some(board) = next {
            next = self.on_board(board)?;
        }
        Ok(())
    }
}

/// Carries out a script, and tells what it printed and what stopped it.
pub fn run_script(heap: Global, script: &str) -> Result<Report, AllocError> {
    let mut script = ScriptRun {
        heap,
        lines: Lines::new(script),
        line: 0,
        text: String::new(heap),
        timetable: Timetable::Empty,
    };
    let outcome = script.run();
    let why = match outcome {
        Ok(()) => {
            return Ok(Report {
                text: script.text,
                stop: None,
            });
        }
        Err(Halt::Unreadable(why)) => why,
        Err(Halt::OutOfPlace(why)) => format!(in heap; "{why}")?,
        Err(Halt::NoMemory(why)) => return Err(why),
    };
    Ok(Report {
        text: script.text,
        stop: Some(Stop {
            line: script.line,
            why,
        }),
    })
}
