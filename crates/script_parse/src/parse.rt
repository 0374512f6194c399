// A line of a day script, read.
ghost use Rattle.std.specs.Prelude.{◌≡◌, Some, Ok};
ghost use Rattle.entry.specs.declared.Entry.{Entry};
ghost use Rattle.script.specs.Spelling.{Fits};
ghost use Rattle.script.specs.Print.{entry_text};
ghost use Rattle.script_words.specs.Words.{left};
ghost use Rattle.script_parse.specs.Entries.{entry_of, entry_if, entry_answered, entry_parsed, kind_named};

use crate::entries::{entry, kind_named};
use script::command::{
    Announcement, BoardCommand, BoardShape, Bounding, Command, DayCommand, LimitKind, PlanCommand,
};
use script::faults::LineFault;
use script_words::words::Words;

/// What a line asks for: nothing where it is blank or a comment.
pub fn parse(line: &str) -> Result<Option<Command<'_>>, LineFault<'_>>
    ensures answer { entry_parsed result ≡ entry_of line.now }
    ensures printed { (entry : Entry) → Fits entry → line.now ≡ entry_text entry → result ≡ Ok (Some (Command.Entry entry)) }
{
    let mut words = Words::new(line);
    let Some(name) = words.next() else {
        return Ok(None);
    };
    let command = command(name, &mut words)?;
    words.end()?;
    Ok(Some(command))
}

/// Takes the words of a command after its name.
fn command<'a>(name: &'a str, words: &mut Words<'a>) -> Result<Command<'a>, LineFault<'a>>
    ensures answer { entry_answered result (left words.new) ≡ entry_if (kind_named name.now) (left words.old) }
{
    if let Some(kind) = kind_named(name) {
        let entry = entry(kind, words)?;
        return Ok(Command::Entry(entry));
    }
    let command = match name {
        "plan" => Command::Plan(plan(words)?),
        "window" => Command::Plan(window(words)?),
        "session" => Command::Plan(session(words)?),
        "board" => Command::NewBoard(board(words)?),
        "add" => Command::Board(add(words)?),
        "take" => Command::Board(take(words)?),
        "levels" => Command::Board(levels(words)?),
        "listed" => Command::Day(DayCommand::Listed),
        "open" => Command::Day(open(words)?),
        "limits" => Command::Day(limits(words)?),
        "feed" => Command::Day(feed(words)?),
        "close" => Command::Day(DayCommand::Close),
        _ => return Err(LineFault::UnknownCommand { word: name }),
    };
    Ok(command)
}

// Which of the two plans is asked for.
#[derive(Clone, Copy)]
enum PlanKind {
    Fixed,
    Announced,
}

// Which of the two boards is asked for.
#[derive(Clone, Copy)]
enum BoardKind {
    Ladder,
    Grid,
}

fn plan<'a>(words: &mut Words<'a>) -> Result<PlanCommand, LineFault<'a>> {
    match words.choice(
        ("fixed", PlanKind::Fixed),
        ("announced", PlanKind::Announced),
    )? {
        PlanKind::Fixed => {
            let days = words.figure("DAYS")?;
            let group = words.figure("GROUP")?;
            Ok(PlanCommand::Fixed { days, group })
        }
        PlanKind::Announced => Ok(PlanCommand::Announced),
    }
}

fn window<'a>(words: &mut Words<'a>) -> Result<PlanCommand, LineFault<'a>> {
    let start = words.figure("START")?;
    let end = words.figure("END")?;
    let session = words.code("SESSION")?;
    let bounding = words.choice(("free", Bounding::Free), ("bounded", Bounding::Bounded))?;
    let k = words.figure("K")?;
    Ok(PlanCommand::Window(Announcement {
        start,
        end,
        session,
        bounding,
        k,
    }))
}

fn session<'a>(words: &mut Words<'a>) -> Result<PlanCommand, LineFault<'a>> {
    let time = words.figure("TIME")?;
    Ok(PlanCommand::Session { time })
}

fn board<'a>(words: &mut Words<'a>) -> Result<BoardShape, LineFault<'a>> {
    match words.choice(("ladder", BoardKind::Ladder), ("grid", BoardKind::Grid))? {
        BoardKind::Ladder => {
            let count = words.figure("COUNT")?;
            Ok(BoardShape::Ladder { count })
        }
        BoardKind::Grid => {
            let start = words.figure("START")?;
            Ok(BoardShape::Grid { start })
        }
    }
}

fn add<'a>(words: &mut Words<'a>) -> Result<BoardCommand, LineFault<'a>> {
    let side = words.side()?;
    let price = words.figure("PRICE")?;
    let time = words.figure("TIME")?;
    Ok(BoardCommand::Add { side, price, time })
}

fn take<'a>(words: &mut Words<'a>) -> Result<BoardCommand, LineFault<'a>> {
    let side = words.side()?;
    let price = words.figure("PRICE")?;
    Ok(BoardCommand::Take { side, price })
}

fn open<'a>(words: &mut Words<'a>) -> Result<DayCommand<'a>, LineFault<'a>> {
    let time = words.figure("TIME")?;
    let params = words.params()?;
    Ok(DayCommand::Open { time, params })
}

fn limits<'a>(words: &mut Words<'a>) -> Result<DayCommand<'a>, LineFault<'a>> {
    let which = words.choice(
        ("static", LimitKind::Static),
        ("dynamic", LimitKind::Dynamic),
    )?;
    let time = words.figure("TIME")?;
    Ok(DayCommand::Limits { which, time })
}

fn levels<'a>(words: &mut Words<'a>) -> Result<BoardCommand, LineFault<'a>> {
    let side = words.side()?;
    Ok(BoardCommand::Levels { side })
}

fn feed<'a>(words: &mut Words<'a>) -> Result<DayCommand<'a>, LineFault<'a>> {
    let file = words.next().ok_or(LineFault::Missing { name: "FILE" })?;
    Ok(DayCommand::Feed { file })
}
