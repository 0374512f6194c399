// A script's entry lines as a feed.
ghost use Rattle.std.specs.Prelude.{◌≡◌, Some, MatchResult};
ghost use Rattle.script_words.specs.Lines.{lines_of};
ghost use Rattle.script_parse.specs.Entries.{entry_of};
ghost use Rattle.commands.specs.declared.encoding.Flaw.TheVariants.{Unreadable};
ghost use Rattle.commands.specs.Encoding.{flaw_text, script_fault_text, flaw_of, Appended, Encodes, Flawed, Fails};

use entry::refusals::Refusal;
use feed::whole::{WriteFault, append};
use script::faults::LineFault;
use script_parse::parse::parse;
use script_words::lines::Lines;
use std::alloc::Global;
use std::fmt;

/// A feed, and how many records it has.
#[derive(Drop, PartialEq, Eq, Debug)]
pub struct Encoded {
    pub feed: Vec<u8>,
    pub records: usize,
}

/// Why a line cannot be written to a feed.
#[derive(Clone, Copy, PartialEq, Eq, Debug)]
pub enum Flaw<'a> {
    /// The line cannot be read.
    Unreadable(LineFault<'a>),
    /// A figure is wider than its field.
    TooWide,
    /// The feed would be longer than a feed may be.
    TooLong,
    /// There is no memory for the record.
    NoMemory,
}

/// Why a script has no feed: the line, from 1, and what is wrong with it.
#[derive(Clone, Copy, PartialEq, Eq, Debug)]
pub struct ScriptFault<'a> {
    pub line: usize,
    pub flaw: Flaw<'a>,
}

impl fmt::Display for ScriptFault<'_> {
    ghost output = { λ fault. Some (script_fault_text fault) };

    fn fmt<W: fmt::Write>(&self, f: &mut fmt::Formatter<W>) -> fmt::Result {
        write!(f, "{}: {}", self.line, self.flaw)
    }
}

impl fmt::Display for Flaw<'_> {
    ghost output = { λ flaw. Some (flaw_text flaw) };

    fn fmt<W: fmt::Write>(&self, f: &mut fmt::Formatter<W>) -> fmt::Result {
        match *self {
            Flaw::Unreadable(fault) => write!(f, "{fault}"),
            Flaw::TooWide => write!(
                f,
                "a figure is too wide for a feed: the greatest TIME, PRICE, SP, L, UR and LR is 1073741823, QUANTITY 16777215, MODE 3, SESSION 7"
            ),
            Flaw::TooLong => write!(f, "the feed would be longer than 65536 bytes"),
            Flaw::NoMemory => write!(f, "out of memory"),
        }
    }
}

impl<'a> From<LineFault<'a>> for Flaw<'a> {
    ghost from_gives = { λ fault result. result ≡ Unreadable fault };

    fn from(fault: LineFault<'a>) -> Flaw<'a> {
        Self::Unreadable(fault)
    }
}

/// What a writer's fault says of the line.
impl From<WriteFault> for Flaw<'_> {
    ghost from_gives = { λ fault result. result ≡ flaw_of fault };

    fn from(fault: WriteFault) -> Self {
        match fault {
            WriteFault::NoMemory => Flaw::NoMemory,
            WriteFault::Refused(Refusal::FeedTooLong) => Flaw::TooLong,
            WriteFault::Refused(_) => Flaw::TooWide,
        }
    }
}

/// Appends the record of a line that is an entry: whether it is one.
pub fn append_line<'a>(feed: &mut Vec<u8>, line: &'a str) -> Result<bool, Flaw<'a>>
    ensures answer { MatchResult result (λ added. Appended feed.old.items (entry_of line.now) added feed.new.items) (Flawed feed.old.items (entry_of line.now)) }
{
    let Some(command) = parse(line)? else {
        return Ok(false);
    };
    let Some(entry) = command.entry() else {
        return Ok(false);
    };
    append(feed, entry)?;
    Ok(true)
}

/// The feed of a script's entry lines. Other commands are passed over.
pub fn encode_script<'a>(heap: Global, script: &'a str) -> Result<Encoded, ScriptFault<'a>>
    ensures answer { MatchResult result (λ made. Encodes (lines_of script.now) made.feed.items made.records) (λ fault. Fails (lines_of script.now) fault.line fault.flaw) }
{
    let mut feed = Vec::new(heap);
    let mut records = 0;
    for (index, line) in Lines::new(script).enumerate() {
        let added = append_line(&mut feed, line).map_err(|flaw| ScriptFault {
            line: index + 1,
            flaw,
        })?;
        records += usize::from(added);
    }
    Ok(Encoded { feed, records })
}
