// A feed as text: a line for each record.
ghost use Rattle.std.specs.Prelude.{◌≡◌, IfOk, string_bytes};
ghost use Rattle.commands.specs.Listing.{noun, counted_text, lines_text, last_text, Listed};

use entry::Entry;
use entry::refusals::Refusal;
use feed::whole::{Readings, read};
use script::print::Plain;
use std::alloc::{AllocError, Global};

/// The lines of a feed, and whether it was read to its end.
// No `Result`, since a listing that ends at a fault has lines too; no `Option` of the fault, since the text tells it already.
#[derive(Drop, PartialEq, Eq, Debug)]
pub struct Listing {
    pub text: String,
    pub whole: bool,
}

/// The word for so many records.
fn record_word(records: usize) -> &'static str
    ensures answer { result.now ≡ noun records }
{
    if records == 1 { "record" } else { "records" }
}

/// How many records and bytes a feed has, as a comment of a script.
pub fn counted(heap: Global, records: usize, bytes: usize) -> Result<String, AllocError>
    ensures answer { IfOk result (λ text. string_bytes text ≡ counted_text records bytes) }
{
    let word = record_word(records);
    format!(in heap; "# {records} {word}, {bytes} bytes\n")
}

/// A line for each entry.
pub fn lines(heap: Global, entries: &[Entry]) -> Result<String, AllocError>
    ensures answer { IfOk result (λ text. string_bytes text ≡ lines_text entries.now) }
{
    let mut text = String::new(heap);
    for entry in entries {
        writeln!(text, "{}", Plain(*entry))?;
    }
    Ok(text)
}

/// The last line: the fault, or the size of a feed without one.
pub fn last_line(
    heap: Global,
    records: usize,
    bytes: usize,
    fault: Option<Refusal>,
) -> Result<String, AllocError>
    ensures answer { IfOk result (λ text. string_bytes text ≡ last_text records bytes fault) }
{
    match fault {
        Some(refusal) => format!(in heap; "{}\n", Plain(refusal)),
        None => counted(heap, records, bytes),
    }
}

/// The lines of a feed: its records up to its end or its first fault, and the last line.
pub fn list_feed(heap: Global, feed: &[u8]) -> Result<Listing, AllocError>
    ensures answer { IfOk result (λ listing. Listed feed.now (string_bytes listing.text) listing.whole) }
{
    let Readings { entries, fault } = read(heap, feed)?;
    let mut text = lines(heap, entries.as_slice())?;
    let last = last_line(heap, entries.len(), feed.len(), fault)?;
    text.push_str(last.as_str())?;
    Ok(Listing {
        text,
        whole: fault.is_none(),
    })
}
