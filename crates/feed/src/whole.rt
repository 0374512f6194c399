// Whole feeds: all that one gives, and a record more behind it.
ghost use Rattle.std.specs.Prelude.{◌≡◌, ◌⊎◌, List, [], ◌∷◌, ◌++◌, is_ok, IfOk, if◌then◌else◌, None, Ok, Err, Option, OnOk};
ghost use Rattle.feed.specs.Appending.{appended};
ghost use Rattle.feed.specs.declared.whole.WriteFault.TheVariants.{Refused, NoMemory};
ghost use Rattle.layout.specs.Layout.{record_of, feed_of};
ghost use Rattle.layout.specs.Laws.{ReadWhole, Holds};

use super::reader::{LONGEST, Reader};
use super::record::{LONGEST_RECORD, encode};
use entry::Entry;
use entry::refusals::Refusal;
use std::alloc::{AllocError, Global};

/// What a feed gives: its entries up to the end or the first fault, and that fault.
#[derive(Drop, PartialEq, Eq, Debug)]
pub struct Readings {
    pub entries: Vec<Entry>,
    pub fault: Option<Refusal>,
}

/// Why a record is not put behind a feed.
#[derive(Clone, Copy, PartialEq, Eq, Debug)]
pub enum WriteFault {
    Refused(Refusal),
    NoMemory,
}

impl From<Refusal> for WriteFault {
    ghost from_gives = { λ refusal result. result ≡ Refused refusal };

    fn from(refusal: Refusal) -> WriteFault {
        WriteFault::Refused(refusal)
    }
}

impl From<AllocError> for WriteFault {
    ghost from_gives = { λ _ result. result ≡ NoMemory };

    fn from(_error: AllocError) -> WriteFault {
        WriteFault::NoMemory
    }
}

/// Reads a whole feed, which can be read in one way only. If it has no fault, the records of its entries, one behind the other, are the feed again.
pub fn read(heap: Global, feed: &[u8]) -> Result<Readings, AllocError>
    ensures answer { IfOk result (λ x. ReadWhole feed.now x.entries.items x.fault) }
    ensures once { IfOk result (λ x. (es : List Entry) (fault : Option Refusal) → ReadWhole feed.now es fault → (es ≡ x.entries.items) × (fault ≡ x.fault)) }
    ensures back { IfOk result (λ x. x.fault ≡ None → feed_of x.entries.items ≡ feed.now) }
{
    let mut entries = Vec::new(heap);
    let mut reader = Reader::new();
    if let Err(refusal) = reader.take(feed) {
        return Ok(Readings {
            entries,
            fault: Some(refusal),
        });
    }
    let fault = loop {
        match reader.next() {
            Ok(Some(entry)) => entries.push(entry)?,
            Ok(None) => break None,
            Err(refusal) => break Some(refusal),
        }
    };
    Ok(Readings { entries, fault })
}

/// Puts an entry's record behind a feed. A figure wider than its field is refused, and so is a record that would make the
/// feed too long to be read; a refusal, and want of memory, leave the feed as it was. A feed that held the records of some
/// entries then holds those and this one, and is read so.
pub fn append(feed: &mut Vec<u8>, entry: Entry) -> Result<(), WriteFault>
    ensures answer { (result ≡ appended feed.old.items entry) ⊎ ((appended feed.old.items entry ≡ Ok tt) × (result ≡ Err WriteFault.NoMemory)) }
    ensures after { feed.new.items ≡ (if is_ok result then feed.old.items ++ record_of entry else feed.old.items) }
    ensures holds { OnOk result ((es : List Entry) → Holds feed.old.items es → Holds feed.new.items (es ++ (entry ∷ []))) }
{
    // The record is written in fixed memory first, since `encode` serves callers that have no heap.
    let mut record = [0; LONGEST_RECORD];
    let size = encode(entry, &mut record)?;
    if feed.len() > LONGEST - size {
        return Err(Refusal::FeedTooLong.into());
    }
    feed.extend_from_slice(&record[..size])?;
    Ok(())
}
