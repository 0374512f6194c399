// A feed, read record by record.
ghost use Rattle.std.specs.Prelude.{◌≡◌, ◌≤◌, [], length, MatchResult};
ghost use Rattle.layout.specs.Laws.{Faithful};
ghost use Rattle.layout.specs.Reading.{taken, next, place_after, seen_after};

use super::record::decode;
use entry::Entry;
use entry::refusals::{Place, Refusal};
use layout::kinds;

// The longest feed that is taken, in bytes.
pub(crate) const LONGEST: usize = 65_536;

/// Reads a feed from its start, a record at a time.
#[derive(Drop)]
pub struct Reader<'a> {
    feed: &'a [u8],
    at: usize,
    seen: usize,
    ghost within: { (length feed.now ≤ 65536) × (at ≤ length feed.now) × (seen ≤ at) },
}

impl<'a> Reader<'a> {
    /// A reader of an empty feed.
    pub fn new() -> Reader<'a>
        ensures made { (result.feed.now ≡ []) × (result.at ≡ 0) × (result.seen ≡ 0) }
    {
        Reader {
            feed: &[],
            at: 0,
            seen: 0,
        }
    }

    /// Takes a feed, to be read from its start. One that is too long is refused, and the reader stays as it was.
    pub fn take(&mut self, feed: &'a [u8]) -> Result<(), Refusal>
        ensures answer { result ≡ taken feed.now }
        ensures after { MatchResult result (λ _. (self.new.feed.now ≡ feed.now) × (self.new.at ≡ 0) × (self.new.seen ≡ 0)) (λ _. self.new ≡ self.old) }
    {
        if feed.len() > LONGEST {
            return Err(Refusal::FeedTooLong);
        }
        self.feed = feed;
        self.at = 0;
        self.seen = 0;
        Ok(())
    }

    // No iterator, since what comes after a fault is the fault again, for ever.
    /// The next entry, or `None` at the feed's end. A fault and the end leave the reader as it was, so that asking
    /// again gives the same answer.
    pub fn next(&mut self) -> Result<Option<Entry>, Refusal>
        ensures answer { result ≡ next self.old.feed.now self.old.at self.old.seen }
        ensures place { self.new.at ≡ place_after result self.old.at }
        ensures seen { self.new.seen ≡ seen_after result self.old.seen }
        ensures kept { self.new.feed ≡ self.old.feed }
        ensures faithful { Faithful self.old.feed.now self.old.at self.old.seen result }
    {
        if self.at == self.feed.len() {
            return Ok(None);
        }
        let place = Place {
            number: self.seen + 1,
            bit: 8 * self.at,
        };
        let entry = decode(&self.feed[self.at..], place)?;
        self.at += kinds::size(entry.into());
        self.seen += 1;
        Ok(Some(entry))
    }
}
