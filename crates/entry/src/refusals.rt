// The refusals, each with its number.
ghost use Rattle.std.specs.Prelude.{◌≡◌};
ghost use Rattle.entry.specs.Refusals.{number, place};

/// Where in a feed a fault is: the number of its record, from 1, and the bit, from 0 at the feed's start.
#[derive(Clone, Copy, PartialEq, Eq, Debug)]
pub struct Place {
    pub number: usize,
    pub bit: usize,
}

/// Why an entry or a call is refused. A refused call changes nothing.
#[derive(Clone, Copy, PartialEq, Eq, Debug)]
pub enum Refusal {
    /// A code or figure is outside its range, or LR is above UR.
    OutOfRange,
    /// The time is below the day's time, or above the last one.
    BadTime,
    /// There is no session at that time.
    NoSession,
    /// The price is outside the static limits.
    OutsideStatic,
    /// The price is outside the dynamic limits.
    OutsideDynamic,
    /// A buy at or above the best sell, or a sell at or below the best buy.
    Crosses,
    /// The level has 65,535 orders.
    LevelFull,
    /// There is no place for a new level.
    NoPlace,
    /// Nothing stands there.
    NothingThere,
    /// The trail is shorter than the list of entries.
    TrailShort,
    /// The board has a level when the day is opened.
    BoardNotEmpty,
    /// The window overlaps another.
    WindowOverlaps,
    /// It would be the 33rd window.
    TooManyWindows,
    /// The feed ends inside a record: told with the record and its first bit.
    FeedEnds(Place),
    /// The record's kind is unknown: told with the record and its first bit.
    UnknownKind(Place),
    /// A spare bit is set: told with the record and its first spare bit.
    SpareBitSet(Place),
    /// The feed has more than 65,536 bytes.
    FeedTooLong,
    /// The output is too short for the record.
    OutputShort,
}

impl Refusal {
    /// The refusal's number, 1 to 18.
    pub fn number(self) -> u8
        ensures answer { result ≡ number self }
    {
        match self {
            Refusal::OutOfRange => 1,
            Refusal::BadTime => 2,
            Refusal::NoSession => 3,
            Refusal::OutsideStatic => 4,
            Refusal::OutsideDynamic => 5,
            Refusal::Crosses => 6,
            Refusal::LevelFull => 7,
            Refusal::NoPlace => 8,
            Refusal::NothingThere => 9,
            Refusal::TrailShort => 10,
            Refusal::BoardNotEmpty => 11,
            Refusal::WindowOverlaps => 12,
            Refusal::TooManyWindows => 13,
            Refusal::FeedEnds(_) => 14,
            Refusal::UnknownKind(_) => 15,
            Refusal::SpareBitSet(_) => 16,
            Refusal::FeedTooLong => 17,
            Refusal::OutputShort => 18,
        }
    }

    /// Where in a feed the fault is. None for what is no fault in a feed.
    pub fn place(self) -> Option<Place>
        ensures answer { result ≡ place self }
    {
        match self {
            Refusal::FeedEnds(place) | Refusal::UnknownKind(place) | Refusal::SpareBitSet(place) =>
                Some(place),
            _ => None,
        }
    }
}
