// Why a board refuses, each with the refusal that it is.
ghost use Rattle.std.specs.Prelude.{◌≡◌};
ghost use Rattle.board.specs.Faults.{number_of, refusal_of};

use entry::refusals::Refusal;

/// Why a board refuses an order more or less.
#[derive(Clone, Copy, PartialEq, Eq, Debug)]
pub enum BoardFault {
    /// The level has its greatest number of orders.
    LevelFull,
    /// There is no place for a new level: the price is outside the range, or the side has its greatest number of levels.
    NoPlace,
    /// No level stands there.
    NothingThere,
}

impl From<BoardFault> for Refusal {
    ghost from_gives = { λ fault result. result ≡ refusal_of fault };

    fn from(fault: BoardFault) -> Refusal {
        match fault {
            BoardFault::LevelFull => Refusal::LevelFull,
            BoardFault::NoPlace => Refusal::NoPlace,
            BoardFault::NothingThere => Refusal::NothingThere,
        }
    }
}

impl BoardFault {
    /// The number of the refusal.
    pub fn number(self) -> u8
        ensures answer { result ≡ number_of self }
    {
        Refusal::from(self).number()
    }
}
