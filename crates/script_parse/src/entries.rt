// The lines that are entries.
ghost use Rattle.std.specs.Prelude.{◌≡◌};
ghost use Rattle.script_words.specs.Words.{left};
ghost use Rattle.script_words.specs.Reading.{answered};
ghost use Rattle.script_parse.specs.Entries.{kind_named, entry_after};

use entry::Entry;
use entry::kinds::Kind;
use script::faults::LineFault;
use script_words::words::Words;

// A function and no `FromStr`, which would stand in the entries' crate, where no words of scripts are known.
/// The kind of entry that a command begins, if it begins one.
pub fn kind_named(name: &str) -> Option<Kind>
    ensures answer { result ≡ kind_named name.now }
{
    match name {
        "clock" => Some(Kind::Clock),
        "post" => Some(Kind::Post),
        "leave" => Some(Kind::Leave),
        "trade" => Some(Kind::Trade),
        "parameters" => Some(Kind::Parameters),
        "reference" => Some(Kind::Reference),
        "ruling" => Some(Kind::Ruling),
        _ => None,
    }
}

/// Takes the words of an entry after its name.
pub fn entry<'a>(kind: Kind, words: &mut Words<'a>) -> Result<Entry, LineFault<'a>>
    ensures answer { answered result (left words.new) ≡ entry_after kind (left words.old) }
{
    let time = words.figure("TIME")?;
    match kind {
        Kind::Clock => Ok(Entry::Clock { time }),
        Kind::Post => {
            let side = words.side()?;
            let mode = words.code("MODE")?;
            let price = words.figure("PRICE")?;
            Ok(Entry::Post {
                time,
                side,
                mode,
                price,
            })
        }
        Kind::Leave => {
            let side = words.side()?;
            let price = words.figure("PRICE")?;
            Ok(Entry::Leave { time, side, price })
        }
        Kind::Trade => {
            let mode = words.code("MODE")?;
            let price = words.figure("PRICE")?;
            let quantity = words.figure("QUANTITY")?;
            Ok(Entry::Trade {
                time,
                mode,
                price,
                quantity,
            })
        }
        Kind::Parameters => {
            let params = words.params()?;
            Ok(Entry::Parameters { time, params })
        }
        Kind::Reference => {
            let session = words.code("SESSION")?;
            let price = words.figure("PRICE")?;
            Ok(Entry::Reference {
                time,
                session,
                price,
            })
        }
        Kind::Ruling => {
            let price = words.figure("PRICE")?;
            Ok(Entry::Ruling { time, price })
        }
    }
}
