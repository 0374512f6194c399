// What the program is asked to do.
ghost use Rattle.std.specs.Prelude.{map, string_bytes};
ghost use Rattle.commands.specs.Requests.{Asks};

/// The usage line.
pub const USAGE: &str =
    "usage: velvetpalm day SCRIPT | velvetpalm decode FEED | velvetpalm encode SCRIPT FEED | velvetpalm --help";

/// The commands, with a line each.
pub const HELP: &str = "\
usage: velvetpalm COMMAND
  day SCRIPT           carries out a script for boards and plans, and prints each command with its answer
  decode FEED          prints each record of a binary feed as a script line
  encode SCRIPT FEED   writes the entry lines of a script as a binary feed
  --help               prints this text
";

/// What the program is asked to do, by the words after its name.
#[derive(Clone, Copy, PartialEq, Eq, Debug)]
pub enum Request<'a> {
    Help,
    Day { script: &'a str },
    Decode { feed: &'a str },
    Encode { script: &'a str, feed: &'a str },
    Unknown,
}

/// What the words ask for.
pub fn read_request(words: &[String]) -> Request<'_>
    ensures answer { Asks (map string_bytes words.now) result }
{
    match words {
        [command] if command.as_str() == "--help" => Request::Help,
        [command, file] if command.as_str() == "day" => Request::Day {
            script: file.as_str(),
        },
        [command, feed] if command.as_str() == "decode" => Request::Decode {
            feed: feed.as_str(),
        },
        [command, script, feed] if command.as_str() == "encode" => Request::Encode {
            script: script.as_str(),
            feed: feed.as_str(),
        },
        _ => Request::Unknown,
    }
}
