//! The program: carries out a script, turns a binary feed into readable lines, and a script into a binary feed.
#![tactic(auto)]

ghost use Rattle.std.specs.Prelude.{◌≡◌, OnOk, OnErr};
ghost use Rattle.std.specs.Process.{exit_status};

use commands::encoding::encode_script;
use commands::listing::{counted, list_feed};
use commands::request::{HELP, Request, USAGE, read_request};
use day::report::Report;
use day::run::run_script;
use std::alloc::AllocError;
use std::fmt::Display;
use std::process::ExitCode;
use std::{env, fs, io};

/// Why the program ends with status 1.
#[derive(Drop)]
enum Failure {
    /// It was said on standard error, or stands at the end of what was printed.
    Told,
    /// Something outside the program failed, and nothing was said of it yet.
    Outside(io::Error),
}

impl From<io::Error> for Failure {
    fn from(why: io::Error) -> Failure {
        Failure::Outside(why)
    }
}

impl From<AllocError> for Failure {
    fn from(why: AllocError) -> Failure {
        Failure::Outside(why.into())
    }
}

/// Says what is wrong with a file, or with the program's surroundings.
fn blame<D: Display + Drop>(rt: &HostRuntime, place: &str, why: D) -> Failure {
    let _ = eprintln!(rt; "{place}: {why}");
    Failure::Told
}

/// Says what is wrong with a line of a file. The fault is printed with the line's number before it.
fn blame_line<D: Display + Drop>(rt: &HostRuntime, path: &str, fault: D) -> Failure {
    let _ = eprintln!(rt; "{path}:{fault}");
    Failure::Told
}

/// Carries out a script.
fn day(rt: &HostRuntime, path: &str) -> Result<(), Failure> {
    let script = fs::read_to_string(rt, path).map_err(|why| blame(rt, path, why))?;
    let Report { text, stop } = run_script(rt.alloc(), script.as_str())?;
    rt.print(text.as_str())?;
    match stop {
        Some(stop) => Err(blame_line(rt, path, stop)),
        None => Ok(()),
    }
}

/// Prints the records of a feed.
fn decode(rt: &HostRuntime, path: &str) -> Result<(), Failure> {
    let feed = fs::read(rt, path).map_err(|why| blame(rt, path, why))?;
    let listing = list_feed(rt.alloc(), feed.as_slice())?;
    rt.print(listing.text.as_str())?;
    if listing.whole {
        Ok(())
    } else {
        Err(Failure::Told)
    }
}

/// Writes a file under a name beside it and renames that, so that an old file stays whole until the new one is.
fn replace(rt: &HostRuntime, path: &str, bytes: &[u8]) -> io::Result<()> {
    let part = format!(in rt.alloc(); "{path}.part")?;
    let written = fs::write(rt, part.as_str(), bytes).and_then(|()| fs::rename(
        rt,
        part.as_str(),
        path,
    ));
    if written.is_err() {
        let _ = fs::remove_file(rt, part.as_str());
    }
    written
}

/// Writes the entry lines of a script as a feed.
fn encode(rt: &HostRuntime, script: &str, feed: &str) -> Result<(), Failure> {
    let text = fs::read_to_string(rt, script).map_err(|why| blame(rt, script, why))?;
    let encoded = encode_script(rt.alloc(), text.as_str()).map_err(|fault| blame_line(
        rt, script, fault,
    ))?;
    replace(rt, feed, encoded.feed.as_slice()).map_err(|why| blame(rt, feed, why))?;
    rt.print(counted(rt.alloc(), encoded.records, encoded.feed.len())?)?;
    Ok(())
}

/// Does what the words after the program's name ask for.
fn run(rt: &HostRuntime) -> Result<(), Failure> {
    let words: Vec<String> = env::args(rt)?.skip(1).collect(rt.alloc())?;
    match read_request(words.as_slice()) {
        Request::Help => {
            rt.print(HELP)?;
            Ok(())
        }
        Request::Day { script } => day(rt, script),
        Request::Decode { feed } => decode(rt, feed),
        Request::Encode { script, feed } => encode(rt, script, feed),
        Request::Unknown => {
            let _ = eprintln!(rt; "{USAGE}");
            Err(Failure::Told)
        }
    }
}

/// What the program ends with: 0 if it did its work, else 1. What failed outside it was not said yet, and is said here.
fn status(rt: &HostRuntime, done: Result<(), Failure>) -> ExitCode
    ensures done { OnOk done (exit_status result ≡ 0) }
    ensures failed { OnErr done (exit_status result ≡ 1) }
{
    match done {
        Ok(()) => ExitCode::SUCCESS,
        Err(Failure::Told) => ExitCode::FAILURE,
        Err(Failure::Outside(why)) => {
            let _ = blame(rt, "velvetpalm", why);
            ExitCode::FAILURE
        }
    }
}

fn main(rt: HostRuntime) -> ExitCode {
    status(&rt, run(&rt))
}

#[cfg(test)]
mod tests {
    use super::*;
    use std::test::Fail;

    #[test]
    fn a_new_file_takes_the_old_ones_place(rt: HostRuntime) -> Result<(), Fail> {
        fs::write(&rt, "kept.feed", "old")?;
        replace(&rt, "kept.feed", b"new")?;
        let text = fs::read_to_string(&rt, "kept.feed")?;
        assert_eq!(rt; text.as_str(), "new");
        assert!(rt; !fs::exists(&rt, "kept.feed.part")?);
        fs::remove_file(&rt, "kept.feed")?;
        Ok(())
    }

    #[test]
    fn what_cannot_be_replaced_stays(rt: HostRuntime) -> Result<(), Fail> {
        fs::create_dir(&rt, "folder")?;
        assert!(rt; replace(&rt, "folder", b"new").is_err());
        assert!(rt; fs::metadata(&rt, "folder")?.is_dir());
        assert!(rt; !fs::exists(&rt, "folder.part")?);
        fs::remove_dir(&rt, "folder")?;
        assert!(rt; replace(&rt, "none/file", b"new").is_err());
        Ok(())
    }

    #[test]
    fn a_script_goes_there_and_back(rt: HostRuntime) -> Result<(), Fail> {
        fs::write(&rt, "there.txt", "clock 5 # noon\nlisted\nruling 6 1003\n")?;
        fs::write(&rt, "there.feed", "old")?;
        assert!(rt; encode(&rt, "there.txt", "there.feed").is_ok());
        assert!(rt; decode(&rt, "there.feed").is_ok());
        assert_eq!(rt; fs::read(&rt, "there.feed")?.len(), 13);
        fs::write(&rt, "there.txt", "clock 5\nclock\n")?;
        assert!(rt; encode(&rt, "there.txt", "there.feed").is_err());
        assert_eq!(rt;
            fs::read(&rt, "there.feed")?.len(),
            13,
            "the old feed stays"
        );
        fs::write(&rt, "there.feed", "cut")?;
        assert!(rt; decode(&rt, "there.feed").is_err());
        fs::remove_file(&rt, "there.txt")?;
        fs::remove_file(&rt, "there.feed")?;
        assert!(rt; decode(&rt, "there.feed").is_err());
        assert!(rt; encode(&rt, "there.txt", "there.feed").is_err());
        Ok(())
    }
}
