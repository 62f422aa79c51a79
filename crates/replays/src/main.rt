// Replays the traces that its arguments name: of each the name, and then what `replay` prints for it.
#![tactic(auto)]

use std::env::{Env, FillError};
use std::fs::File;
use std::io::Write;
use std::{io, str};

// Bytes that hold any path.
const PATH_LENGTH: usize = 4096;

// The file that a name stands for. Paths are text here: no other name can be opened.
fn open(rt: &HostRuntime, name: &[u8]) -> io::Result<File> {
    let path = str::from_utf8(name).map_err(|_| io::Error::from(io::ErrorKind::InvalidFilename))?;
    File::open(rt, path)
}

// The system's words for an error, without the number that an error prints after them.
fn words(text: &str) -> &str {
    text.split_once(" (os error ").map_or(text, |parts| parts.0)
}

// Tells why a file cannot be opened.
fn tell(rt: &HostRuntime, name: &[u8], error: io::Error) -> io::Result<()> {
    let text = format!(in rt.alloc(); "{error}")?;
    let reason = words(text.as_str());
    let mut errors = rt.stderr();
    errors.write_all(name)?;
    writeln!(errors, ": {reason}")
}

// The trace that an argument names, or why it cannot be opened.
fn replay_argument(rt: &HostRuntime, name: &[u8]) -> io::Result<()> {
    let mut file = match open(rt, name) {
        Ok(file) => file,
        Err(error) => return tell(rt, name, error),
    };
    let mut report = rt.stdout();
    let mut errors = rt.stderr();
    report.write_all(name)?;
    report.write_all(b":\n")?;
    let ending = playback::replay_from(&mut file, &mut report, &mut errors)?;
    if !ending.whole {
        errors.write_all(b"in ")?;
        errors.write_all(name)?;
        errors.write_all(b"\n")?;
    }
    Ok(())
}

fn main(rt: HostRuntime) -> io::Result<()> {
    // By its number into a buffer, and not by `env::args`, which gives no argument at all where one is not UTF-8: what is printed then may not change.
    for index in 1..usize::MAX {
        let mut name = [0u8; PATH_LENGTH];
        let length = match rt.arg(index, &mut name) {
            Ok(length) => length,
            Err(FillError::TooLong) => 0,
            Err(FillError::NotPresent) => break,
        };
        replay_argument(&rt, &name[..length])?;
    }
    Ok(())
}
