// What the programs share: an argument by its place, a file to read, and what they say of one that cannot be read.
#![tactic(auto)]

ghost use Rattle.std.specs.Prelude.{◌≡◌, [], IfOk, IfSome};
ghost use Rattle.std.specs.Io.Buffered.{reader_buffer};

use std::io::BufReader;
use std::rt::Files;
use std::{fs, io};

// Argument k; no text where there is none.
pub fn argument(args: &[String], k: usize) -> &str {
    args.get(k).map_or("", |arg| arg.as_str())
}

// The system's words for an error, without the number behind them.
fn words_of(text: &str) -> &str {
    text.split_once(" (os error ")
        .map_or(text, |(words, _)| words)
}

// Says on standard error what failed, and why.
pub fn fail(rt: &(impl Eprint + AllocGlobal), what: &str, why: &io::Error) -> io::Result<()> {
    let text = why.to_string(rt.alloc())?;
    let words = words_of(text.as_str());
    eprintln!(rt; "{what}: {words}")
}

// A file to read, of which nothing is read yet; where it cannot be opened, says so, and gives none.
pub fn open<R: Files + Eprint + AllocGlobal>(
    rt: &R,
    path: &str,
) -> io::Result<Option<BufReader<R::File>>>
    ensures { IfOk result (λ file. IfSome file (λ reader. reader_buffer reader ≡ [])) }
{
    match fs::open(rt, path) {
        Ok(file) => Ok(Some(BufReader::new(rt.alloc(), file)?)),
        Err(why) => {
            fail(rt, path, &why)?;
            Ok(None)
        }
    }
}
