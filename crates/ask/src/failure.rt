// Why nothing is answered.
use notation::read::NoWord;
use std::alloc::AllocFailed;
use std::io;

// Below, one `From` for each error that `?` meets: it converts in one step, and no one impl can stand for several types.

// Why a file gave no words.
#[derive(Debug, Drop)]
pub enum Unread {
    Io(io::Error),
    NoWord(NoWord),
}

impl From<io::Error> for Unread {
    fn from(why: io::Error) -> Self {
        Unread::Io(why)
    }
}

impl From<NoWord> for Unread {
    fn from(why: NoWord) -> Self {
        Unread::NoWord(why)
    }
}

impl<T: Drop> From<AllocFailed<T>> for Unread {
    fn from(why: AllocFailed<T>) -> Self {
        Unread::Io(io::Error::from(why))
    }
}

// What ended the program: its arguments are wrong, a file could not be read, or a print failed or memory ran out.
#[derive(Debug, Drop)]
pub enum Failure<'a> {
    Usage,
    Unread { path: &'a str, why: Unread },
    Io(io::Error),
}

impl<'a> From<io::Error> for Failure<'a> {
    fn from(why: io::Error) -> Self {
        Failure::Io(why)
    }
}

impl<'a, T: Drop> From<AllocFailed<T>> for Failure<'a> {
    fn from(why: AllocFailed<T>) -> Self {
        Failure::Io(io::Error::from(why))
    }
}
