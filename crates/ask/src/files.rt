// Files of decimal words.
use crate::failure::{Failure, Unread};
use notation::read::{NoWord, Reader};
use std::alloc::{AllocFailed, Global};
use std::io::{ErrorKind, Read};
use std::rt::Files;
use std::{fs, io};

// How often a file is read, 4,096 bytes at a time.
const READS: u32 = 1_000_000;

// What is read of a text: words, as many as are kept, up to something that is none.
#[derive(Debug, Drop)]
struct Text {
    words: Vec<u32>,
    most: usize,
    reader: Reader,
    wrong: Option<NoWord>,
}

impl Text {
    fn new(alloc: Global, most: usize) -> Self {
        Text {
            words: Vec::new(alloc),
            most,
            reader: Reader::new(),
            wrong: None,
        }
    }

    // Keeps a word, where there is one and room for it.
    fn keep(&mut self, word: Option<u32>) -> Result<(), AllocFailed<u32>> {
        match word {
            Some(word) if self.words.len() < self.most => self.words.push(word),
            _ => Ok(()),
        }
    }

    // Reads some bytes more; behind what is no word nothing counts.
    fn read(&mut self, bytes: &[u8]) -> Result<(), AllocFailed<u32>> {
        for &b in bytes {
            if self.wrong.is_none() {
                match self.reader.read(b) {
                    Ok(word) => self.keep(word)?,
                    Err(why) => self.wrong = Some(why),
                }
            }
        }
        Ok(())
    }

    // The words of a text that ends here.
    fn finish(mut self) -> Result<Vec<u32>, Unread> {
        if let Some(why) = self.wrong {
            return Err(Unread::NoWord(why));
        }
        let last = self.reader.finish();
        self.keep(last)?;
        Ok(self.words)
    }
}

// The words of a source, which is read to its end.
fn words_of<R: Read>(alloc: Global, source: &mut R, most: usize) -> Result<Vec<u32>, Unread> {
    let mut text = Text::new(alloc, most);
    let mut buf = [0u8; 4096];
    for _ in 0..READS {
        let n = source.read(&mut buf)?;
        if n == 0 {
            return text.finish();
        }
        text.read(&buf[..n])?;
    }
    Err(Unread::Io(io::Error::from(ErrorKind::FileTooLarge)))
}

fn open_and_read(
    rt: &(impl Files + AllocGlobal),
    path: &str,
    most: usize,
) -> Result<Vec<u32>, Unread> {
    let mut file = fs::open(rt, path)?;
    words_of(rt.alloc(), &mut file, most)
}

// The words of a file, of which no more are kept than so many.
pub fn read_file<'a>(
    rt: &(impl Files + AllocGlobal),
    path: &'a str,
    most: usize,
) -> Result<Vec<u32>, Failure<'a>> {
    open_and_read(rt, path, most).map_err(|why| Failure::Unread { path, why })
}
