// Stored cases: little-endian words read from a source, a case at a time, and how many came to what. oracle/stored/README.md says how they are laid out.
#![tactic(auto)]

ghost use Rattle.std.specs.Prelude.{◌≡◌, ◌≢◌, ◌↔◌, ◌<◌, ◌≤◌, ◌^◌, IfOk, IfSome, IfNone, take, drop, vec_len};
ghost use Rattle.refusals.specs.Numbers.{number_of};
ghost use Rattle.cases.specs.Word.{TakesWord, TakesWords};

use refusals::Refusal;
use std::alloc::Global;
use std::io;
use std::io::{ErrorKind, Read};

mod tally;

pub use tally::{MOST, Tally};

// The most words that are read of a sheet or a question.
const SLICE: usize = 8192;

// The next word, if there is one.
fn next_word<R: Read>(source: &mut R) -> io::Result<Option<u32>>
    ensures { IfOk result (λ word. IfSome word (TakesWord (R.remaining source.old) (R.remaining source.new))) }
{
    let mut bytes = [0u8; 4];
    match source.read_exact(&mut bytes) {
        Ok(()) => Ok(Some(u32::from_le_bytes(bytes))),
        Err(why) if why.kind() == ErrorKind::UnexpectedEof => Ok(None),
        Err(why) => Err(why),
    }
}

// The next word; 0 at the end.
pub fn read_word<R: Read>(source: &mut R) -> io::Result<u32>
    ensures { IfOk result (λ word. word ≢ 0 → TakesWord (R.remaining source.old) (R.remaining source.new) word) }
{
    Ok(next_word(source)?.unwrap_or(0))
}

// Reads n words into the front of a buffer, or as many as it has room for.
#[tactic(auto, using(crate::proofs::Words::takes_set, crate::proofs::Words::behind_set, crate::proofs::Words::behind_on))]
pub fn read_words<R: Read>(source: &mut R, buf: &mut [u32], n: usize) -> io::Result<()>
    ensures words { IfOk result (λ _. TakesWords (R.remaining source.old) (R.remaining source.new) (take n buf.new)) }
    ensures behind { drop n buf.new ≡ drop n buf.old }
{
    for i in 0..n.min(buf.len()) {
        buf[i] = read_word(source)?;
    }
    Ok(())
}

// Words behind their number, of which no more are read than so many; 0 for those that the source ends before.
pub fn read_row<R: Read>(alloc: Global, source: &mut R, most: usize) -> io::Result<Vec<u32>>
    ensures { IfOk result (λ words. (vec_len words < 2 ^ 32) × (vec_len words ≤ most)) }
{
    let n = read_word(source)?;
    let mut words = Vec::new(alloc);
    for _ in 0..most.min(n as usize) {
        let word = read_word(source)?;
        words.push(word)?;
    }
    Ok(words)
}

// Which call is made.
#[derive(Clone, Copy, Debug, PartialEq, Eq)]
pub enum Form {
    Impl { basic: u32 },
    Flex,
    Listing,
}

impl Form {
    fn new(form: u32, basic: u32) -> Self
        ensures impls { form ≡ 0 → result ≡ Form.Impl basic }
        ensures listings { form ≡ 2 ↔ (result ≡ Form.Listing) }
    {
        match form {
            0 => Form::Impl { basic },
            2 => Form::Listing,
            _ => Form::Flex,
        }
    }
}

// How many words of the answer buffer and of the workspace are lent.
#[derive(Clone, Copy, Debug, PartialEq, Eq)]
pub struct Lent {
    pub answer: usize,
    pub workspace: usize,
}

impl Lent {
    fn read<R: Read>(source: &mut R) -> io::Result<Self> {
        Ok(Lent {
            answer: read_word(source)? as usize,
            workspace: read_word(source)? as usize,
        })
    }
}

// Who asks.
#[derive(Clone, Copy, Debug, PartialEq, Eq)]
pub struct Asker {
    pub source: u32,
    pub generics: u32,
}

impl Asker {
    fn read<R: Read>(source: &mut R) -> io::Result<Self> {
        Ok(Asker {
            source: read_word(source)?,
            generics: read_word(source)?,
        })
    }
}

// What a call comes to: why it is turned away, if it is, and the count after it.
#[derive(Clone, Copy, Debug, PartialEq, Eq)]
pub struct End {
    pub refusal: Option<Refusal>,
    pub count: u32,
}

impl End {
    fn read<R: Read>(source: &mut R) -> io::Result<Option<Self>> {
        let number = read_word(source)?;
        let count = read_word(source)?;
        let refusal = Refusal::from_number(number);
        if number != 0 && refusal.is_none() {
            return Ok(None);
        }
        Ok(Some(End { refusal, count }))
    }
}

// The number of a refusal; 0 where there is none.
pub fn number(refusal: Option<Refusal>) -> u32
    ensures passed { IfNone refusal (result ≡ 0) }
    ensures refused { IfSome refusal (λ refusal. result ≡ number_of refusal) }
{
    refusal.map_or(0, |refusal| refusal.number())
}

// A call with its end as they are stored, none where the stored number is no refusal's; the words of its answer follow it.
#[derive(Debug, Drop)]
pub struct Call {
    pub form: Form,
    pub lent: Lent,
    pub question: Vec<u32>,
    pub end: Option<End>,
}

impl Call {
    // What is behind the words that say how a call is made.
    fn read_behind<R: Read>(
        alloc: Global,
        source: &mut R,
        form: Form,
        lent: Lent,
    ) -> io::Result<Self>
        ensures { IfOk result (λ call. vec_len call.question ≤ SLICE) }
    {
        Ok(Call {
            form,
            lent,
            question: read_row(alloc, source, SLICE)?,
            end: End::read(source)?,
        })
    }

    // The next call of a sitting.
    pub fn read<R: Read>(alloc: Global, source: &mut R) -> io::Result<Self>
        ensures { IfOk result (λ call. vec_len call.question ≤ SLICE) }
    {
        let form = Form::new(read_word(source)?, read_word(source)?);
        let lent = Lent::read(source)?;
        Call::read_behind(alloc, source, form, lent)
    }
}

// A call from a count on a sheet of its own.
#[derive(Debug, Drop)]
pub struct Case {
    pub asker: Asker,
    pub count: u32,
    pub sheet: Vec<u32>,
    pub call: Call,
}

impl Case {
    pub fn read<R: Read>(alloc: Global, source: &mut R) -> io::Result<Self>
        ensures { IfOk result (λ case. (vec_len case.sheet ≤ SLICE) × (vec_len case.call.question ≤ SLICE)) }
    {
        let _length = read_word(source)?;
        let form = read_word(source)?;
        let asker = Asker::read(source)?;
        let form = Form::new(form, read_word(source)?);
        let count = read_word(source)?;
        let lent = Lent::read(source)?;
        let sheet = read_row(alloc, source, SLICE)?;
        let call = Call::read_behind(alloc, source, form, lent)?;
        Ok(Case {
            asker,
            count,
            sheet,
            call,
        })
    }
}

// What the calls of a sitting share: who asks, the count that the first begins with, and the sheet. How many calls there are follows it, and then the calls.
#[derive(Debug, Drop)]
pub struct Sitting {
    pub asker: Asker,
    pub count: u32,
    pub sheet: Vec<u32>,
}

impl Sitting {
    pub fn read<R: Read>(alloc: Global, source: &mut R) -> io::Result<Self>
        ensures { IfOk result (λ sitting. vec_len sitting.sheet ≤ SLICE) }
    {
        let _length = read_word(source)?;
        Ok(Sitting {
            asker: Asker::read(source)?,
            count: read_word(source)?,
            sheet: read_row(alloc, source, SLICE)?,
        })
    }
}
