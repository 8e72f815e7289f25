// Replays the stored cases of the file that its argument names, steps on two type tables, and prints how many cases it has, how many steps give something else than
// the Rust gave, and how many steps there are of each kind.
#![tactic(auto)]

ghost use Rattle.std.specs.Prelude.{◌≡◌, ◌+◌, ◌≤◌, min, length};
ghost use Rattle.type_cases.specs.Sound.{Sound};

use cases::{MOST, Tally};
use std::alloc::Global;
use std::io::Read;
use std::rt::Files;
use std::{env, io};

pub mod steps; // steps.rt: a stored step

// How many kinds of steps there are.
const STEPS: usize = 10;

// The most words that are read of a sheet, and of a step.
const SHEET: usize = 1024;

const STEP: usize = 8192;

// The nodes of a table, and its words.
const NODES: usize = 256;

const TABLE: usize = 1025;

// What came of a file: how many cases it has, what its steps came to, and the number of the step before, which a step without words goes under.
#[derive(Debug, Drop)]
struct Seen {
    cases: u32,
    steps: Tally<STEPS>,
    number: u32,
}

// One more, as far as counts go.
fn one_more(n: u32) -> u32
    ensures { result ≡ min (n + 1) MOST }
{
    n.saturating_add(1).min(MOST)
}

impl Seen {
    fn new() -> Self {
        Seen {
            cases: 0,
            steps: Tally::new(),
            number: 0,
        }
    }

    // Counts a step; one of number 10 counts as a case too, and one of number 11 as another wrong one.
    fn count(&mut self, o: &[u32], right: bool) {
        self.number = o.first().copied().unwrap_or(self.number);
        match self.number {
            10 => self.cases = one_more(self.cases),
            11 => self.steps.wrong = one_more(self.steps.wrong),
            _ => {}
        }
        self.steps.count(self.number, right);
    }
}

// Makes a step, on the table that it names.
fn step(s: &[u32], o: &[u32], a: &mut [u32], b: &mut [u32], marks: &mut [u32]) -> bool
    requires sound { Sound a.old }
    requires sound_2 { Sound b.old }
    requires in_bounds { 256 ≤ length marks.old }
    ensures first { Sound a.new }
    ensures second { Sound b.new }
{
    match words::word(o, 1) {
        0 => steps::step(s, o, a, b, marks),
        _ => steps::step(s, o, b, a, marks),
    }
}

// Replays n steps from two empty tables. The words of a step and the tables are lent: with a `Vec` for each step and new tables for each case the program took half as many instructions again.
#[tactic(auto, using(crate::specs::Sound::sound_empty))]
fn replay_steps<R: Read>(
    source: &mut R,
    s: &[u32],
    n: u32,
    words: &mut [u32; STEP],
    a: &mut [u32; TABLE],
    b: &mut [u32; TABLE],
    marks: &mut [u32; NODES],
    seen: &mut Seen,
) -> io::Result<()> {
    table::clear_table(a);
    table::clear_table(b);
    for _ in 0..n {
        let length = cases::read_word(source)? as usize;
        cases::read_words(source, words, length)?;
        let o = &words[..length.min(STEP)];
        let right = step(s, o, a, b, marks);
        seen.count(o, right);
    }
    Ok(())
}

// Replays all cases of a file.
fn replay_all<R: Read>(alloc: Global, source: &mut R, seen: &mut Seen) -> io::Result<()> {
    let mut words = [0u32; STEP];
    let mut a = [0u32; TABLE];
    let mut b = [0u32; TABLE];
    let mut marks = [0u32; NODES];
    for _ in 0..cases::read_word(source)? {
        let _length = cases::read_word(source)?;
        let sheet = cases::read_row(alloc, source, SHEET)?;
        let steps = cases::read_word(source)?;
        replay_steps(
            source,
            sheet.as_slice(),
            steps,
            &mut words,
            &mut a,
            &mut b,
            &mut marks,
            seen,
        )?;
        seen.cases = one_more(seen.cases);
    }
    Ok(())
}

// Replays a file, and prints what came of it.
fn run(rt: &(impl Files + Print + Eprint + AllocGlobal), path: &str) -> io::Result<()> {
    let Some(mut source) = programs::open(rt, path)? else {
        return Ok(());
    };
    let mut seen = Seen::new();
    replay_all(rt.alloc(), &mut source, &mut seen)?;
    println!(rt; "{path} cases {}", seen.cases)?;
    print!(rt; "{}", seen.steps)
}

fn main(rt: HostRuntime) -> io::Result<()> {
    let args: Vec<String> = env::args(&rt)?.collect(rt.alloc())?;
    run(&rt, programs::argument(args.as_slice(), 1))
}
