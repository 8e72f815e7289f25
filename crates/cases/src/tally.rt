// How many calls or steps there are, how many are wrong, and how many came to each of N numbers.
ghost use Rattle.std.specs.Prelude.{◌≡◌, ◌+◌, ◌<◌, ◌≤◌, if◌then◌else◌, min, replicate, slice_index, slice_set};

use std::fmt;

#[derive(Debug, Drop)]
pub struct Tally<const N: usize> {
    pub total: u32,
    pub wrong: u32,
    pub numbers: [u32; N],
}

// Counts stop at a million.
pub const MOST: u32 = 1_000_000;

fn one_more(n: u32) -> u32
    ensures { result ≡ min (n + 1) MOST }
{
    n.saturating_add(1).min(MOST)
}

impl<const N: usize> Tally<N> {
    pub fn new() -> Self
        ensures total { result.total ≡ 0 }
        ensures wrong { result.wrong ≡ 0 }
        ensures numbers { result.numbers ≡ replicate N 0 }
    {
        Tally {
            total: 0,
            wrong: 0,
            numbers: [0; N],
        }
    }

    // Counts what came to a number, and whether that is right.
    pub fn count(&mut self, number: u32, right: bool)
        ensures total { self.new.total ≡ min (self.old.total + 1) MOST }
        ensures wrong { self.new.wrong ≡ (if right then self.old.wrong else min (self.old.wrong + 1) MOST) }
        ensures counted { number < N → self.new.numbers ≡
            slice_set self.old.numbers number (min (slice_index self.old.numbers number + 1) MOST) }
        ensures passed_over { N ≤ number → self.new.numbers ≡ self.old.numbers }
    {
        self.total = one_more(self.total);
        let k = number as usize;
        if k < N {
            self.numbers[k] = one_more(self.numbers[k]);
        }
        if !right {
            self.wrong = one_more(self.wrong);
        }
    }
}

// A line for the wrong ones, and one for each number.
impl<const N: usize> fmt::Display for Tally<N> {
    fn fmt<W: fmt::Write>(&self, f: &mut fmt::Formatter<W>) -> fmt::Result {
        writeln!(f, "wrong {}", self.wrong)?;
        for (number, n) in self.numbers.iter().enumerate() {
            writeln!(f, "{number}: {n}")?;
        }
        Ok(())
    }
}
