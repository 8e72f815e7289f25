// Labels: for each ref 0, which is not set, or 1 and the ref that stands for its class.
ghost use Rattle.std.specs.Prelude.{◌≡◌, ◌+◌, ◌%◌, ◌≤◌};
ghost use Rattle.rules.specs.Sheet.{at};
ghost use Rattle.loose.specs.Loose.{Labelled, RefsAlike, SameLabels};

use refs::{RECORDS, find};
use table::Row;

#[derive(Drop)]
pub struct Labels {
    pub of: [u32; 2048],
}

impl Labels {
    // The label of a ref.
    pub fn get(&self, r: u32) -> u32
        ensures { result ≡ at self.now.of (r % 2048) }
    {
        self.of[r as usize % 2048]
    }

    // The label of a ref, which becomes x where it is not set.
    pub fn get_or_set(&mut self, r: u32, x: u32) -> u32
        ensures { Labelled self.old.of r self.new.of result }
    {
        let i = r as usize % 2048;
        if self.of[i] == 0 {
            self.of[i] = x;
        }
        self.of[i]
    }

    // Whether two refs are labelled alike; y stands for itself where it has no label, and x has that of y where it has none.
    pub fn are_alike(&mut self, x: u32, y: u32) -> bool
        ensures { RefsAlike self.old.of x y self.new.of result }
    {
        let b = self.get_or_set(y, y % 2048 + 1);
        b != 0 && self.get_or_set(x, b) == b
    }

    // Whether the types of two rows of one length are labelled alike.
    pub fn are_alike_in(&mut self, xs: &Row, ys: &Row) -> bool
        requires { xs.now.n ≤ 8 }
        ensures { SameLabels self.old.of xs.now.n xs.now.types ys.now.types self.new.of result }
    {
        for j in 0..xs.n {
            if !self.are_alike(xs.types[j] / 2, ys.types[j] / 2) {
                return false;
            }
        }
        true
    }

    // Labels n refs from one on by their roots.
    pub fn set_from(&mut self, links: &[u32; 2048], from: u32, n: u32)
        requires { from + n ≤ 2048 }
    {
        for r in from..from + n {
            let i = r as usize;
            self.of[i] = if links[i] == 0 {
                r + 1
            } else {
                find(links, 2 * r) / 2 % 2048 + 1
            };
        }
    }

    // Labels those of n records that have a link, and their roots.
    pub fn set_linked(&mut self, links: &[u32; 2048], n: u32)
        requires { n ≤ 1024 }
    {
        for r in RECORDS..RECORDS + n {
            if links[r as usize] != 0 {
                let z = find(links, 2 * r) / 2 % 2048;
                self.of[r as usize] = z + 1;
                self.of[z as usize] = z + 1;
            }
        }
    }
}
