// Tarjan's numbers of a depth-first search: of each node its number and the lowest node that it reaches, of each number its node,
// and the stack of the nodes that are not finished. Only speed depends on them: every reader is total, and what is read is tested before it is used.
ghost use Rattle.std.specs.Prelude.{◌≤◌, ◌<◌};

use crate::layout::NODES;

// Where a node stands in the search; an open node has a number.
#[derive(Clone, Copy, PartialEq, Eq, Debug)]
enum State {
    Unseen,
    Open(u16),
    Finished,
}

// A search of fixed size.
#[derive(Drop)]
pub struct Search {
    states: [State; NODES],
    lowest: [u16; NODES],
    nodes: [u16; NODES],
    stack: [u16; NODES],
    count: usize,
    height: u32,
}

impl Search {
    // No node was seen.
    pub fn new() -> Search {
        Search {
            states: [State::Unseen; NODES],
            lowest: [0; NODES],
            nodes: [0; NODES],
            stack: [0; NODES],
            count: 0,
            height: 0,
        }
    }

    // Whether node x was seen; none past the last was.
    pub fn seen(&self, x: usize) -> bool {
        x < NODES && self.states[x] != State::Unseen
    }

    // The number of node x, where it is open.
    pub fn number(&self, x: usize) -> Option<usize> {
        match self.states.get(x) {
            Some(State::Open(k)) => Some(*k as usize),
            _ => None,
        }
    }

    // How many nodes are not finished.
    pub fn height(&self) -> usize
        ensures { result < 4294967296 }
    {
        self.height as usize
    }

    // The node at a height of the stack.
    pub fn stacked(&self, q: usize) -> Option<usize> {
        self.stack.get(q).map(|y| *y as usize)
    }

    // Gives node x the next number, and puts it on the stack; none where there is no room.
    pub fn enter(&mut self, x: usize) -> Option<usize>
        requires { x < 384 }
    {
        let k = self.count;
        let h = self.height as usize;
        if NODES <= k || NODES <= h {
            return None;
        }
        self.states[x] = State::Open(k as u16);
        self.nodes[k] = x as u16;
        self.stack[h] = x as u16;
        self.count = k + 1;
        self.height += 1;
        Some(k)
    }

    // Takes the stack down to height h.
    pub fn cut(&mut self, h: usize) {
        self.height = h.min(NODES) as u32;
    }

    // Node x is finished.
    pub fn finish(&mut self, x: usize)
        requires { x < 384 }
    {
        self.states[x] = State::Finished;
    }

    // Keeps the node of the lowest number that node x reaches.
    pub fn keep_low(&mut self, x: usize, low: usize)
        requires { x < 384 }
    {
        if low < NODES {
            self.lowest[x] = self.nodes[low];
        }
    }

    // That node; 0 past the last.
    pub fn lowest(&self, x: usize) -> usize
        ensures { result < 4294967296 }
    {
        if x < NODES {
            self.lowest[x] as usize
        } else {
            0
        }
    }
}
