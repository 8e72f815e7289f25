// Candidates by id from the sets that stand in the workspace: `get_candidates` for a trait, a basic flag and some nodes, and what one node's set admits.
ghost use Rattle.std.specs.Prelude.{◌≡◌, ◌<◌};
ghost use Rattle.candidates.specs.Index.{Indexes};
ghost use Rattle.candidates.specs.Find.{in_some, wanted, tested, CandidateFrom, AdmittedFrom};

use crate::index::Records;
use crate::layout;
use crate::rows::on;
use chart::layout::{FLAG_BASIC, IMPL_TRAIT};

// The set of some node among these has impl i.
fn in_some(ws: &[u32], nodes: &[u32], i: usize) -> bool
    ensures { result ≡ in_some ws.now nodes.now i }
{
    nodes.iter().any(|node| on(ws, layout::SETS + layout::ROW * *node as usize, i))
}

impl<'a> Records<'a> {
    // Impl i is of a trait, and basic or not as asked.
    fn wanted(self, t: usize, basic: bool, i: usize) -> bool
        ensures { result ≡ wanted self.entry.s.now t basic i }
    {
        match (self.impl_word(i, IMPL_TRAIT) as usize).checked_sub(1) {
            Some(u) => u == t && self.impl_flag(i, FLAG_BASIC) == basic,
            None => false,
        }
    }

    // Impl i is a candidate of a trait and a basic flag from some nodes.
    fn candidate(self, nodes: &[u32], t: usize, basic: bool, i: usize) -> bool
        ensures { result ≡ tested self.entry.s.now self.entry.ws.now nodes.now t basic i }
    {
        self.wanted(t, basic, i) && in_some(self.ws, nodes, i)
    }
}

// The next of the candidates of a trait and a basic flag from some nodes, from an id on.
pub fn next_candidate(
    s: &[u32],
    ws: &[u32],
    nodes: &[u32],
    t: usize,
    basic: bool,
    from: usize,
) -> Option<usize>
    requires { Indexes s.now ws.now }
    ensures { CandidateFrom s.now ws.now nodes.now t basic from result }
{
    let records = Records { s, ws };
    (from..records.impls()).find(|i| records.candidate(nodes, t, basic, *i))
}

// The next of the impls that the set of a node admits, from an id on.
pub fn next_admitted(s: &[u32], ws: &[u32], node: usize, from: usize) -> Option<usize>
    requires { Indexes s.now ws.now × (node < 384) }
    ensures { AdmittedFrom s.now ws.now node from result }
{
    (from..Records { s, ws }.impls()).find(|i| on(ws, layout::SETS + layout::ROW * node, *i))
}
