// `find_impl_candidates`: the sets that a question's candidates come from, and the candidates one after the other, by id.
// The sets of the source stand in the workspace (`candidates::build`).
#![tactic(auto)]

ghost use Rattle.std.specs.Prelude.{◌≡◌, [], ◌∷◌, ◌++◌, map, ◌+◌, ◌*◌, ◌≤◌, ◌<◌, length};
ghost use Rattle.rules.specs.Transfer.{type_of_word};
ghost use Rattle.rules.specs.Search.{inherent_mods};
ghost use Rattle.table.specs.Packing.{types_of};
ghost use Rattle.candidates.specs.Index.{Indexes};
ghost use Rattle.admitted.specs.Modules.{listed, Puts, Gathers, inherent_mod};
ghost use Rattle.admitted.specs.Found.{Stands, Sets, Finds, Gives};

use candidates::find;
use candidates::index::Records;
use refusals::Refusal;

// The most nodes that candidates come from: a source's, a trait's, and those of four arguments.
const MOST: usize = 6;

// Some nodes: the first n words. A length beside a buffer of fixed size, since the search has no heap and copies what is found.
#[derive(Clone, Copy)]
pub struct Nodes {
    pub n: usize,
    pub words: [u32; MOST],
}

// Where candidates come from: the sets of some nodes, for a trait? and a basic flag.
#[derive(Clone, Copy)]
pub struct Found {
    pub tr: u32,
    pub basic: bool,
    pub nodes: Nodes,
}

impl Nodes {
    // No node.
    fn none() -> Nodes
        ensures { (listed result ≡ []) × (result.n ≡ 0) }
    {
        Nodes {
            n: 0,
            words: [0; MOST],
        }
    }

    // The nodes.
    fn list(&self) -> &[u32]
        requires { self.now.n ≤ 6 }
        ensures { result.now ≡ listed self.now }
    {
        &self.words[..self.n]
    }

    // With one more.
    fn with(mut self, node: u32) -> Nodes
        requires { self.n < 6 }
        ensures { (listed result ≡ listed self ++ node ∷ []) × (result.n ≡ self.n + 1) }
    {
        self.words[self.n] = node;
        self.n += 1;
        self
    }

    // With the node within a definition, if it is one of the sheet's `count` definitions.
    fn with_within(self, count: usize, d: usize) -> Nodes
        requires { (self.n < 6) × (count ≤ 128) }
        ensures { Puts count d self result }
    {
        if d < count {
            self.with((3 * d + 1) as u32)
        } else {
            self
        }
    }
}

// Puts the module of an inherent argument behind some nodes, if it has one.
fn put_module(
    s: &[u32],
    types: &[u32],
    t: u32,
    nodes: Nodes,
    count: usize,
) -> Result<Nodes, Refusal>
    requires { (nodes.n < 6) × (count ≤ 128) }
    ensures { Gathers (inherent_mod s.now (types_of types.now) (type_of_word t)) count 1 nodes result }
{
    if table::kind_of(types, table::root_of(types, t / 2)) == 0 {
        return Err(Refusal::SearchLimit);
    }
    Ok(match walks::get_mod(s, types, t)? {
        Some(d) => nodes.with_within(count, d),
        None => nodes,
    })
}

// Puts the modules of inherent arguments, in order, behind some nodes. The first argument that stops decides.
fn put_modules(
    s: &[u32],
    types: &[u32],
    args: &[u32],
    nodes: Nodes,
    count: usize,
) -> Result<Nodes, Refusal>
    requires { (nodes.n + length args.now ≤ 6) × (count ≤ 128) }
    ensures { Gathers (inherent_mods s.now (types_of types.now) (map type_of_word args.now)) count (length args.now) nodes result }
{
    let mut all = nodes;
    for t in args {
        all = put_module(s, types, *t, all, count)?;
    }
    Ok(all)
}

// The general node of a source.
fn general(src: usize) -> u32
    requires { src < 128 }
    ensures { result ≡ 3 * src + 2 }
{
    (3 * src + 2) as u32
}

// The nodes that the candidates of a trait come from: the source's general one, the one within the trait's definition, and those
// within the modules of the inherent arguments.
fn sets(
    s: &[u32],
    ws: &[u32],
    src: usize,
    types: &[u32],
    t: usize,
    args: &[u32],
) -> Result<Nodes, Refusal>
    requires stands { Stands s.now src ws.now }
    requires args_len_bound { length args.now ≤ 4 }
    ensures { Sets s.now src (types_of types.now) t args.now result }
{
    let records = Records { s, ws };
    let count = records.definitions();
    let own = Nodes::none().with(general(src));
    let two = own.with_within(count, records.trait_def(t) as usize);
    let k = (records.inherent(t) as usize).min(args.len());
    put_modules(s, types, &args[..k], two, count)
}

// `find_impl_candidates`: of a question by its trait?, the type words of its arguments, and basic (1) or not. Basic stays a word: the call's own is handed on,
// the contract is for every word, and a bool would ask of each caller to make one.
pub fn find_impl_candidates(
    s: &[u32],
    ws: &[u32],
    src: usize,
    types: &[u32],
    tr: u32,
    args: &[u32],
    basic: u32,
) -> Result<Found, Refusal>
    requires stands { Stands s.now src ws.now }
    requires args_len_bound { length args.now ≤ 4 }
    ensures { Finds s.now src (types_of types.now) (tr, map type_of_word args.now) basic result }
{
    let basic = basic == 1;
    let Some(t) = (tr as usize).checked_sub(1) else {
        let nodes = Nodes::none();
        return Ok(Found { tr, basic, nodes });
    };
    let nodes = sets(s, ws, src, types, t, args)?;
    Ok(Found { tr, basic, nodes })
}

// The next candidate from an id on.
pub fn next(s: &[u32], ws: &[u32], f: Found, from: usize) -> Option<usize>
    requires indexes { Indexes s.now ws.now }
    requires n_bound { f.nodes.n ≤ 6 }
    ensures { Gives s.now ws.now f from result }
{
    let t = (f.tr as usize).checked_sub(1)?;
    find::next_candidate(s, ws, f.nodes.list(), t, f.basic, from)
}
