// Which impls the sets of candidates admit for a source: nodes and edges, components, what a set admits (`finder/candidates.rs`).
// `build` fills the part of the workspace that belongs to a source (34,948 words); `find::next_candidate` and `find::next_admitted` read it.
#![tactic(auto)]

ghost use Rattle.std.specs.Prelude.{◌≡◌, ◌*◌, ◌≤◌, ◌<◌, length};
ghost use Rattle.rules.specs.Layout.{header_definitions};
ghost use Rattle.rules.specs.Sheet.{many};
ghost use Rattle.rules.specs.CheckLaws.{Checked};
ghost use Rattle.candidates.specs.Layout.{candidates_length};
ghost use Rattle.candidates.specs.Links.{LinkingAll};
ghost use Rattle.candidates.specs.Spread.{Kindred};
ghost use Rattle.candidates.specs.Sets.{BindingAll};
ghost use Rattle.candidates.specs.Build.{Prepared, Connected, Filled, Candidates};

pub mod find;
pub mod index;
mod inner;
pub mod layout;
mod links;
mod order;
mod rows;
mod sets;
mod source;

// Clears the rows, writes the indexes and marks the source's ancestors.
fn prepare(s: &[u32], ws: &mut [u32], src: usize)
    requires { (length s.now ≤ 4096) × (candidates_length ≤ length ws.old) }
    ensures { Prepared s.now src ws.new }
{
    words::clear(ws, layout::ROWS_END);
    index::index_all(s, ws);
    source::source(s, ws, src);
}

// The edges of n definitions, what reaches what along them, and the edges that the source may take.
fn connect(s: &[u32], ws: &mut [u32], n: usize)
    requires { LinkingAll n s.now ws.old }
    ensures { Connected s.now n ws.old ws.new }
{
    links::link_all(s, ws, n);
    inner::selves(ws, 3 * n);
    rows::spread(ws, 3 * n, layout::LINKS);
    inner::inner(ws, 3 * n);
}

// What the nodes of n definitions bind, and what they get to along the edges that the source may take.
fn fill(s: &[u32], ws: &mut [u32], n: usize)
    requires { BindingAll n s.now ws.old × Kindred (3 * n) ws.old }
    ensures { Filled s.now n ws.old ws.new }
{
    sets::bind_all(s, ws, n);
    rows::spread(ws, 3 * n, layout::OPEN);
}

// The candidate sets of all nodes for a source.
pub fn build(s: &[u32], ws: &mut [u32], src: usize)
    requires { Checked s.now × (length s.now ≤ 4096) × (src < many s.now header_definitions) × (candidates_length ≤ length ws.old) }
    ensures { Candidates s.now src ws.new }
{
    prepare(s, ws, src);
    let n = words::next(ws, layout::DEFINITIONS);
    connect(s, ws, n);
    fill(s, ws, n);
}
