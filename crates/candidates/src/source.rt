// The source: its ancestors as marks of definitions, the first 128 words of the workspace, and which vis lets it in.
ghost use Rattle.std.specs.Prelude.{◌≡◌, ◌≤◌, ◌<◌, length};
ghost use Rattle.candidates.specs.Layout.{candidates_length};
ghost use Rattle.candidates.specs.Index.{Indexes};
ghost use Rattle.candidates.specs.Source.{Marked, Climbed, Sourced, seen};

use crate::index::Records;
use crate::layout;
use chart::layout::DEFINITION_PARENT;

// Marks a definition.
fn mark(ws: &mut [u32], d: usize)
    requires { 128 ≤ length ws.old }
    ensures { Marked ws.old ws.new d }
{
    if d < layout::MARKS {
        ws[d] = 1;
    }
}

// Marks the ancestors of a definition: no more than there are definitions.
fn climb(s: &[u32], ws: &mut [u32], src: usize)
    requires { (length s.now ≤ 4096) × (candidates_length ≤ length ws.old) × Indexes s.now ws.old }
    ensures { Climbed s.now src ws.old ws.new }
{
    let mut d = src;
    let n = Records { s, ws }.definitions();
    for _ in 0..n {
        mark(ws, d);
        let parent = Records { s, ws }.definition(d, DEFINITION_PARENT) as usize;
        if parent == 0 {
            return;
        }
        d = parent - 1;
    }
}

// Marks the ancestors of the source, and no other definition.
pub fn source(s: &[u32], ws: &mut [u32], src: usize)
    requires { (length s.now ≤ 4096) × (candidates_length ≤ length ws.old) × Indexes s.now ws.old }
    ensures { Sourced s.now src ws.old ws.new }
{
    words::clear(ws, layout::MARKS);
    climb(s, ws, src);
}

// `visible`: a vis is public or names one of the source's ancestors.
pub fn visible(ws: &[u32], vis: u32) -> bool
    ensures { result ≡ seen ws.now vis }
{
    match (vis as usize).checked_sub(1) {
        None => true,
        Some(a) => a < layout::MARKS && words::word(ws, a) == 1,
    }
}
