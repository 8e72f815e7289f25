// Edges within components: vis is not applied to them. What reaches what is spread from the nodes themselves along all edges; an edge whose end
// reaches its start is then open whatever its vis.
ghost use Rattle.std.specs.Prelude.{◌≡◌, true, ◌+◌, ◌*◌, ◌≤◌, ◌<◌, length};
ghost use Rattle.candidates.specs.Layout.{rows_links, rows_end};
ghost use Rattle.candidates.specs.Bits.{on};
ghost use Rattle.candidates.specs.Inner.{Selves, InnerStep, InnerRow, InnerAll};

use crate::layout;
use crate::rows::{next_on, on, set_bit};

// Every node reaches itself.
pub fn selves(ws: &mut [u32], n: usize)
    requires { (n ≤ 384) × (rows_end ≤ length ws.old) }
    ensures { Selves n ws.old ws.new }
{
    for x in 0..n {
        set_bit(ws, layout::REACH + layout::ROW * x, x);
    }
}

// Opens the edge from x to y where y reaches x.
fn inner_edge(ws: &mut [u32], x: usize, y: usize)
    requires { (x < 384) × (y < 384) × (rows_end ≤ length ws.old) × (on ws.old (rows_links + 12 * x) y ≡ true) }
    ensures { InnerStep x y ws.old ws.new }
{
    if on(ws, layout::REACH + layout::ROW * y, x) {
        set_bit(ws, layout::OPEN + layout::ROW * x, y);
    }
}

// Opens the edges from x that stay in its component. The next edge is looked for in the workspace that the body writes, so that no iterator can hold it.
fn inner_row(ws: &mut [u32], n: usize, x: usize)
    requires { (n ≤ 384) × (x < n) × (rows_end ≤ length ws.old) }
    ensures { InnerRow n x ws.old ws.new }
{
    let row = layout::LINKS + layout::ROW * x;
    let mut next = next_on(ws, row, 0, n);
    while let Some(y) = next {
        inner_edge(ws, x, y);
        next = next_on(ws, row, y + 1, n);
    }
}

// Opens the edges that stay in a component.
pub fn inner(ws: &mut [u32], n: usize)
    requires { (n ≤ 384) × (rows_end ≤ length ws.old) }
    ensures { InnerAll n n ws.old ws.new }
{
    for x in 0..n {
        inner_row(ws, n, x);
    }
}
