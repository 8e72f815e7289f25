// What is noted of a chain as a whole, and the pass from the slice's end that notes it for the chain from every place.
ghost use Rattle.std.specs.Prelude.{ℕ, ◌≡◌, ◌+◌, ◌≤◌, length};
ghost use Rattle.rules.specs.Limits.{limit_sheet};
ghost use Rattle.values.specs.Folds.{longer, chain_mark, chain_length, Folded, Runs, Right};

use crate::limits;

// What the plane from b says of the chain from a head: 0 where there is none, or where it lies past a plane's end.
pub fn chain_mark(ws: &[u32], b: usize, h: usize) -> u32
    ensures { result ≡ chain_mark ws.now b h }
{
    if h == 0 || limits::PLANE <= h {
        return 0;
    }
    words::offset(ws, b, h)
}

// The same, as an index.
pub fn chain_count(ws: &[u32], b: usize, h: usize) -> usize
    ensures { result ≡ chain_mark ws.now b h }
{
    chain_mark(ws, b, h) as usize
}

// One record more: never more than a slice has words.
fn longer(m: u32) -> u32
    ensures { result ≡ longer m }
{
    if m < limits::PLANE_WORD { m + 1 } else { m }
}

// What the plane from b, which is there, says of the chain from a head: `chain_mark` by one read. Tried with `chain_mark` in its place,
// the passes take a sixth more instructions.
fn mark_noted(ws: &[u32], b: usize, h: usize) -> u32
    requires { b + limit_sheet ≤ length ws.now }
    ensures { result ≡ chain_mark ws.now b h }
{
    if h == 0 || limits::PLANE <= h {
        return 0;
    }
    ws[b + h]
}

// Notes, in the plane from b, what `step` makes of each place and of what is noted of its next.
pub fn note<F: Fn(&[u32], usize, u32) -> u32>(w: &[u32], ws: &mut [u32], b: usize, step: F)
    requires room { (length w.now ≤ limit_sheet) × (b + limit_sheet ≤ length ws.old) }
    requires runs { Runs b ws.old (F.pre step) }
    ensures { (g : ℕ → ℕ) → g 0 ≡ 0 → Right w.now b ws.old g (F.post step) → Folded w.now b g 1 ws.old ws.new }
{
    for i in (1..w.len()).rev() {
        let next = mark_noted(ws, b, words::next(w, i));
        let r = step(ws, i, next);
        ws[b + i] = r;
    }
}

// Notes, in the plane from b, how many records the chain from each place has.
pub fn note_lengths(s: &[u32], ws: &mut [u32], b: usize)
    requires { (length s.now ≤ limit_sheet) × (b + limit_sheet ≤ length ws.old) }
    ensures { Folded s.now b (chain_length s.now) 1 ws.old ws.new }
{
    note(s, ws, b, |_, _, next| longer(next));
}
