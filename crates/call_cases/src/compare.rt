// What a call gives beside what is stored of it.
ghost use Rattle.std.specs.Prelude.{◌≡◌, ◌↔◌, Some, IsTrue, IfNone, All, length, take, drop};

use cases::{Call, End};

// What buffers are full of before a call.
const MARK: u32 = 0xaaaa_aaaa;

// The words of the answer buffer; no more are read of a stored answer.
pub const ANSWER: usize = 10304;

// What a call came to, and whether all of it is what is stored.
#[derive(Clone, Copy, Debug, PartialEq, Eq)]
pub struct Seen {
    pub end: End,
    pub right: bool,
}

// Whether a buffer holds nothing but a word. With `all` the program took a quarter to a third more time: it goes over the whole workspace for each call.
fn holds(buffer: &[u32], word: u32) -> bool
    ensures { IsTrue result ↔ All (λ w. w ≡ word) buffer.now }
{
    for &w in buffer {
        if w != word {
            return false;
        }
    }
    true
}

// Whether the answer buffer begins with the stored words, with nothing written behind them; there are none for a refusal.
fn answer_holds(stored: &[u32], answer: &[u32]) -> bool
    ensures { IsTrue result ↔ ((take (length stored.now) answer.now ≡ stored.now)
        × All (λ w. w ≡ MARK) (drop (length stored.now) answer.now)) }
{
    answer
        .strip_prefix(stored)
        .is_some_and(|rest| holds(rest, MARK))
}

// Whether the workspace is untouched by a refusal at entry, 1 to 5, and else cleared.
fn workspace_holds(end: End, workspace: &[u32]) -> bool
    ensures { IfNone end.refusal (IsTrue result ↔ All (λ w. w ≡ 0) workspace.now) }
{
    let untouched = end.refusal.is_some_and(|refusal| refusal.number() <= 5);
    holds(workspace, if untouched { MARK } else { 0 })
}

// Makes a stored call on buffers full of marks, of which it says how much is lent, and compares what it gives with what is stored.
pub fn replay<F: FnOnce(&mut [u32], &mut [u32]) -> End>(
    call: &Call,
    stored: &[u32],
    workspace: &mut [u32],
    make: F,
) -> Seen
    requires { (answer : _) (work : _) → F.pre make answer work }
    ensures { IsTrue result.right → Some result.end ≡ call.now.end }
{
    let mut answer = [MARK; ANSWER];
    workspace.fill(MARK);
    let most = call.lent.answer.min(answer.len());
    let lent = call.lent.workspace.min(workspace.len());
    let end = make(&mut answer[..most], &mut workspace[..lent]);
    let right = Some(end) == call.end
        && answer_holds(stored, &answer)
        && workspace_holds(end, workspace);
    Seen { end, right }
}
