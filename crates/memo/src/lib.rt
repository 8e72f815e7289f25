// A memo of pairs of roots that did not succeed and left the type table as it was, so that no pair is tried twice between two joins.
// It stands in a lent slice behind the marks of the walks, 256 for `occurs` and 256 for `self_inverse`: how many pairs there are, whether the table stands since the pair in hand was begun,
// for each pair its place in the row, and the row. Nothing is asked of the places: a pair counts only where the row has it.
// A slice may be short: what would lie past its end is not kept.
#![tactic(auto)]

ghost use Rattle.std.specs.Prelude.{◌≡◌, ◌≢◌, ◌+◌, ◌*◌, ◌<◌, set, Some};
ghost use Rattle.rules.specs.Sheet.{at};
ghost use Rattle.memo.specs.Memo.{memo_same, entry, Forgets, Starts, Recalls, Adds, Keeps, Ends};
ghost use Rattle.memo.specs.Verdicts.{code_of, kept_code};

mod verdict; // verdict.rt: what a pair comes to

pub use verdict::UnifyResult;

// The words of the marks for `occurs`, and of all marks.
pub const MARKS: usize = 256;

pub const ALL_MARKS: usize = 512;

const COUNT: usize = 512;

const SAME: usize = 513;

const PLACES: usize = 514;

const ROW: usize = 262658;

// As many pairs as there are.
const PAIRS: u32 = 262144;

// Writes a word at a place; nothing past the end.
fn put(ms: &mut [u32], i: usize, w: u32)
    ensures { ms.new ≡ set ms.old i w }
{
    if i < ms.len() {
        ms[i] = w;
    }
}

// Two type words.
#[derive(Clone, Copy)]
pub struct Pair {
    pub x: u32,
    pub y: u32,
    pub ghost left: { x < 512 },
    pub ghost right: { y < 512 },
}

impl Pair {
    // Its number among all pairs.
    fn number(self) -> u32
        ensures { result ≡ 512 * self.x + self.y }
    {
        512 * self.x + self.y
    }

    // Its word of the row, with a verdict.
    fn word(self, v: UnifyResult) -> u32
        ensures { result ≡ entry self.x self.y (code_of v) }
    {
        4 * self.number() + v as u32
    }
}

// A join: no pair is kept, and the table does not stand.
pub fn forget(ms: &mut [u32])
    ensures { Forgets ms.old ms.new }
{
    put(ms, COUNT, 0);
    put(ms, SAME, 0)
}

// The start: no pair is kept, and no mark stands where there is room for all.
pub fn start(ms: &mut [u32])
    ensures { Starts ms.old ms.new }
{
    if ALL_MARKS <= ms.len() {
        words::clear(ms, ALL_MARKS);
    }
    forget(ms)
}

// The verdict that is kept for a pair, which is no success.
pub fn recall(ms: &[u32], pair: Pair) -> Option<UnifyResult>
    ensures kept { Recalls ms.now pair.x pair.y (kept_code result) }
    ensures fails { result ≢ Some UnifyResult.Success }
{
    let n = words::word(ms, COUNT);
    if n == 0 {
        return None;
    }
    let p = words::offset(ms, PLACES, pair.number() as usize);
    if n <= p {
        return None;
    }
    let w = words::offset(ms, ROW, p as usize);
    if w == pair.word(UnifyResult::Failure) {
        Some(UnifyResult::Failure)
    } else if w == pair.word(UnifyResult::Indeterminate) {
        Some(UnifyResult::Indeterminate)
    } else {
        None
    }
}

// Begins a pair: the table stands. Gives back whether it stood before, as the word itself: in a lent slice that may be any number, and `end` puts it back.
pub fn begin(ms: &mut [u32]) -> u32
    ensures before { result ≡ at ms.old memo_same }
    ensures after { ms.new ≡ set ms.old memo_same 1 }
{
    let before = words::word(ms, SAME);
    put(ms, SAME, 1);
    before
}

// Puts a word at the end of the row, for the pair of a number.
fn add(ms: &mut [u32], pair: u32, w: u32)
    requires { pair < 262144 }
    ensures { Adds ms.old ms.new w }
{
    let n = words::word(ms, COUNT);
    if n < PAIRS {
        put(ms, ROW + n as usize, w);
        put(ms, PLACES + pair as usize, n);
        put(ms, COUNT, n + 1);
    }
}

// Keeps a pair with what it comes to, if that is no success.
fn keep(ms: &mut [u32], pair: Pair, v: UnifyResult)
    ensures { Keeps ms.old ms.new pair.x pair.y (code_of v) }
{
    if v != UnifyResult::Success {
        add(ms, pair.number(), pair.word(v));
    }
}

// Ends a pair: kept with what it comes to where the table stands and that is no success.
pub fn end(ms: &mut [u32], before: u32, pair: Pair, v: UnifyResult)
    ensures { Ends ms.old ms.new before pair.x pair.y (code_of v) }
{
    if words::word(ms, SAME) != 1 {
        return;
    }
    keep(ms, pair, v);
    put(ms, SAME, before)
}
