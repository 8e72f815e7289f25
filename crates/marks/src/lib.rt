// The chain rule for one record, wherever it stands.
#![tactic(auto)]

ghost use Rattle.std.specs.Prelude.{◌≡◌};
ghost use Rattle.rules.specs.Chains.{record_keeps};

// The record at a place, of len words, ends within the slice, and its next is zero or past it.
pub fn keeps(s: &[u32], len: usize, i: usize) -> bool
    ensures { result ≡ record_keeps s.now len i }
{
    if s.len() < len || s.len() - len < i {
        return false;
    }
    let next = words::next(s, i);
    next == 0 || i + len <= next
}
