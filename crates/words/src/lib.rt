// Words of a lent slice: the word at a place, a record as a part of the slice, the records of a chain, clearing and copying.
// Every reader is total: past the end a word is 0 and a record is empty.
#![tactic(auto)]

ghost use Rattle.std.specs.Prelude.{◌≡◌, ◌+◌, length};
ghost use Rattle.std.specs.Iterator.{YieldsFirst, item_count};
ghost use Rattle.rules.specs.Lists.{Words};
ghost use Rattle.rules.specs.Sheet.{at, record_words, chain, chain_of};
ghost use Rattle.rules.specs.Layout.{node_length};
ghost use Rattle.words.specs.Buffers.{holder, cleared, copied};

use std::marker::Model;

// The words of a type node's record.
const NODE_LENGTH: usize = 5;

// The word at a place; 0 past the end.
pub fn word(s: &[u32], i: usize) -> u32
    ensures { result ≡ at s.now i }
{
    s.get(i).copied().unwrap_or(0)
}

// The word k places past a place; 0 past the end.
pub fn offset(s: &[u32], p: usize, k: usize) -> u32
    ensures { result ≡ at s.now (p + k) }
{
    if k < s.len() {
        if p < s.len() - k {
            return s[p + k];
        }
    }
    0
}

// The place that the word at a place names, as a head or a next does.
pub fn next(s: &[u32], i: usize) -> usize
    ensures { result ≡ at s.now i }
{
    wide(word(s, i))
}

// A word as an index. It says no more than `as usize`, and stays as a name that other crates use.
pub fn wide(w: u32) -> usize
    ensures { result ≡ w }
{
    w as usize
}

// The words of the record at a place: the caller's own, from its index for its length.
pub fn record(s: &[u32], at: usize, len: usize) -> &[u32]
    ensures { result.now ≡ record_words s.now at len }
{
    if at <= s.len() {
        if len <= s.len() - at {
            &s[at..at + len]
        } else {
            &s[..0]
        }
    } else {
        &s[..0]
    }
}

// The type node at a place, from the sheet or from the question, whichever holds it: document 01 gives both slices, and says by a flag which is meant.
pub fn node_record<'a>(sheet: &'a [u32], question: &'a [u32], asked: bool, at: usize) -> &'a [u32]
    ensures { result.now ≡ record_words (holder asked sheet.now question.now) at node_length }
{
    if asked {
        record(question, at, NODE_LENGTH)
    } else {
        record(sheet, at, NODE_LENGTH)
    }
}

// The records of a chain that are left, each by its place: at most `left` of them, the first at `at`.
#[derive(Drop)]
pub struct Chain<'a> {
    sheet: &'a [u32],
    at: usize,
    left: usize,
}

// Seen as the list of these places.
impl<'a> Model for Chain<'a> {
    ghost Value = { Words };

    ghost view = { λ r. chain_of r.left r.sheet.now r.at };
}

impl<'a> Iterator for Chain<'a> {
    type Item = usize;

    ghost next_gives = { YieldsFirst (λ places. places) };

    ghost remaining = { item_count (λ places. places) };

    fn next(&mut self) -> Option<usize> {
        if self.left == 0 || self.at == 0 {
            return None;
        }
        let here = self.at;
        self.at = next(self.sheet, here);
        self.left -= 1;
        Some(here)
    }
}

// The records of the chain from a head, each by its place.
pub fn records(sheet: &[u32], head: usize) -> Chain<'_>
    ensures { result ≡ chain sheet.now head }
{
    Chain {
        sheet,
        at: head,
        left: sheet.len(),
    }
}

// The place of record `id` of the chain from a head; 0 where the chain has no such record.
pub fn place(s: &[u32], head: usize, id: usize) -> usize
    ensures { result ≡ at (chain s.now head) id }
{
    records(s, head).nth(id).unwrap_or(0)
}

// How many records the chain from a head has.
pub fn chain_length(s: &[u32], head: usize) -> usize
    ensures { result ≡ length (chain s.now head) }
{
    records(s, head).count()
}

// Clears the first n words of a buffer, or all of it where it is shorter.
pub fn clear(ws: &mut [u32], n: usize)
    ensures { ws.new ≡ cleared n ws.old }
{
    let end = n.min(ws.len());
    ws[..end].fill(0);
}

// Copies the first n words of one buffer over those of another, as far as both go.
pub fn copy(from: &[u32], to: &mut [u32], n: usize)
    ensures { to.new ≡ copied n from.now to.old }
{
    let end = n.min(from.len()).min(to.len());
    to[..end].copy_from_slice(&from[..end]);
}
