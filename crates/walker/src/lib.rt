// A walker: it stands on one record of a chain and carries the sheet with it. Each method and function over it is thin: a function of `words` on the slice and the place does the work.
// The methods `head`, `nth` and `next` give none behind a chain's end; the functions of these names always give a walker, which stands at 0 there.
// Every reader is total, as in `words`: past the end a word is 0 and a record is empty.
#![tactic(auto)]

ghost use Rattle.std.specs.Prelude.{◌≡◌, ◌+◌, IfSome, eqb};
ghost use Rattle.rules.specs.Sheet.{at as word_at, record_words, chain};

#[derive(Clone, Copy, Debug)]
pub struct Walker<'a> {
    pub sheet: &'a [u32],
    pub at: usize,
}

impl<'a> Walker<'a> {
    ghost use Rattle.walker.specs.Walkers.{place_of};

    // A walker on the record at a place; none at 0, which ends a chain.
    fn on(sheet: &'a [u32], at: usize) -> Option<Walker<'a>>
        ensures sheet { IfSome result (λ w. w.sheet ≡ sheet.entry) }
        ensures place { place_of result ≡ at }
    {
        if at == 0 {
            return None;
        }
        Some(Walker { sheet, at })
    }

    // A walker on the first record of the chain whose head stands at an index of the sheet.
    pub fn head(sheet: &'a [u32], index: usize) -> Option<Walker<'a>>
        ensures sheet { IfSome result (λ w. w.sheet ≡ sheet.entry) }
        ensures place { place_of result ≡ word_at sheet.now index }
    {
        Walker::on(sheet, words::next(sheet, index))
    }

    // A walker on record `id` of the chain from a place.
    pub fn nth(sheet: &'a [u32], first: usize, id: usize) -> Option<Walker<'a>>
        ensures sheet { IfSome result (λ w. w.sheet ≡ sheet.entry) }
        ensures place { place_of result ≡ word_at (chain sheet.now first) id }
    {
        Walker::on(sheet, words::place(sheet, first, id))
    }

    // The walker on the next record, or the chain's end.
    pub fn next(self) -> Option<Walker<'a>>
        ensures sheet { IfSome result (λ w. w.sheet ≡ self.entry.sheet) }
        ensures place { place_of result ≡ word_at self.entry.sheet.now self.entry.at }
    {
        Walker::on(self.sheet, words::next(self.sheet, self.at))
    }

    // Whether it stands at 0, where no record is.
    pub fn ended(self) -> bool
        ensures { result ≡ eqb self.entry.at 0 }
    {
        self.at == 0
    }

    // A word of the record that it stands on.
    pub fn field(self, k: usize) -> u32
        ensures { result ≡ word_at self.entry.sheet.now (self.entry.at + k) }
    {
        words::offset(self.sheet, self.at, k)
    }

    // The record that it stands on: the caller's own words, uncopied.
    pub fn record(self, len: usize) -> &'a [u32]
        ensures { result.now ≡ record_words self.entry.sheet.now self.entry.at len }
    {
        words::record(self.sheet, self.at, len)
    }
}

// A walker on the first record of the chain whose head stands at an index of the sheet.
pub fn head<'a>(sheet: &'a [u32], index: usize) -> Walker<'a>
    ensures { (result.sheet ≡ sheet.entry) × (result.at ≡ word_at sheet.now index) }
{
    Walker {
        sheet,
        at: words::next(sheet, index),
    }
}

// A walker on record `id` of the chain from a place; at 0 where the chain has no such record.
pub fn nth<'a>(sheet: &'a [u32], first: usize, id: usize) -> Walker<'a>
    ensures { (result.sheet ≡ sheet.entry) × (result.at ≡ word_at (chain sheet.now first) id) }
{
    Walker {
        sheet,
        at: words::place(sheet, first, id),
    }
}

// The walker on the next record.
pub fn next<'a>(w: Walker<'a>) -> Walker<'a>
    ensures { (result.sheet ≡ w.entry.sheet) × (result.at ≡ word_at w.entry.sheet.now w.entry.at) }
{
    Walker {
        sheet: w.sheet,
        at: words::next(w.sheet, w.at),
    }
}

// The same in place.
pub fn advance<'s, 'a>(w: &'s mut Walker<'a>)
    ensures { (w.new.sheet ≡ w.old.sheet) × (w.new.at ≡ word_at w.old.sheet.now w.old.at) }
{
    let at = words::next(w.sheet, w.at);
    w.at = at;
}

// A word of the record that it stands on.
pub fn field<'a>(w: Walker<'a>, k: usize) -> u32
    ensures { result ≡ word_at w.entry.sheet.now (w.entry.at + k) }
{
    w.field(k)
}

// The same where the walker is only looked at.
pub fn field_of<'s, 'a>(w: &'s Walker<'a>, k: usize) -> u32
    ensures { result ≡ word_at w.now.sheet.now (w.now.at + k) }
{
    words::offset(w.sheet, w.at, k)
}

// The record that it stands on: the caller's own words, uncopied.
pub fn record<'a>(w: Walker<'a>, len: usize) -> &'a [u32]
    ensures { result.now ≡ record_words w.entry.sheet.now w.entry.at len }
{
    w.record(len)
}

// The same where the walker is only looked at.
pub fn record_of<'s, 'a>(w: &'s Walker<'a>, len: usize) -> &'a [u32]
    ensures { result.now ≡ record_words w.now.sheet.now w.now.at len }
{
    words::record(w.sheet, w.at, len)
}

// Whether a place is past a chain's end: 0 ends it.
pub fn ends_at(sheet: &[u32], at: usize) -> bool
    ensures { result ≡ eqb at 0 }
{
    at == 0
}

// Whether the chain has ended.
pub fn ended<'a>(w: Walker<'a>) -> bool
    ensures { result ≡ eqb w.entry.at 0 }
{
    w.ended()
}

// The same where the walker is only looked at.
pub fn ended_of<'s, 'a>(w: &'s Walker<'a>) -> bool
    ensures { result ≡ eqb w.now.at 0 }
{
    ends_at(w.sheet, w.at)
}

// A word of the record behind the first, with plain parameters: whoever calls this needs no walk.
pub fn second(sheet: &[u32], index: usize, k: usize) -> u32
    ensures { result ≡ word_at sheet.now (word_at sheet.now (word_at sheet.now index) + k) }
{
    words::offset(sheet, words::next(sheet, words::next(sheet, index)), k)
}

// Record `id` of the chain from a place, likewise: the caller's own words, uncopied.
pub fn nth_record(sheet: &[u32], first: usize, id: usize, len: usize) -> &[u32]
    ensures { result.now ≡ record_words sheet.now (word_at (chain sheet.now first) id) len }
{
    words::record(sheet, words::place(sheet, first, id), len)
}
