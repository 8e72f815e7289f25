// Pairs that were met for an earlier candidate of the same question, each with the children that are to be met for a later one: none where the pair was worked off with no unknown linked meanwhile, so that it is passed over,
// and otherwise those that were not linked to each other already. Walks are noted too: a type below which `cycles` found nothing is passed over by later walks.
// Whatever the notes hold, a clash that is found is one, as what is passed over says nothing;
// but a clash may be missed by them. So once a candidate for which one was used did not unify, the next are tested without notes, as long as that finds a clash.
ghost use Rattle.std.specs.Prelude.{◌≡◌, ◌<◌, true};
ghost use Rattle.meeting.specs.Notes.{Blank};

use crate::state::Pair;
use refs::RECORDS;

// All children, as bits.
pub(crate) const ALL: u32 = 511;

// How many notes there is room for; the note of a key stands at its place, the key modulo this.
const PLACES: usize = 251;

// Which children of the pair of a key are to be met, as bits; no pair has the key 0.
#[derive(Clone, Copy)]
pub(crate) struct Note {
    pub(crate) key: u32,
    pub(crate) mask: u32,
}

// How far notes are trusted: `Off` once they may have been to blame, `Blameless` where they were not to blame for what was missed without them.
#[derive(Clone, Copy, PartialEq, Eq, Debug)]
pub(crate) enum Trust {
    Usual,
    Off,
    Blameless,
}

#[derive(Drop)]
pub struct Notes {
    // Whether a candidate of the question that was tested did not unify all the same.
    pub missed: bool,
    // Whether a note was used for the last candidate tested.
    pub(crate) used: bool,
    pub(crate) trust: Trust,
    pub(crate) notes: [Note; PLACES],
}

// What the ref of a type is, whatever the candidate: a node of the question, or the place of a record.
fn place_or_node(places: &[u32], t: u32) -> u32
    ensures { result < 8704 }
{
    if t / 2 < RECORDS {
        return 8192 + t % 512;
    }
    let p = words::word(places, (t / 2 - RECORDS) as usize);
    p % 4096 * 2 + t % 2
}

// A number for a pair, not 0.
pub(crate) fn pair_key(places: &[u32], pair: Pair) -> u32 {
    let a = place_or_node(places, u32::from(pair.x));
    let b = place_or_node(places, u32::from(pair.y));
    a * 16384 + b + 1
}

// A number for the ref of a type, not 0 and not that of a pair.
pub(crate) fn walk_key(places: &[u32], x: u32) -> u32 {
    place_or_node(places, x / 2 * 2) * 16384 + 16384
}

impl Notes {
    // Nothing is noted, and nothing was missed.
    pub fn new() -> Notes
        ensures { Blank result }
    {
        Notes {
            missed: false,
            used: false,
            trust: Trust::Usual,
            notes: [Note { key: 0, mask: 0 }; PLACES],
        }
    }

    // A candidate that was tested did not unify all the same: if a note was used, none is for the next; if none was to be used, notes are not to blame, and are used from now on.
    pub fn miss(&mut self)
        ensures { self.new.missed ≡ true }
    {
        self.missed = true;
        if self.trust != Trust::Usual {
            self.trust = Trust::Blameless;
        } else if self.used {
            self.trust = Trust::Off;
        }
    }

    // The next candidate is tested.
    pub(crate) fn start(&mut self) {
        self.used = false;
    }

    // Which children of the pair of a key are to be met: all where it is not noted, or notes may not be used. That one was used is kept.
    pub(crate) fn mask(&mut self, key: u32) -> u32 {
        if self.trust == Trust::Off {
            return ALL;
        }
        let note = self.notes[key as usize % PLACES];
        if note.key != key {
            return ALL;
        }
        self.used = true;
        note.mask
    }

    // Notes which children of the pair of a key are to be met.
    pub(crate) fn put(&mut self, key: u32, mask: u32) {
        self.notes[key as usize % PLACES] = Note { key, mask };
    }
}
