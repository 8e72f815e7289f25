// What stands where in the part of the workspace that belongs to a source: marks of its ancestors, one word for each of 128 definitions,
// then rows of 12 words for each of 384 nodes, then indexes of chains.
pub const LINKS: usize = 128;

// The marks of definitions, which come first; the nodes, as many as a row has bits; the words of a row.
pub const MARKS: usize = 128;

pub const NODES: usize = 384;

pub const ROW: usize = 12;

pub const OPEN: usize = 4736;

pub const REACH: usize = 9344;

pub const SETS: usize = 13952;

pub const ROWS_END: usize = 18560;

// How far what spreads along a relation is behind the relation: reach behind links, sets behind open edges.
pub const BEHIND: usize = 9216;

pub const DEFINITIONS: usize = 18560;

pub const IMPLS: usize = 22657;

pub const TRAITS: usize = 26754;

pub const IMPORTS: usize = 30851;
