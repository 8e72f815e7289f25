// The limits that 8 tests, with the names of Limits in crates/rules; the size of a plane, which is that of the largest sheet; and where the planes stand.
pub const DEFINITIONS: usize = 128;

pub const IMPLS: usize = 128;

pub const TYPE_PARAMS: usize = 8;

pub const IMPL_PARAMS: usize = 4;

pub const ARITY: usize = 4;

// The largest word.
pub const WORD_MOST: usize = u32::MAX as usize;

// A plane's words.
pub const PLANE: usize = 4096;

pub const PLANE_WORD: u32 = PLANE as u32;

// The planes of chains, behind the counts and the index of traits: lengths; what cells ask of their table; whether a node is out of range by
// itself, and what nodes ask of the type parameters and of their table; whether a binding, a member or an impl parameter is out of range, and
// what arguments ask of a table.
pub const LENGTHS: usize = 2 * PLANE;

pub const BOUNDS: usize = 3 * PLANE;

pub const CORES: usize = 4 * PLANE;

pub const NEEDS: usize = 5 * PLANE;

pub const KIDS: usize = 6 * PLANE;

pub const BINDINGS: usize = 7 * PLANE;

pub const MEMBERS: usize = 8 * PLANE;

pub const PARAMS: usize = 9 * PLANE;

pub const ARGS: usize = 10 * PLANE;
