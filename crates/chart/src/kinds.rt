// The kind table: for each kind of type node its least and most children, and whether it is its own inverse and may meet its inverse.
ghost use Rattle.std.specs.Prelude.{◌≡◌, ◌≤◌, MatchOption};
ghost use Rattle.rules.specs.Layout.{kind_count};
ghost use Rattle.rules.specs.Sheet.{kind_row, self_dual, kind_flag};
ghost use Rattle.chart.specs.Numbers.{number_of};

use crate::{layout, struct_self_dual, union_self_dual};

// The kinds of type nodes, in the order of their numbers.
#[derive(Clone, Copy, PartialEq, Eq, Debug)]
pub enum Kind {
    Unknown,
    Param,
    Tuple,
    Opaque,
    Struct,
    Enum,
    Union,
    Fn,
    Closure,
    Ref,
    Key,
    Never,
    Default,
    Error,
}

impl Kind {
    // The kind that a word numbers, where it numbers one.
    pub fn from_word(w: usize) -> Option<Kind>
        ensures { MatchOption result (kind_count ≤ w) (λ k. number_of k ≡ w) }
    {
        match w {
            layout::KIND_UNKNOWN => Some(Kind::Unknown),
            layout::KIND_PARAM => Some(Kind::Param),
            layout::KIND_TUPLE => Some(Kind::Tuple),
            layout::KIND_OPAQUE => Some(Kind::Opaque),
            layout::KIND_STRUCT => Some(Kind::Struct),
            layout::KIND_ENUM => Some(Kind::Enum),
            layout::KIND_UNION => Some(Kind::Union),
            layout::KIND_FN => Some(Kind::Fn),
            layout::KIND_CLOSURE => Some(Kind::Closure),
            layout::KIND_REF => Some(Kind::Ref),
            layout::KIND_KEY => Some(Kind::Key),
            layout::KIND_NEVER => Some(Kind::Never),
            layout::KIND_DEFAULT => Some(Kind::Default),
            layout::KIND_ERROR => Some(Kind::Error),
            _ => None,
        }
    }

    // Its number.
    pub fn number(self) -> usize
        ensures { result ≡ number_of self }
    {
        self as usize
    }
}

// A row for each kind: least, most, own-inverse, may-meet.
// Struct and Union have the last two flags only where their record says self-dual.
const KINDS: [[usize; 4]; 14] = [
    [0, 0, 0, 0], // unknown
    [0, 0, 0, 0], // Param
    [0, 8, 1, 1], // Tuple
    [0, 8, 0, 0], // Opaque
    [0, 8, 1, 1], // Struct
    [0, 8, 0, 0], // Enum
    [0, 8, 1, 1], // Union
    [0, 0, 0, 0], // Fn
    [1, 8, 0, 0], // Closure
    [1, 1, 0, 0], // Ref
    [0, 0, 0, 0], // Key
    [0, 0, 0, 0], // Never
    [0, 0, 1, 0], // Default
    [0, 0, 1, 0], // Error
];

// Column j of the row of kind k, which is any number and no `Kind`, since the rule is for every number. A column past the row's end is one of the next row, and past the table's end there is 0.
pub fn kind_row(k: usize, j: usize) -> usize
    ensures { result ≡ kind_row k j }
{
    if k < layout::KIND_COUNT {
        let over = j / layout::ROW_LENGTH;
        if over < layout::KIND_COUNT - k {
            return KINDS[k + over][j % layout::ROW_LENGTH];
        }
    }
    0
}

// What a Struct or a Union needs beside its row's flag: self-dual; 1 for other kinds. It is the record's word, which may be any, and so no bool.
pub fn self_dual(s: &[u32], k: usize, id: usize) -> usize
    ensures { result ≡ self_dual s.now k id }
{
    let Some(kind) = Kind::from_word(k) else {
        return 1;
    };
    match kind {
        Kind::Struct => struct_self_dual(s, id),
        Kind::Union => union_self_dual(s, id),
        _ => 1,
    }
}

// Flag j, own-inverse or may-meet, of a type of kind k and an id.
pub fn kind_flag(s: &[u32], j: usize, k: usize, id: usize) -> bool
    ensures { result ≡ kind_flag s.now j k id }
{
    kind_row(k, j) == 1 && self_dual(s, k, id) == 1
}
