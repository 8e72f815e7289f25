// Where the words of a sheet, a question and an answer stand: header words, field places, record lengths, flags and kinds, with the names of Layout in crates/rules.

// Header, words 0 to 15: edition; heads of ten chains; prelude?, fork?, drop?, duplicate?, erase?.
pub const EDITION: usize = 0;

pub const DEFINITIONS: usize = 1;

pub const GENERICS: usize = 2;

pub const TRAITS: usize = 3;

pub const IMPLS: usize = 4;

pub const OPAQUES: usize = 5;

pub const STRUCTS: usize = 6;

pub const ENUMS: usize = 7;

pub const UNIONS: usize = 8;

pub const CLOSURES: usize = 9;

pub const IMPORTS: usize = 10;

pub const PRELUDE: usize = 11;

pub const FORK: usize = 12;

pub const DROP: usize = 13;

pub const DUPLICATE: usize = 14;

pub const ERASE: usize = 15;

// Records start behind it, and no head but zero is lower.
pub const HEADER_LENGTH: usize = 16;

// The only edition.
pub const EDITION_1: usize = 1;

// definition: next, parent?, trait vis, trait?, impl bindings, named members, implicit members (three heads)
pub const DEFINITION_PARENT: usize = 1;

pub const DEFINITION_TRAIT_VIS: usize = 2;

pub const DEFINITION_TRAIT: usize = 3;

pub const DEFINITION_BINDINGS: usize = 4;

pub const DEFINITION_NAMED: usize = 5;

pub const DEFINITION_IMPLICIT: usize = 6;

pub const DEFINITION_LENGTH: usize = 7;

// binding: next, vis, impl
pub const BINDING_VIS: usize = 1;

pub const BINDING_IMPL: usize = 2;

pub const BINDING_LENGTH: usize = 3;

// member: next, vis, 0 child or 1 import, id
pub const MEMBER_VIS: usize = 1;

pub const MEMBER_IMPORT: usize = 2;

pub const MEMBER_ID: usize = 3;

pub const MEMBER_LENGTH: usize = 4;

// import: next, definition? (0 unless resolved)
pub const IMPORT_DEFINITION: usize = 1;

pub const IMPORT_LENGTH: usize = 2;

// generics: next, type parameter count, table head, impl parameter head
pub const GENERICS_TYPE_PARAMS: usize = 1;

pub const GENERICS_TABLE: usize = 2;

pub const GENERICS_IMPL_PARAMS: usize = 3;

pub const GENERICS_LENGTH: usize = 4;

// impl parameter: next, trait?, argument head
pub const IMPL_PARAM_TRAIT: usize = 1;

pub const IMPL_PARAM_ARGS: usize = 2;

pub const IMPL_PARAM_LENGTH: usize = 3;

// trait: next, definition, arity, inherent count
pub const TRAIT_DEFINITION: usize = 1;

pub const TRAIT_ARITY: usize = 2;

pub const TRAIT_INHERENT: usize = 3;

pub const TRAIT_LENGTH: usize = 4;

// impl: next, generics, flags, trait?, table head, argument head
pub const IMPL_GENERICS: usize = 1;

pub const IMPL_FLAGS: usize = 2;

pub const IMPL_TRAIT: usize = 3;

pub const IMPL_TABLE: usize = 4;

pub const IMPL_ARGS: usize = 5;

pub const IMPL_LENGTH: usize = 6;

// The flags of an impl: 1 manual, 2 basic, 4 unsafe, 8 named; all of them together are 15.
pub const FLAG_MANUAL: usize = 1;

pub const FLAG_BASIC: usize = 2;

pub const FLAG_UNSAFE: usize = 4;

pub const FLAG_NAMED: usize = 8;

pub const FLAG_ALL: usize = 15;

// opaque, enum: next, definition. Struct, union: next, definition, self-dual 0/1
pub const OWNER_DEFINITION: usize = 1;

pub const OWNER_SELF_DUAL: usize = 2;

pub const OPAQUE_LENGTH: usize = 2;

pub const STRUCT_LENGTH: usize = 3;

pub const ENUM_LENGTH: usize = 2;

pub const UNION_LENGTH: usize = 3;

// closure: next, flex (0 none, 1 fork, 2 drop, 3 both)
pub const CLOSURE_FLEX: usize = 1;

pub const CLOSURE_LENGTH: usize = 2;

pub const FLEX_FORK: usize = 1;

pub const FLEX_DROP: usize = 2;

pub const FLEX_BOTH: usize = 3;

// type node: next, kind, inverted 0/1, id, child head
pub const NODE_KIND: usize = 1;

pub const NODE_INVERTED: usize = 2;

pub const NODE_ID: usize = 3;

pub const NODE_CHILDREN: usize = 4;

pub const NODE_LENGTH: usize = 5;

// child or argument cell: next, type word
pub const CELL_TYPE: usize = 1;

pub const CELL_LENGTH: usize = 2;

// The question: table head, then trait? and argument head (impl) or type word and 0 (flex), records from 3
pub const QUESTION_TABLE: usize = 0;

pub const QUESTION_TRAIT: usize = 1;

pub const QUESTION_ARGS: usize = 2;

pub const QUESTION_TYPE: usize = 1;

pub const QUESTION_ZERO: usize = 2;

pub const QUESTION_LENGTH: usize = 3;

// The answer: tree head, drop tree head, table head, words used, inverted, self-inverse; records from 6
pub const ANSWER_LENGTH: usize = 6;

// tree record: next sibling, kind, id, child head
pub const TREE_LENGTH: usize = 4;

// the kinds of a tree record
pub const TREE_PARAM: usize = 1;

pub const TREE_DEF: usize = 2;

pub const TREE_FORK_CLOSURE: usize = 3;

pub const TREE_DROP_CLOSURE: usize = 4;

// Kinds of type nodes
pub const KIND_UNKNOWN: usize = 0;

pub const KIND_PARAM: usize = 1;

pub const KIND_TUPLE: usize = 2;

pub const KIND_OPAQUE: usize = 3;

pub const KIND_STRUCT: usize = 4;

pub const KIND_ENUM: usize = 5;

pub const KIND_UNION: usize = 6;

pub const KIND_FN: usize = 7;

pub const KIND_CLOSURE: usize = 8;

pub const KIND_REF: usize = 9;

pub const KIND_KEY: usize = 10;

pub const KIND_NEVER: usize = 11;

pub const KIND_DEFAULT: usize = 12;

pub const KIND_ERROR: usize = 13;

// how many kinds there are
pub const KIND_COUNT: usize = 14;

// The columns of a row of the kind table, and its length.
pub const ROW_LEAST: usize = 0;

pub const ROW_MOST: usize = 1;

pub const ROW_OWN_INVERSE: usize = 2;

pub const ROW_MAY_MEET: usize = 3;

pub const ROW_LENGTH: usize = 4;
