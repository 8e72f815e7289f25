// A sheet's fields by name, as document 01 and the Rust call them, each equal to its rule in crates/rules for every slice of
// words and every id; and an index of the records of a chain, after which one read gives a record's place.
#![tactic(auto)]

ghost use Rattle.std.specs.Prelude.{◌≡◌, ◌+◌, ◌<◌, ◌≤◌, length};
ghost use Rattle.rules.specs.Sheet.{at, chain, many, field, impl_flag};
ghost use Rattle.rules.specs.Layout.{header_definitions, header_generics, header_traits, header_impls, header_opaques, header_structs, header_enums, header_unions, header_closures, header_imports, definition_parent, definition_trait_vis, definition_trait, definition_bindings, definition_named, definition_implicit, import_definition, generics_type_params, generics_table_word, generics_impl_params, trait_definition, trait_arity_word, trait_inherent, impl_generics_word, impl_flags, impl_trait_word, impl_table_word, impl_args_word, owner_definition, owner_self_dual, closure_flex};
ghost use Rattle.chart.specs.Index.{Indexed};

pub mod kinds; // kinds.rt: the kind table
pub mod layout; // layout.rt: places, lengths, flags and kinds by name
pub mod scope; // scope.rt: `get_member`, `visible`

// The word k places past a place, as an id or a place; 0 past the end.
pub fn field_at(s: &[u32], p: usize, k: usize) -> usize
    ensures { result ≡ at s.now (p + k) }
{
    words::offset(s, p, k) as usize
}

// Word k of record `id` of the chain that header word h heads.
pub fn field_of(s: &[u32], h: usize, id: usize, k: usize) -> usize
    ensures { result ≡ field s.now h id k }
{
    let head = words::next(s, h);
    let p = words::place(s, head, id);
    field_at(s, p, k)
}

// How many records the chain that header word h heads has. It counts, and converts nothing, whatever its name.
pub fn count_of(s: &[u32], h: usize) -> usize
    ensures { result ≡ many s.now h }
{
    let head = words::next(s, h);
    words::chain_length(s, head)
}

// Fields by name. Each is one call of `field_of`, and stays a function: a struct of two constants with a method would need the
// same list of names, and its callers would read `field(s, PARENT, d)` for `parent(s, d)`.

// Of a definition: parent?.
pub fn parent(s: &[u32], d: usize) -> usize
    ensures { result ≡ field s.now header_definitions d definition_parent }
{
    field_of(s, layout::DEFINITIONS, d, layout::DEFINITION_PARENT)
}

// Of a definition: the vis of its trait.
pub fn trait_vis(s: &[u32], d: usize) -> usize
    ensures { result ≡ field s.now header_definitions d definition_trait_vis }
{
    field_of(s, layout::DEFINITIONS, d, layout::DEFINITION_TRAIT_VIS)
}

// Of a definition: trait?.
pub fn def_trait(s: &[u32], d: usize) -> usize
    ensures { result ≡ field s.now header_definitions d definition_trait }
{
    field_of(s, layout::DEFINITIONS, d, layout::DEFINITION_TRAIT)
}

// Of a definition: the head of its impl bindings.
pub fn bindings_head(s: &[u32], d: usize) -> usize
    ensures { result ≡ field s.now header_definitions d definition_bindings }
{
    field_of(s, layout::DEFINITIONS, d, layout::DEFINITION_BINDINGS)
}

// Of a definition: the head of its named members.
pub fn named_head(s: &[u32], d: usize) -> usize
    ensures { result ≡ field s.now header_definitions d definition_named }
{
    field_of(s, layout::DEFINITIONS, d, layout::DEFINITION_NAMED)
}

// Of a definition: the head of its implicit members.
pub fn implicit_head(s: &[u32], d: usize) -> usize
    ensures { result ≡ field s.now header_definitions d definition_implicit }
{
    field_of(s, layout::DEFINITIONS, d, layout::DEFINITION_IMPLICIT)
}

// Of an import: definition?.
pub fn import_def(s: &[u32], i: usize) -> usize
    ensures { result ≡ field s.now header_imports i import_definition }
{
    field_of(s, layout::IMPORTS, i, layout::IMPORT_DEFINITION)
}

// Of generics: the count of type parameters.
pub fn type_params(s: &[u32], g: usize) -> usize
    ensures { result ≡ field s.now header_generics g generics_type_params }
{
    field_of(s, layout::GENERICS, g, layout::GENERICS_TYPE_PARAMS)
}

// Of generics: the head of the table.
pub fn generics_table(s: &[u32], g: usize) -> usize
    ensures { result ≡ field s.now header_generics g generics_table_word }
{
    field_of(s, layout::GENERICS, g, layout::GENERICS_TABLE)
}

// Of generics: the head of the impl parameters.
pub fn impl_params_head(s: &[u32], g: usize) -> usize
    ensures { result ≡ field s.now header_generics g generics_impl_params }
{
    field_of(s, layout::GENERICS, g, layout::GENERICS_IMPL_PARAMS)
}

// Of a trait: definition.
pub fn trait_def(s: &[u32], t: usize) -> usize
    ensures { result ≡ field s.now header_traits t trait_definition }
{
    field_of(s, layout::TRAITS, t, layout::TRAIT_DEFINITION)
}

// Of a trait: arity.
pub fn trait_arity(s: &[u32], t: usize) -> usize
    ensures { result ≡ field s.now header_traits t trait_arity_word }
{
    field_of(s, layout::TRAITS, t, layout::TRAIT_ARITY)
}

// Of a trait: inherent count.
pub fn inherent_params(s: &[u32], t: usize) -> usize
    ensures { result ≡ field s.now header_traits t trait_inherent }
{
    field_of(s, layout::TRAITS, t, layout::TRAIT_INHERENT)
}

// Of an impl: generics.
pub fn impl_generics(s: &[u32], i: usize) -> usize
    ensures { result ≡ field s.now header_impls i impl_generics_word }
{
    field_of(s, layout::IMPLS, i, layout::IMPL_GENERICS)
}

// Of an impl: flags.
pub fn impl_flags(s: &[u32], i: usize) -> usize
    ensures { result ≡ field s.now header_impls i impl_flags }
{
    field_of(s, layout::IMPLS, i, layout::IMPL_FLAGS)
}

// Of an impl: trait?.
pub fn impl_trait(s: &[u32], i: usize) -> usize
    ensures { result ≡ field s.now header_impls i impl_trait_word }
{
    field_of(s, layout::IMPLS, i, layout::IMPL_TRAIT)
}

// Of an impl: the head of its table.
pub fn impl_table(s: &[u32], i: usize) -> usize
    ensures { result ≡ field s.now header_impls i impl_table_word }
{
    field_of(s, layout::IMPLS, i, layout::IMPL_TABLE)
}

// Of an impl: the head of its arguments.
pub fn impl_args(s: &[u32], i: usize) -> usize
    ensures { result ≡ field s.now header_impls i impl_args_word }
{
    field_of(s, layout::IMPLS, i, layout::IMPL_ARGS)
}

// Of an opaque type: definition.
pub fn opaque_def(s: &[u32], i: usize) -> usize
    ensures { result ≡ field s.now header_opaques i owner_definition }
{
    field_of(s, layout::OPAQUES, i, layout::OWNER_DEFINITION)
}

// Of a struct: definition.
pub fn struct_def(s: &[u32], i: usize) -> usize
    ensures { result ≡ field s.now header_structs i owner_definition }
{
    field_of(s, layout::STRUCTS, i, layout::OWNER_DEFINITION)
}

// Of a struct: self-dual.
pub fn struct_self_dual(s: &[u32], i: usize) -> usize
    ensures { result ≡ field s.now header_structs i owner_self_dual }
{
    field_of(s, layout::STRUCTS, i, layout::OWNER_SELF_DUAL)
}

// Of an enum: definition.
pub fn enum_def(s: &[u32], i: usize) -> usize
    ensures { result ≡ field s.now header_enums i owner_definition }
{
    field_of(s, layout::ENUMS, i, layout::OWNER_DEFINITION)
}

// Of a union: definition.
pub fn union_def(s: &[u32], i: usize) -> usize
    ensures { result ≡ field s.now header_unions i owner_definition }
{
    field_of(s, layout::UNIONS, i, layout::OWNER_DEFINITION)
}

// Of a union: self-dual.
pub fn union_self_dual(s: &[u32], i: usize) -> usize
    ensures { result ≡ field s.now header_unions i owner_self_dual }
{
    field_of(s, layout::UNIONS, i, layout::OWNER_SELF_DUAL)
}

// Of a closure: flex.
pub fn closure_flex(s: &[u32], i: usize) -> usize
    ensures { result ≡ field s.now header_closures i closure_flex }
{
    field_of(s, layout::CLOSURES, i, layout::CLOSURE_FLEX)
}

// Of an impl: the flag n, which is 1 manual, 2 basic, 4 unsafe, 8 named.
pub fn impl_flag(s: &[u32], n: usize, i: usize) -> bool
    requires { 0 < n }
    ensures { result ≡ impl_flag s.now n i }
{
    impl_flags(s, i) / n % 2 == 1
}

// Writes the places of the records of the chain from a head into ws, from b on, and says how many there are.
pub fn index_chain(s: &[u32], head: u32, ws: &mut [u32], b: usize) -> usize
    requires { b + length (chain s.now head) ≤ length ws.old }
    ensures { Indexed s.now head ws.old ws.new b result }
{
    let mut n = 0;
    for i in words::records(s, head as usize) {
        ws[b + n] = i as u32;
        n += 1;
    }
    n
}

// The same for the records of one kind: h is the header word that heads their chain.
pub fn index(s: &[u32], h: usize, ws: &mut [u32], b: usize) -> usize
    requires { b + many s.now h ≤ length ws.old }
    ensures { Indexed s.now (at s.now h) ws.old ws.new b result }
{
    let head = words::word(s, h);
    index_chain(s, head, ws, b)
}
