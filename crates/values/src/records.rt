// The values of each record, read off the planes, and of all records of a sheet.
ghost use Rattle.std.specs.Prelude.{◌≡◌, ◌≤◌, T};
ghost use Rattle.rules.specs.Lists.{all, range};
ghost use Rattle.rules.specs.Sheet.{type_params};
ghost use Rattle.rules.specs.Layout.{node_children, impl_param_args, header_definitions, header_generics, header_impls};
ghost use Rattle.rules.specs.Values.{table_ok, args_ok, definition_ok, generics_ok, trait_ok, impl_ok, opaque_ok, struct_ok, closure_ok, import_ok, flex_trait_ok, sheet_values, impl_question_values, flex_question_values};
ghost use Rattle.rules.specs.Chains.{sheet_keeps, impl_question_keeps, flex_question_keeps};
ghost use Rattle.values.specs.Folds.{Forward};
ghost use Rattle.values.specs.NodeLaws.{word_most};
ghost use Rattle.values.specs.Tables.{Rows, Tables, tables_prop, Charted, charted_prop};
ghost use Rattle.values.specs.Kept.{Kept};
ghost use Rattle.values.specs.Verdict.{params_ok, impl_types, links_ok, record_ok, chain_ok, Member, limits_ok, words_ok};

use crate::fits::{self, Noted};
use crate::{folds, limits};
use chart::layout;

// The count of type parameters of generics, as a word.
pub fn type_params(s: &[u32], g: usize) -> u32
    ensures { result ≡ type_params s.now g }
{
    let head = words::next(s, layout::GENERICS);
    let p = words::place(s, head, g);
    words::offset(s, p, layout::GENERICS_TYPE_PARAMS)
}

// closure: flex
fn closure_ok(s: &[u32], p: usize) -> bool
    ensures { result ≡ closure_ok s.now p }
{
    chart::field_at(s, p, layout::CLOSURE_FLEX) <= layout::FLEX_BOTH
}

impl<'a> Noted<'a> {
    // trait: definition, arity, inherent count at most arity
    fn trait_ok(self, p: usize) -> bool
        ensures { result ≡ trait_ok self.entry.s.now p }
    {
        let d = chart::field_at(self.s, p, layout::TRAIT_DEFINITION);
        let arity = chart::field_at(self.s, p, layout::TRAIT_ARITY);
        let inherent = chart::field_at(self.s, p, layout::TRAIT_INHERENT);
        let definitions = words::next(self.ws, layout::DEFINITIONS);
        fits::holds([d < definitions, arity <= limits::ARITY, inherent <= arity])
    }

    // opaque, enum: definition
    fn opaque_ok(self, p: usize) -> bool
        ensures { result ≡ opaque_ok self.entry.s.now p }
    {
        let d = chart::field_at(self.s, p, layout::OWNER_DEFINITION);
        d < words::next(self.ws, layout::DEFINITIONS)
    }

    // struct, union: definition, self-dual
    fn struct_ok(self, p: usize) -> bool
        ensures { result ≡ struct_ok self.entry.s.now p }
    {
        let d = chart::field_at(self.s, p, layout::OWNER_DEFINITION);
        let dual = chart::field_at(self.s, p, layout::OWNER_SELF_DUAL);
        let definitions = words::next(self.ws, layout::DEFINITIONS);
        fits::holds([d < definitions, dual <= 1])
    }

    // import: definition?
    fn import_ok(self, p: usize) -> bool
        ensures { result ≡ import_ok self.entry.s.now p }
    {
        let d = chart::field_at(self.s, p, layout::IMPORT_DEFINITION);
        d <= words::next(self.ws, layout::DEFINITIONS)
    }

    // fork?, drop?: where set, a trait of arity 1
    fn flex_trait_ok(self, t: usize) -> bool
        ensures { result ≡ flex_trait_ok self.entry.s.now t }
    {
        t == 0 || self.args_core(t, 1)
    }

    // The limits of definitions and impls, prelude?, fork?
    pub fn limits_ok(self) -> bool
        ensures { result ≡ limits_ok self.entry.s.now }
    {
        let definitions = words::next(self.ws, layout::DEFINITIONS);
        let impls = words::next(self.ws, layout::IMPLS);
        let prelude = words::next(self.s, layout::PRELUDE);
        let fork = self.flex_trait_ok(words::next(self.s, layout::FORK));
        fits::holds([
            definitions <= limits::DEFINITIONS,
            impls <= limits::IMPLS,
            prelude <= definitions,
            fork,
        ])
    }

    // drop?, duplicate?, erase?
    pub fn words_ok(self) -> bool
        ensures { result ≡ words_ok self.entry.s.now }
    {
        let impls = words::next(self.ws, layout::IMPLS);
        let duplicate = words::next(self.s, layout::DUPLICATE);
        let erase = words::next(self.s, layout::ERASE);
        let drop = self.flex_trait_ok(words::next(self.s, layout::DROP));
        fits::holds([drop, duplicate <= impls, erase <= impls])
    }
}

// A sheet, a slice w, the sheet's own or a question's, and a workspace in which the sheet and the tables of w are noted.
#[derive(Clone, Copy)]
pub struct Tabled<'a> {
    pub s: &'a [u32],
    pub w: &'a [u32],
    pub ws: &'a [u32],
    pub ghost tables: { Tables s.now w.now ws.now } by { tables_prop s.now w.now ws.now },
}

impl<'a> Tabled<'a> {
    // The table from head h of a slice w, under a count of type parameters: every node of it.
    pub fn table_ok(self, params: u32, h: usize) -> bool
        requires { Rows self.w.now h node_children × (params ≤ word_most) }
        ensures { result ≡ table_ok self.entry.s.now self.entry.w.now params h }
    {
        let core = folds::chain_count(self.ws, limits::CORES, h);
        let need = folds::chain_count(self.ws, limits::NEEDS, h);
        let kids = folds::chain_count(self.ws, limits::KIDS, h);
        let n = folds::chain_count(self.ws, limits::LENGTHS, h);
        fits::holds([core <= 0, need <= params as usize, kids <= n])
    }

    // A trait? and its arguments, over the table from head h of a slice w.
    pub fn args_ok(self, h: usize, t: usize, args: usize) -> bool
        requires { Forward self.w.now h × Forward self.w.now args }
        ensures { result ≡ args_ok self.entry.s.now self.entry.w.now h t args }
    {
        let Tabled { s, ws, .. } = self;
        let n = folds::chain_count(ws, limits::LENGTHS, args);
        let core = Noted { s, ws }.args_core(t, n);
        let bound = folds::chain_count(ws, limits::BOUNDS, args);
        let m = folds::chain_count(ws, limits::LENGTHS, h);
        fits::holds([core, bound <= m])
    }

    // 12 of an impl question, where the planes of its table are made.
    pub fn impl_question_ok(self, g: usize) -> bool
        requires { T (impl_question_keeps self.w.now) }
        ensures { result ≡ impl_question_values self.entry.s.now g self.entry.w.now }
    {
        let params = type_params(self.s, g);
        let table = words::next(self.w, layout::QUESTION_TABLE);
        let t = words::next(self.w, layout::QUESTION_TRAIT);
        let args = words::next(self.w, layout::QUESTION_ARGS);
        let x = self.table_ok(params, table);
        let y = self.args_ok(table, t, args);
        fits::holds([x, y])
    }

    // 12 of a flex question.
    pub fn flex_question_ok(self, g: usize) -> bool
        requires { T (flex_question_keeps self.w.now) }
        ensures { result ≡ flex_question_values self.entry.s.now g self.entry.w.now }
    {
        let params = type_params(self.s, g);
        let table = words::next(self.w, layout::QUESTION_TABLE);
        let t = words::next(self.w, layout::QUESTION_TYPE);
        let zero = words::next(self.w, layout::QUESTION_ZERO);
        let x = self.table_ok(params, table);
        let n = folds::chain_count(self.ws, limits::LENGTHS, table);
        fits::holds([x, t / 2 < n, zero == 0])
    }
}

// A sheet, and a workspace in which all of its chains are noted.
#[derive(Clone, Copy)]
pub struct Linked<'a> {
    pub s: &'a [u32],
    pub ws: &'a [u32],
    pub ghost charted: { Charted s.now ws.now } by { charted_prop s.now ws.now },
}

impl<'a> Linked<'a> {
    // The impl parameters from head h, over a table.
    fn params_ok(self, table: usize, h: usize) -> bool
        requires { Forward self.s.now table × Rows self.s.now h impl_param_args }
        ensures { result ≡ params_ok self.entry.s.now table h }
    {
        let core = folds::chain_count(self.ws, limits::PARAMS, h);
        let kids = folds::chain_count(self.ws, limits::ARGS, h);
        let n = folds::chain_count(self.ws, limits::LENGTHS, table);
        fits::holds([core <= 0, kids <= n])
    }

    // generics: type parameter count, table, impl parameters
    fn generics_ok(self, p: usize) -> bool
        requires { Member self.s.now header_generics p }
        ensures { result ≡ generics_ok self.entry.s.now p }
    {
        let Linked { s, ws } = self;
        let params = words::offset(s, p, layout::GENERICS_TYPE_PARAMS);
        let table = chart::field_at(s, p, layout::GENERICS_TABLE);
        let head = chart::field_at(s, p, layout::GENERICS_IMPL_PARAMS);
        let x = Tabled { s, w: s, ws }.table_ok(params, table);
        let n = folds::chain_count(ws, limits::LENGTHS, head);
        let y = self.params_ok(table, head);
        fits::holds([
            params as usize <= limits::TYPE_PARAMS,
            x,
            n <= limits::IMPL_PARAMS,
            y,
        ])
    }

    // An impl's table and arguments.
    fn impl_types_ok(self, p: usize, g: usize) -> bool
        requires { Member self.s.now header_impls p }
        ensures { result ≡ impl_types self.entry.s.now p g }
    {
        let Linked { s, ws } = self;
        let params = type_params(s, g);
        let table = chart::field_at(s, p, layout::IMPL_TABLE);
        let t = chart::field_at(s, p, layout::IMPL_TRAIT);
        let args = chart::field_at(s, p, layout::IMPL_ARGS);
        let x = Tabled { s, w: s, ws }.table_ok(params, table);
        let y = Tabled { s, w: s, ws }.args_ok(table, t, args);
        fits::holds([x, y])
    }

    // impl: generics, flags, table, trait? and arguments
    fn impl_ok(self, p: usize) -> bool
        requires { Member self.s.now header_impls p }
        ensures { result ≡ impl_ok self.entry.s.now p }
    {
        let g = chart::field_at(self.s, p, layout::IMPL_GENERICS);
        let flags = chart::field_at(self.s, p, layout::IMPL_FLAGS);
        let generics = words::next(self.ws, layout::GENERICS);
        let types = self.impl_types_ok(p, g);
        fits::holds([g < generics, flags <= layout::FLAG_ALL, types])
    }

    // The bindings and members of a definition.
    fn links_ok(self, p: usize) -> bool
        requires { Member self.s.now header_definitions p }
        ensures { result ≡ links_ok self.entry.s.now p }
    {
        let b = chart::field_at(self.s, p, layout::DEFINITION_BINDINGS);
        let n = chart::field_at(self.s, p, layout::DEFINITION_NAMED);
        let i = chart::field_at(self.s, p, layout::DEFINITION_IMPLICIT);
        let x = folds::chain_count(self.ws, limits::BINDINGS, b);
        let y = folds::chain_count(self.ws, limits::MEMBERS, n);
        let z = folds::chain_count(self.ws, limits::MEMBERS, i);
        fits::holds([x <= 0, y <= 0, z <= 0])
    }

    // definition d: parent? below own id, trait vis, trait?, bindings, members
    fn definition_ok(self, d: usize, p: usize) -> bool
        requires { Member self.s.now header_definitions p }
        ensures { result ≡ definition_ok self.entry.s.now d p }
    {
        let parent = chart::field_at(self.s, p, layout::DEFINITION_PARENT);
        let vis = chart::field_at(self.s, p, layout::DEFINITION_TRAIT_VIS);
        let t = chart::field_at(self.s, p, layout::DEFINITION_TRAIT);
        let definitions = words::next(self.ws, layout::DEFINITIONS);
        let traits = words::next(self.ws, layout::TRAITS);
        let links = self.links_ok(p);
        fits::holds([parent <= d, vis <= definitions, t <= traits, links])
    }

    // Record d, at p, of the chain that header word h heads.
    fn record_ok(self, h: usize, d: usize, p: usize) -> bool
        requires { Member self.s.now h p }
        ensures { result ≡ record_ok self.entry.s.now h d p }
    {
        let Linked { s, ws } = self;
        match h {
            layout::DEFINITIONS => self.definition_ok(d, p),
            layout::GENERICS => self.generics_ok(p),
            layout::TRAITS => Noted { s, ws }.trait_ok(p),
            layout::IMPLS => self.impl_ok(p),
            layout::STRUCTS | layout::UNIONS => Noted { s, ws }.struct_ok(p),
            layout::CLOSURES => closure_ok(s, p),
            layout::IMPORTS => Noted { s, ws }.import_ok(p),
            _ => Noted { s, ws }.opaque_ok(p),
        }
    }

    // All records of the chain that header word h heads.
    fn chain_ok(self, h: usize) -> bool
        requires { Kept self.s.now }
        ensures { result ≡ chain_ok self.entry.s.now h }
    {
        for (d, p) in words::records(self.s, words::next(self.s, h)).enumerate() {
            if !self.record_ok(h, d, p) {
                return false;
            }
        }
        true
    }

    // The ten chains of the header.
    pub fn chains_ok(self) -> bool
        requires { Kept self.s.now }
        ensures { result ≡ all (chain_ok self.entry.s.now) (range 1 10) }
    {
        (layout::DEFINITIONS..layout::PRELUDE).all(|h| self.chain_ok(h))
    }

    // 8, where the planes of the sheet are made.
    pub fn sheet_ok(self) -> bool
        requires { T (sheet_keeps self.s.now) }
        ensures { result ≡ sheet_values self.entry.s.now }
    {
        let Linked { s, ws } = self;
        let x = Noted { s, ws }.limits_ok();
        let y = Noted { s, ws }.words_ok();
        let z = self.chains_ok();
        fits::holds([x, y, z])
    }
}
