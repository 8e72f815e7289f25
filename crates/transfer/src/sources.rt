// A table to read from, whichever form it has, and the form of packed words.
ghost use Rattle.std.specs.Prelude.{◌≡◌, refl, ℕ, Bool, true, false, ◌≤◌, length, get_or};
ghost use Rattle.rules.specs.Types.{Types, unknown, find as find_in, state_at};
ghost use Rattle.rules.specs.AcyclicLaws.{children_at};
ghost use Rattle.rules.specs.Slim.{Slim};
ghost use Rattle.rules.specs.Transfer.{type_of_word};
ghost use Rattle.rules.specs.Answer.{word_of_type};
ghost use Rattle.table.specs.Packing.{types_of, kind_at, inverted_at, id_at};
ghost use Rattle.table.specs.Reads.{unknown_here};
ghost use Rattle.transfer.specs.Moving.{Read};
ghost use Rattle.transfer.specs.Sources.{OwnRoots, not_told};

pub trait Source {
    // The table that it is.
    ghost types: { Self → Types };

    // Whether a source of this form has its own roots alone.
    ghost is_rooted: { Bool };

    // How many nodes there are.
    fn count(&self) -> usize
        ensures { result ≡ length (types self.now) };

    // `find`: the type of a root that a type is.
    fn find(&self, t: u32) -> u32
        ensures { result ≡ word_of_type (find_in (types self.now) (type_of_word t)) };

    // The kind of node n; 0 where it is unknown.
    fn kind_of(&self, n: u32) -> u32
        ensures { result ≡ kind_at (types self.now) n };

    // Whether node n is inverted; false where it is unknown.
    fn inverted_of(&self, n: u32) -> bool
        ensures { result ≡ inverted_at (types self.now) n };

    // The id of node n; 0 where it is unknown.
    fn id_of(&self, n: u32) -> u32
        ensures { result ≡ id_at (types self.now) n };

    // How many children node n has.
    fn child_count(&self, n: u32) -> usize
        ensures { result ≡ length (children_at (types self.now) n) };

    // Child j of node n.
    fn child(&self, n: u32, j: usize) -> u32
        ensures { result ≡ word_of_type (get_or (children_at (types self.now) n) j (false, 0)) };

    // Reads the children of node n, and says how many there are.
    fn read_children(&self, n: u32, cs: &mut [u32]) -> usize
        requires slim { Slim (types self.now) }
        requires in_bounds { 8 ≤ length cs.old }
        ensures { Read (types self.now) n cs.new result };

    // Whether each node is its own root, whatever the table.
    fn has_own_roots(&self) -> bool
        ensures { result ≡ is_rooted };

    // A node of kind 0 is unknown.
    ghost no_kind: { (s : Self) (n : ℕ) → kind_at (types s) n ≡ 0 → state_at (types s) n ≡ unknown };

    // The roots, where it has its own.
    ghost roots: { (s : Self) → is_rooted ≡ true → OwnRoots (types s) };
}

// A packed table, as it lies in words.
#[derive(Clone, Copy)]
pub struct PackedTable<'a>(pub &'a [u32]);

impl<'a> Source for PackedTable<'a> {
    ghost types = { λ s. types_of s.0.now };

    ghost is_rooted = { false };

    ghost no_kind = { λ s n. unknown_here s.0.now n (kind_at (types_of s.0.now) n) refl };

    ghost roots = { λ s. not_told };

    fn count(&self) -> usize {
        table::count(self.0) as usize
    }

    fn find(&self, t: u32) -> u32 {
        table::find(self.0, t)
    }

    fn kind_of(&self, n: u32) -> u32 {
        table::kind_of(self.0, n)
    }

    fn inverted_of(&self, n: u32) -> bool {
        table::inverted_of(self.0, n)
    }

    fn id_of(&self, n: u32) -> u32 {
        table::id_of(self.0, n)
    }

    fn child_count(&self, n: u32) -> usize {
        table::child_count(self.0, n)
    }

    fn child(&self, n: u32, j: usize) -> u32 {
        table::child(self.0, n, j)
    }

    fn read_children(&self, n: u32, cs: &mut [u32]) -> usize {
        let m = table::child_count(self.0, n);
        for j in 0..m {
            cs[j] = table::child(self.0, n, j);
        }
        m
    }

    fn has_own_roots(&self) -> bool {
        false
    }
}
