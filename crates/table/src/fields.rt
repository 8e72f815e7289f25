// The head of a node, in one word.
ghost use Rattle.std.specs.Prelude.{◌≡◌, ◌+◌, ◌*◌, ◌/◌, ◌%◌, ◌<◌};
ghost use Rattle.rules.specs.Types.{xor as xor_of};
ghost use Rattle.rules.specs.Limits.{limit_nodes};
ghost use Rattle.table.specs.Packing.{Head as HeadHas, head_kind, head_inverted, head_arity, head_up, head_size};

// Its kind, whether it is inverted, how many children it has, which type of its root it is, and the size of its class.
#[derive(Clone, Copy)]
pub struct Head(pub u32);

impl Head {
    pub fn new(kind: u32, inverted: bool, arity: u32, up: u32, size: u32) -> Head
        requires kind_bound { kind < 16 }
        requires arity_bound { arity < 16 }
        requires up_bound { up < 512 }
        requires size_bound { size < 512 }
        ensures { HeadHas result.0 kind up size arity inverted }
    {
        Head(kind + 16 * u32::from(inverted) + (32 * arity + 512 * (up + 512 * size)))
    }

    pub fn kind(self) -> u32
        ensures { result ≡ head_kind self.0 }
    {
        self.0 % 16
    }

    pub fn is_inverted(self) -> bool
        ensures { result ≡ head_inverted self.0 }
    {
        self.0 / 16 % 2 == 1
    }

    pub fn arity(self) -> u32
        ensures { result ≡ head_arity self.0 }
    {
        self.0 / 32 % 16
    }

    pub fn up(self) -> u32
        ensures is { result ≡ head_up self.0 }
        ensures small { result < 512 }
    {
        self.0 / 512 % 512
    }

    pub fn size(self) -> u32
        ensures is { result ≡ head_size self.0 }
        ensures small { result < 512 }
    {
        self.0 / 262144 % 512
    }
    // With another type of its root.
    pub fn with_up(self, up: u32) -> Head
        requires { up < 512 }
        ensures { result.0 ≡ self.0 % 512 + 512 * (up + 512 * (self.0 / 262144 % 512)) }
    {
        Head(self.0 % 512 + 512 * (up + 512 * self.size()))
    }

    // That of root n of a size, for the same state, inverted or not.
    pub fn at_root(self, n: u32, size: u32, inverted: bool) -> Head
        requires n_lt_limit_nodes { n < limit_nodes }
        requires size_bound { size < 512 }
        ensures { HeadHas result.0 (head_kind self.0) (2 * n) size (head_arity self.0) (xor_of inverted (head_inverted self.0)) }
    {
        Head::new(
            self.kind(),
            inverted ^ self.is_inverted(),
            self.arity(),
            2 * n,
            size,
        )
    }
}
