//! What the optimiser may do, as a set of named bits. Contracts see the number of the bits.
ghost use Rattle.std.specs.Prelude.{⊤, ◌≡◌, ◌↔◌, [], ◌∷◌, codes, IsSome, IfSome};
ghost use Rattle.std.specs.Int.RustNames.{bit_and, bit_or};
ghost use Rattle.plan_core.specs.Flags.{bits_of, named_bits, HasNamedBitsOnly, named_part, named_rest, has_bits};

use bitflags::{Flag, Flags};
use std::ops::{BitAnd, BitOr, Not};

/// What the optimiser may do: a set of named bits.
#[derive(Clone, Copy, PartialEq, Eq, Debug)]
pub struct OptFlags(u32);

/// What a caller lets the optimiser do.
pub type AllowedOptimizations = OptFlags;

impl OptFlags {
    /// Drops columns that nothing reads.
    pub const PROJECTION_PUSHDOWN: OptFlags = OptFlags(1);

    /// Filters rows as early as it can.
    pub const PREDICATE_PUSHDOWN: OptFlags = OptFlags(4);

    /// Merges neighbouring nodes that add columns.
    pub const CLUSTER_WITH_COLUMNS: OptFlags = OptFlags(8);

    /// Makes operand types agree.
    pub const TYPE_COERCION: OptFlags = OptFlags(16);

    /// Simplifies expressions.
    pub const SIMPLIFY_EXPR: OptFlags = OptFlags(32);

    /// Reads a file once for several scans.
    pub const FILE_CACHING: OptFlags = OptFlags(64);

    /// Cuts rows off as early as it can.
    pub const SLICE_PUSHDOWN: OptFlags = OptFlags(128);

    /// Runs equal parts of a plan once.
    pub const COMM_SUBPLAN_ELIM: OptFlags = OptFlags(256);

    /// Computes equal expressions once.
    pub const COMM_SUBEXPR_ELIM: OptFlags = OptFlags(512);

    /// Runs in batches.
    pub const STREAMING: OptFlags = OptFlags(1024);

    /// Runs in batches, on the newer engine.
    pub const NEW_STREAMING: OptFlags = OptFlags(2048);

    /// Runs each step at once.
    pub const EAGER: OptFlags = OptFlags(4096);

    /// Estimates how many rows a node gives.
    pub const ROW_ESTIMATE: OptFlags = OptFlags(8192);

    /// Selects columns without a look at their values.
    pub const FAST_PROJECTION: OptFlags = OptFlags(16384);

    /// Turns filters over joins into join keys.
    pub const COLLAPSE_JOINS: OptFlags = OptFlags(32768);

    /// Drops orders that nothing observes.
    pub const CHECK_ORDER_OBSERVE: OptFlags = OptFlags(65536);

    /// Checks types.
    pub const TYPE_CHECK: OptFlags = OptFlags(131072);

    /// The flags by their names, in the order of their bits.
    const FLAGS: &'static [Flag<OptFlags>] = &[
        Flag {
            name: "PROJECTION_PUSHDOWN",
            value: OptFlags::PROJECTION_PUSHDOWN,
        },
        Flag {
            name: "PREDICATE_PUSHDOWN",
            value: OptFlags::PREDICATE_PUSHDOWN,
        },
        Flag {
            name: "CLUSTER_WITH_COLUMNS",
            value: OptFlags::CLUSTER_WITH_COLUMNS,
        },
        Flag {
            name: "TYPE_COERCION",
            value: OptFlags::TYPE_COERCION,
        },
        Flag {
            name: "SIMPLIFY_EXPR",
            value: OptFlags::SIMPLIFY_EXPR,
        },
        Flag {
            name: "FILE_CACHING",
            value: OptFlags::FILE_CACHING,
        },
        Flag {
            name: "SLICE_PUSHDOWN",
            value: OptFlags::SLICE_PUSHDOWN,
        },
        Flag {
            name: "COMM_SUBPLAN_ELIM",
            value: OptFlags::COMM_SUBPLAN_ELIM,
        },
        Flag {
            name: "COMM_SUBEXPR_ELIM",
            value: OptFlags::COMM_SUBEXPR_ELIM,
        },
        Flag {
            name: "STREAMING",
            value: OptFlags::STREAMING,
        },
        Flag {
            name: "NEW_STREAMING",
            value: OptFlags::NEW_STREAMING,
        },
        Flag {
            name: "EAGER",
            value: OptFlags::EAGER,
        },
        Flag {
            name: "ROW_ESTIMATE",
            value: OptFlags::ROW_ESTIMATE,
        },
        Flag {
            name: "FAST_PROJECTION",
            value: OptFlags::FAST_PROJECTION,
        },
        Flag {
            name: "COLLAPSE_JOINS",
            value: OptFlags::COLLAPSE_JOINS,
        },
        Flag {
            name: "CHECK_ORDER_OBSERVE",
            value: OptFlags::CHECK_ORDER_OBSERVE,
        },
        Flag {
            name: "TYPE_CHECK",
            value: OptFlags::TYPE_CHECK,
        },
    ];

    /// No bit.
    pub fn empty() -> Self
        ensures { bits_of result ≡ 0 }
    {
        Flags::empty()
    }

    /// Each bit that has a name.
    pub fn all() -> Self
        ensures { bits_of result ≡ named_bits }
    {
        Flags::all()
    }

    /// The number of the bits.
    pub fn bits(&self) -> u32
        ensures { result ≡ bits_of self.now }
    {
        self.0
    }

    /// The set of these bits. It is None exactly where a bit has no name.
    pub fn from_bits(bits: u32) -> Option<Self>
        ensures value { IfSome result (λ flags. bits_of flags ≡ bits) }
        ensures exactly_named { IsSome result ↔ HasNamedBitsOnly bits }
    {
        Flags::from_bits(bits)
    }

    /// The set of those of these bits that have a name.
    pub fn from_bits_truncate(bits: u32) -> Self
        ensures { bits_of result ≡ named_part bits }
    {
        Flags::from_bits_truncate(bits)
    }

    /// Whether each bit of the other is set.
    pub fn contains(&self, other: Self) -> bool
        ensures { result ≡ has_bits (bits_of self.now) (bits_of other) }
    {
        Flags::contains(self, other)
    }

    /// What it takes to know the schema of a plan: type coercion and the check of types.
    pub fn schema_only() -> Self
        ensures { bits_of result ≡ 131088 }
    {
        OptFlags::TYPE_COERCION | OptFlags::TYPE_CHECK
    }

    /// Whether `EAGER` is set.
    pub fn eager(&self) -> bool
        ensures { result ≡ has_bits (bits_of self.now) 4096 }
    {
        self.contains(OptFlags::EAGER)
    }

    /// Whether `CLUSTER_WITH_COLUMNS` is set.
    pub fn cluster_with_columns(&self) -> bool
        ensures { result ≡ has_bits (bits_of self.now) 8 }
    {
        self.contains(OptFlags::CLUSTER_WITH_COLUMNS)
    }

    /// Whether `COLLAPSE_JOINS` is set.
    pub fn collapse_joins(&self) -> bool
        ensures { result ≡ has_bits (bits_of self.now) 32768 }
    {
        self.contains(OptFlags::COLLAPSE_JOINS)
    }

    /// Whether `PREDICATE_PUSHDOWN` is set.
    pub fn predicate_pushdown(&self) -> bool
        ensures { result ≡ has_bits (bits_of self.now) 4 }
    {
        self.contains(OptFlags::PREDICATE_PUSHDOWN)
    }

    /// Whether `PROJECTION_PUSHDOWN` is set.
    pub fn projection_pushdown(&self) -> bool
        ensures { result ≡ has_bits (bits_of self.now) 1 }
    {
        self.contains(OptFlags::PROJECTION_PUSHDOWN)
    }

    /// Whether `SIMPLIFY_EXPR` is set.
    pub fn simplify_expr(&self) -> bool
        ensures { result ≡ has_bits (bits_of self.now) 32 }
    {
        self.contains(OptFlags::SIMPLIFY_EXPR)
    }

    /// Whether `SLICE_PUSHDOWN` is set.
    pub fn slice_pushdown(&self) -> bool
        ensures { result ≡ has_bits (bits_of self.now) 128 }
    {
        self.contains(OptFlags::SLICE_PUSHDOWN)
    }

    /// Whether `STREAMING` is set.
    pub fn streaming(&self) -> bool
        ensures { result ≡ has_bits (bits_of self.now) 1024 }
    {
        self.contains(OptFlags::STREAMING)
    }

    /// Whether `NEW_STREAMING` is set.
    pub fn new_streaming(&self) -> bool
        ensures { result ≡ has_bits (bits_of self.now) 2048 }
    {
        self.contains(OptFlags::NEW_STREAMING)
    }

    /// Whether `FAST_PROJECTION` is set.
    pub fn fast_projection(&self) -> bool
        ensures { result ≡ has_bits (bits_of self.now) 16384 }
    {
        self.contains(OptFlags::FAST_PROJECTION)
    }
}

impl Flags for OptFlags {
    type Bits = u32;

    ghost exact = { ⊤ };

    ghost table = { (codes "PROJECTION_PUSHDOWN", 1) ∷ (codes "PREDICATE_PUSHDOWN", 4) ∷ (codes "CLUSTER_WITH_COLUMNS", 8) ∷ (codes "TYPE_COERCION", 16) ∷ (codes "SIMPLIFY_EXPR", 32) ∷ (codes "FILE_CACHING", 64) ∷ (codes "SLICE_PUSHDOWN", 128) ∷ (codes "COMM_SUBPLAN_ELIM", 256) ∷ (codes "COMM_SUBEXPR_ELIM", 512) ∷ (codes "STREAMING", 1024) ∷ (codes "NEW_STREAMING", 2048) ∷ (codes "EAGER", 4096) ∷ (codes "ROW_ESTIMATE", 8192) ∷ (codes "FAST_PROJECTION", 16384) ∷ (codes "COLLAPSE_JOINS", 32768) ∷ (codes "CHECK_ORDER_OBSERVE", 65536) ∷ (codes "TYPE_CHECK", 131072) ∷ [] };

    ghost set_of = { bits_of };

    fn flags<'a>() -> &'a [Flag<OptFlags>] {
        OptFlags::FLAGS
    }

    fn bits(&self) -> u32 {
        self.0
    }

    fn from_bits_retain(bits: u32) -> OptFlags {
        OptFlags(bits)
    }
}

// All but file caching, both kinds of streaming, and eager runs.
impl Default for OptFlags {
    ghost is_default = { λ flags. bits_of flags ≡ 254909 };

    fn default() -> Self {
        let left_out = OptFlags::FILE_CACHING
            | OptFlags::STREAMING
            | OptFlags::NEW_STREAMING
            | OptFlags::EAGER;
        !left_out
    }
}

// The bits of either.
impl BitOr for OptFlags {
    type Output = OptFlags;

    ghost bitor_gives = { λ a b r. bits_of r ≡ bit_or (bits_of a) (bits_of b) };

    fn bitor(self, other: OptFlags) -> OptFlags {
        self.union(other)
    }
}

// The bits of both.
impl BitAnd for OptFlags {
    type Output = OptFlags;

    ghost bitand_gives = { λ a b r. bits_of r ≡ bit_and (bits_of a) (bits_of b) };

    fn bitand(self, other: OptFlags) -> OptFlags {
        self.intersection(other)
    }
}

// The named bits that are not set.
impl Not for OptFlags {
    type Output = OptFlags;

    ghost not_gives = { λ a r. bits_of r ≡ named_rest (bits_of a) };

    fn not(self) -> OptFlags {
        self.complement()
    }
}
