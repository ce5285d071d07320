//! What holds of a function, as a set of named bits. Contracts see the number of the bits.
ghost use Rattle.std.specs.Prelude.{⊤, ◌≡◌, ◌↔◌, [], ◌∷◌, codes, IsSome, IfSome};
ghost use Rattle.std.specs.Int.RustNames.{bit_and, bit_or};
ghost use Rattle.plan_options.specs.Flags.{bits_of, named_bits, default_bits, HasNamedBitsOnly, named_part, named_rest, has_bits};

use bitflags::{Flag, Flags};
use std::ops::{BitAnd, BitOr, Not};

/// What holds of a function: a set of named bits.
#[derive(Clone, Copy, PartialEq, Eq, Hash, Debug)]
pub struct FunctionFlags(u8);

impl FunctionFlags {
    /// It may be used where rows are grouped.
    pub const ALLOW_GROUP_AWARE: FunctionFlags = FunctionFlags(1);

    /// It may give more or fewer values than it is given.
    pub const CHANGES_LENGTH: FunctionFlags = FunctionFlags(2);

    /// It may give its values another name than that of its first input.
    pub const ALLOW_RENAME: FunctionFlags = FunctionFlags(4);

    /// It is told the name of its input in each group.
    pub const PASS_NAME_TO_APPLY: FunctionFlags = FunctionFlags(8);

    /// A wildcard among its inputs stands for all columns at one call, and not for a call each.
    pub const INPUT_WILDCARD_EXPANSION: FunctionFlags = FunctionFlags(16);

    /// It gives a single value.
    pub const RETURNS_SCALAR: FunctionFlags = FunctionFlags(32);

    /// It may run the engine in its turn.
    pub const OPTIONAL_RE_ENTRANT: FunctionFlags = FunctionFlags(64);

    /// It may have no inputs.
    pub const ALLOW_EMPTY_INPUTS: FunctionFlags = FunctionFlags(128);

    /// The flags by their names, in the order of their bits.
    const FLAGS: &'static [Flag<FunctionFlags>] = &[
        Flag {
            name: "ALLOW_GROUP_AWARE",
            value: FunctionFlags::ALLOW_GROUP_AWARE,
        },
        Flag {
            name: "CHANGES_LENGTH",
            value: FunctionFlags::CHANGES_LENGTH,
        },
        Flag {
            name: "ALLOW_RENAME",
            value: FunctionFlags::ALLOW_RENAME,
        },
        Flag {
            name: "PASS_NAME_TO_APPLY",
            value: FunctionFlags::PASS_NAME_TO_APPLY,
        },
        Flag {
            name: "INPUT_WILDCARD_EXPANSION",
            value: FunctionFlags::INPUT_WILDCARD_EXPANSION,
        },
        Flag {
            name: "RETURNS_SCALAR",
            value: FunctionFlags::RETURNS_SCALAR,
        },
        Flag {
            name: "OPTIONAL_RE_ENTRANT",
            value: FunctionFlags::OPTIONAL_RE_ENTRANT,
        },
        Flag {
            name: "ALLOW_EMPTY_INPUTS",
            value: FunctionFlags::ALLOW_EMPTY_INPUTS,
        },
    ];

    /// No bit.
    pub fn empty() -> Self
        ensures { bits_of result ≡ 0 }
    {
        Flags::empty()
    }

    /// Each bit that has a name.
    pub fn all() -> Self
        ensures { bits_of result ≡ named_bits }
    {
        Flags::all()
    }

    /// The number of the bits.
    pub fn bits(&self) -> u8
        ensures { result ≡ bits_of self.now }
    {
        self.0
    }

    /// The set of these bits. It is None exactly where a bit has no name, which is nowhere, since each
    /// of the eight bits has one.
    pub fn from_bits(bits: u8) -> Option<Self>
        ensures value { IfSome result (λ flags. bits_of flags ≡ bits) }
        ensures exactly_named { IsSome result ↔ HasNamedBitsOnly bits }
        ensures each_is_named { IsSome result }
    {
        Flags::from_bits(bits)
    }

    /// The set of those of these bits that have a name.
    pub fn from_bits_truncate(bits: u8) -> Self
        ensures { bits_of result ≡ named_part bits }
    {
        Flags::from_bits_truncate(bits)
    }

    /// Whether each bit of the other is set.
    pub fn contains(&self, other: Self) -> bool
        ensures { result ≡ has_bits (bits_of self.now) (bits_of other) }
    {
        Flags::contains(self, other)
    }
}

impl Flags for FunctionFlags {
    type Bits = u8;

    ghost exact = { ⊤ };

    ghost table = { (codes "ALLOW_GROUP_AWARE", 1) ∷ (codes "CHANGES_LENGTH", 2) ∷ (codes "ALLOW_RENAME", 4) ∷ (codes "PASS_NAME_TO_APPLY", 8) ∷ (codes "INPUT_WILDCARD_EXPANSION", 16) ∷ (codes "RETURNS_SCALAR", 32) ∷ (codes "OPTIONAL_RE_ENTRANT", 64) ∷ (codes "ALLOW_EMPTY_INPUTS", 128) ∷ [] };

    ghost set_of = { bits_of };

    fn flags<'a>() -> &'a [Flag<FunctionFlags>] {
        FunctionFlags::FLAGS
    }

    fn bits(&self) -> u8 {
        self.0
    }

    fn from_bits_retain(bits: u8) -> FunctionFlags {
        FunctionFlags(bits)
    }
}

// It may be used where rows are grouped.
impl Default for FunctionFlags {
    ghost is_default = { λ flags. bits_of flags ≡ default_bits };

    fn default() -> Self {
        FunctionFlags::ALLOW_GROUP_AWARE
    }
}

// The bits of either.
impl BitOr for FunctionFlags {
    type Output = FunctionFlags;

    ghost bitor_gives = { λ a b r. bits_of r ≡ bit_or (bits_of a) (bits_of b) };

    fn bitor(self, other: FunctionFlags) -> FunctionFlags {
        self.union(other)
    }
}

// The bits of both.
impl BitAnd for FunctionFlags {
    type Output = FunctionFlags;

    ghost bitand_gives = { λ a b r. bits_of r ≡ bit_and (bits_of a) (bits_of b) };

    fn bitand(self, other: FunctionFlags) -> FunctionFlags {
        self.intersection(other)
    }
}

// The named bits that are not set.
impl Not for FunctionFlags {
    type Output = FunctionFlags;

    ghost not_gives = { λ a r. bits_of r ≡ named_rest (bits_of a) };

    fn not(self) -> FunctionFlags {
        self.complement()
    }
}
