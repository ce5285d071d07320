//! The options of frames that are put together, one after another or side by side.

/// What a caller asks of a union.
#[derive(Clone, Copy, PartialEq, Eq, Hash, Debug)]
pub struct UnionArgs {
    /// Whether the inputs may be evaluated at one time.
    pub parallel: bool,
    /// Whether each column is made one piece afterwards.
    pub rechunk: bool,
    /// Whether columns of unlike types get a type that holds both.
    pub to_supertypes: bool,
    /// Whether an input may lack columns of another.
    pub diagonal: bool,
    /// Whether the inputs are the parts of one dataset.
    pub from_partitioned_ds: bool,
    /// Whether the rows stand in the order of the inputs.
    pub maintain_order: bool,
}

// In parallel and in order, and nothing else.
impl Default for UnionArgs {
    ghost use Rattle.std.specs.Prelude.{◌≡◌};
    ghost use Rattle.plan_options.specs.Union.{default_args};

    ghost is_default = { λ args. args ≡ default_args };

    fn default() -> Self {
        UnionArgs {
            parallel: true,
            rechunk: false,
            to_supertypes: false,
            diagonal: false,
            from_partitioned_ds: false,
            maintain_order: true,
        }
    }
}

/// What a union does beside putting its inputs one after another.
#[derive(Clone, Copy, PartialEq, Eq, Hash, Debug)]
pub struct UnionOptions {
    /// The first row that is put out, and how many rows; all of them where it is absent.
    pub slice: Option<(i64, usize)>,
    /// How many rows there are, where it is known, and how many there may be.
    pub rows: (Option<usize>, usize),
    /// Whether the inputs may be evaluated at one time.
    pub parallel: bool,
    /// Whether the inputs are the parts of one dataset.
    pub from_partitioned_ds: bool,
    /// Whether the inputs of unions below were taken up.
    pub flattened_by_opt: bool,
    /// Whether each column is made one piece afterwards.
    pub rechunk: bool,
    /// Whether the rows stand in the order of the inputs.
    pub maintain_order: bool,
}

// All rows, and nothing else.
impl Default for UnionOptions {
    ghost use Rattle.std.specs.Prelude.{◌≡◌};
    ghost use Rattle.plan_options.specs.Union.{default_union};

    ghost is_default = { λ options. options ≡ default_union };

    fn default() -> Self {
        UnionOptions {
            slice: None,
            rows: (None, 0),
            parallel: false,
            from_partitioned_ds: false,
            flattened_by_opt: false,
            rechunk: false,
            maintain_order: false,
        }
    }
}

impl From<UnionArgs> for UnionOptions {
    ghost use Rattle.std.specs.Prelude.{◌≡◌};
    ghost use Rattle.plan_options.specs.Union.{union_of};

    ghost from_gives = { λ args options. options ≡ union_of args };

    /// The options of a union of which this is asked. What the arguments don't say is as by default.
    fn from(args: UnionArgs) -> Self {
        UnionOptions {
            slice: None,
            rows: (None, 0),
            parallel: args.parallel,
            from_partitioned_ds: args.from_partitioned_ds,
            flattened_by_opt: false,
            rechunk: args.rechunk,
            maintain_order: args.maintain_order,
        }
    }
}

/// What it takes to put frames side by side.
#[derive(Clone, Copy, PartialEq, Eq, Hash, Debug)]
pub struct HConcatOptions {
    /// Whether the inputs may be evaluated at one time.
    pub parallel: bool,
}

// One input after another.
impl Default for HConcatOptions {
    ghost use Rattle.std.specs.Prelude.{◌≡◌};
    ghost use Rattle.plan_options.specs.Union.{default_concat};

    ghost is_default = { λ options. options ≡ default_concat };

    fn default() -> Self {
        HConcatOptions { parallel: false }
    }
}
