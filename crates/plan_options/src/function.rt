//! The options of functions.
ghost use Rattle.std.specs.Prelude.{◌≡◌};

use crate::flags::FunctionFlags;
use std::marker::Model;

/// How a function is applied where rows are grouped.
#[derive(Clone, Copy, PartialEq, Eq, Hash, Debug)]
pub enum ApplyOptions {
    /// To the values of each group.
    GroupWise,
    /// To the list of all values.
    ApplyList,
    /// To the values as they stand.
    ElementWise,
}

/// A truth value that no safe call makes false. A contract sees the truth value.
#[derive(Clone, Copy, PartialEq, Eq, Hash, Debug)]
pub struct UnsafeBool(bool);

impl Model for UnsafeBool {
    ghost use Rattle.std.specs.Prelude.{Bool};

    ghost Value = { Bool };

    ghost view = { λ a. a.0 };

    ghost inverse = { λ b. record { 0 = b } };
}

// True.
impl Default for UnsafeBool {
    ghost use Rattle.std.specs.Prelude.{◌≡◌, true};

    ghost is_default = { λ b. b ≡ true };

    fn default() -> Self {
        UnsafeBool(true)
    }
}

/// How the types of a function's inputs may be changed.
#[derive(Clone, Copy, PartialEq, Eq, Hash, Debug)]
pub enum CastingRules {
    /// To that of the first input, where nothing is lost.
    FirstArgLossless,
    /// To one that holds them all.
    Supertype,
}

impl CastingRules {
    /// The rule that types are changed to one that holds them all.
    pub fn cast_to_supertypes() -> Self
        ensures { result ≡ CastingRules.Supertype }
    {
        CastingRules::Supertype
    }
}

/// What a function does beside its values.
#[derive(Clone, Copy, PartialEq, Eq, Hash, Debug)]
pub struct FunctionOptions {
    /// How it is applied where rows are grouped.
    pub collect_groups: ApplyOptions,
    /// Whether the number of its values is checked.
    pub check_lengths: UnsafeBool,
    /// What else holds of it.
    pub flags: FunctionFlags,
    /// How the types of its inputs may be changed; they stay where it is absent.
    pub cast_options: Option<CastingRules>,
}

impl FunctionOptions {
    ghost use Rattle.plan_options.specs.Function.{is_elementwise};

    /// Whether the number of the function's values is checked.
    pub fn check_lengths(&self) -> bool
        ensures { result ≡ self.now.check_lengths }
    {
        self.check_lengths.0
    }

    /// Whether the function gives a value for each row by that row alone: it is applied to the list of
    /// all values or to the values as they stand, and neither changes their number nor gives just one.
    pub fn is_elementwise(&self) -> bool
        ensures { result ≡ is_elementwise self.now }
    {
        matches!(
            self.collect_groups,
            ApplyOptions::ElementWise | ApplyOptions::ApplyList
        ) && !self.flags.contains(FunctionFlags::CHANGES_LENGTH)
            && !self.flags.contains(FunctionFlags::RETURNS_SCALAR)
    }
}

// By groups, with a check of the number of values, and with the default flags.
impl Default for FunctionOptions {
    ghost use Rattle.std.specs.Prelude.{◌≡◌};
    ghost use Rattle.plan_options.specs.Function.{default_function};

    ghost is_default = { λ options. options ≡ default_function };

    fn default() -> Self {
        FunctionOptions {
            collect_groups: ApplyOptions::GroupWise,
            check_lengths: UnsafeBool::default(),
            flags: FunctionFlags::default(),
            cast_options: None,
        }
    }
}
