//! Functions over columns.
ghost use Rattle.std.specs.Prelude.{◌≡◌, ◌↔◌, IsTrue};

use plan_options::{ApplyOptions, FunctionOptions};

/// A function over columns.
#[derive(Clone, Copy, PartialEq, Eq, Hash, Debug)]
pub enum FunctionExpr {
    /// Whether a truth value is false; null where it is null.
    Not,
    /// Whether a value is null.
    IsNull,
    /// Whether a value isn't null.
    IsNotNull,
    /// The first input, and the second where that is null.
    FillNull,
    /// The values, last row first.
    Reverse,
    /// The running sums; a null stays null and adds nothing.
    CumSum,
}

impl FunctionExpr {
    ghost use Rattle.plan_expr.specs.Functions.{carries_own as is_carried, inputs_of, is_row_wise, options_of};

    /// The options that the function must carry.
    pub fn options(&self) -> FunctionOptions
        ensures { result ≡ options_of self.now }
    {
        let collect_groups = match self {
            FunctionExpr::Not
            | FunctionExpr::IsNull
            | FunctionExpr::IsNotNull
            | FunctionExpr::FillNull => ApplyOptions::ElementWise,
            FunctionExpr::Reverse | FunctionExpr::CumSum => ApplyOptions::GroupWise,
        };
        FunctionOptions {
            collect_groups,
            ..FunctionOptions::default()
        }
    }

    /// How many inputs the function takes.
    pub fn inputs(&self) -> usize
        ensures { result ≡ inputs_of self.now }
    {
        match self {
            FunctionExpr::FillNull => 2,
            FunctionExpr::Not
            | FunctionExpr::IsNull
            | FunctionExpr::IsNotNull
            | FunctionExpr::Reverse
            | FunctionExpr::CumSum => 1,
        }
    }

    /// Whether these are the options that the function must carry.
    pub fn carries(&self, options: &FunctionOptions) -> bool
        ensures value { result ≡ is_carried self.now options.now }
        ensures own { IsTrue result ↔ (options.now ≡ options_of self.now) }
    {
        *options == self.options()
    }

    /// Whether each value that the function gives comes of one row alone.
    pub fn is_elementwise(&self) -> bool
        ensures { result ≡ is_row_wise self.now }
    {
        match self {
            FunctionExpr::Not
            | FunctionExpr::IsNull
            | FunctionExpr::IsNotNull
            | FunctionExpr::FillNull => true,
            FunctionExpr::Reverse | FunctionExpr::CumSum => false,
        }
    }
}
