//! The options of groups.

/// What a grouping does beside its keys and aggregates.
#[derive(Clone, Copy, PartialEq, Eq, Hash, Debug)]
pub struct GroupbyOptions {
    /// The first group that is put out, and how many groups; all of them where it is absent.
    pub slice: Option<(i64, usize)>,
}

// All groups.
impl Default for GroupbyOptions {
    ghost use Rattle.std.specs.Prelude.{◌≡◌};
    ghost use Rattle.plan_options.specs.Group.{default_group};

    ghost is_default = { λ options. options ≡ default_group };

    fn default() -> Self {
        GroupbyOptions { slice: None }
    }
}
