//! What calls of rules do.
ghost use Rattle.std.specs.Prelude.{◌≡◌, ◌<◌, ◌+◌, ◌^◌};
ghost use Rattle.plan_pass_laws.specs.Patterns.{is_counted};
ghost use Rattle.plan_pass_laws.specs.Settling.{both, idle};
ghost use Rattle.plan_reshape.specs.Walking.{done_of};

use plan_rule::RuleKind;

/// What some calls of rules did.
#[derive(Clone, Copy)]
pub struct Work {
    /// Whether something was put in the place of something.
    pub changed: bool,
    /// How often a rule did so whose kind isn't `Other`.
    pub replaced: u64,
}

impl Work {
    /// Nothing.
    pub(crate) fn none() -> Work
        ensures { done_of result ≡ idle }
    {
        Work {
            changed: false,
            replaced: 0,
        }
    }

    /// This, and then the other.
    pub(crate) fn and(self, other: Work) -> Work
        requires { self.replaced + other.replaced < 2 ^ 64 }
        ensures { done_of result ≡ both (done_of self) (done_of other) }
    {
        Work {
            changed: self.changed || other.changed,
            replaced: self.replaced + other.replaced,
        }
    }
}

/// Whether the replacements of rules of a kind are counted.
pub(crate) fn counts(kind: RuleKind) -> bool
    ensures { result ≡ is_counted kind }
{
    match kind {
        RuleKind::Other => false,
        _ => true,
    }
}
