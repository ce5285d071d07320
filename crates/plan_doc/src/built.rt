//! What is refused of whole documents until it is built. Each test goes when its form is built.
ghost use Rattle.serde_json.specs.View.{view};
ghost use Rattle.plan_doc_parts.specs.Gives.{Gives};
ghost use Rattle.plan_doc.specs.Built.{built_flags as built_flags_of, unshared_of};

use plan_doc_parts::{Fault, truth};
use serde_json::Value;

/// The flag whose pass isn't built: COLLAPSE_JOINS.
const UNBUILT_FLAGS: u32 = 32768;

/// The same flags, where that of the pass that isn't built is not among them; else `Form`. Bits without a name stay.
pub fn built_flags(flags: u32) -> Result<u32, Fault>
    ensures { Gives result (built_flags_of flags) }
{
    if flags & UNBUILT_FLAGS == 0 {
        Ok(flags)
    } else {
        Err(Fault::Form)
    }
}

/// The value of `shared`, which must be false.
#[tactic(auto, unfolding(crate::specs::Built::unshared_of))]
pub fn unshared(value: &Value) -> Result<bool, Fault>
    ensures { Gives result (unshared_of (view value.now)) }
{
    let shared = truth(value)?;
    if shared { Err(Fault::Form) } else { Ok(shared) }
}
