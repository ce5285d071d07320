//! Texts between brackets, with commas.
ghost use Rattle.std.specs.Prelude.{◌≡◌, List, ℕ, ◌++◌, map, IfOk, string_bytes};
ghost use Rattle.plan_options.specs.Texts.{bracketed};

use plan_core::PlSmallStr;
use std::alloc::{AllocError, Global};

/// What is read as a text.
pub trait AsStr {
    ghost text_of: { Self → List ℕ };

    /// The text.
    fn as_str(&self) -> &str
        ensures { result.now ≡ text_of self.now };
}

impl AsStr for PlSmallStr {
    ghost text_of = { λ text. text };

    fn as_str(&self) -> &str {
        self.as_str()
    }
}

impl AsStr for String {
    ghost text_of = { string_bytes };

    fn as_str(&self) -> &str {
        self.as_str()
    }
}

/// The text, and behind it the items between brackets, with a comma and a space between each two of
/// them. It refuses only where memory is short.
pub fn comma_delimited<S: AsStr>(
    alloc: Global,
    s: String,
    items: &[S],
) -> Result<String, AllocError>
    ensures { IfOk result (λ text. string_bytes text ≡ string_bytes s ++ bracketed (map S.text_of items.now)) }
{
    let _ = alloc;
    let mut text = s;
    text.push('(')?;
    for (at, item) in items.iter().enumerate() {
        if at > 0 {
            text.push_str(", ")?;
        }
        text.push_str(item.as_str())?;
    }
    text.push(')')?;
    Ok(text)
}
