//! The commands of the program.
ghost use Rattle.std.specs.Prelude.{map, string_bytes, IfSome, IfNone};
ghost use Rattle.plan_tool.specs.Commands.{Asks, IsUsage};

/// What the program is asked to do with a document.
#[derive(Clone, Copy, PartialEq, Eq, Hash, Debug)]
pub enum Command {
    /// To list its optimised plan.
    Optimize,
    /// To check its plan, and to write the columns that it has.
    Check,
}

/// The command that the words ask for, if they do: they are one word, `optimize` or `check`.
pub fn command_of(words: &[String]) -> Option<Command>
    ensures asked { IfSome result (Asks (map string_bytes words.now)) }
    ensures none { IfNone result (IsUsage (map string_bytes words.now)) }
{
    if words.len() != 1 {
        return None;
    }
    match words[0].as_str() {
        "optimize" => Some(Command::Optimize),
        "check" => Some(Command::Check),
        _ => None,
    }
}
