//! Where output names come from, and what they are.
ghost use Rattle.std.specs.Prelude.{◌≡◌};
ghost use Rattle.plan_text_pieces.specs.Origins.{name_text, origin_text};

use plan_expr::OutputName;

/// Where an output name comes from: `none`, `lit`, `col` or `alias`.
pub fn origin_name(name: &OutputName) -> &'static str
    ensures { result.now ≡ origin_text name.now }
{
    match name {
        OutputName::None => "none",
        OutputName::LiteralLhs(_) => "lit",
        OutputName::ColumnLhs(_) => "col",
        OutputName::Alias(_) => "alias",
    }
}

/// An output name's text, empty where there is none.
pub fn output_text(name: &OutputName) -> &str
    ensures { result.now ≡ name_text name.now }
{
    match name {
        OutputName::None => "",
        OutputName::LiteralLhs(name) | OutputName::ColumnLhs(name) | OutputName::Alias(name) => {
            name.as_str()
        }
    }
}
