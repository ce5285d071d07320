//! From a document to the text of its plan's schema.
ghost use Rattle.plan_tool.specs.Answers.{SaysOfDocument};
ghost use Rattle.plan_top.specs.Chains.{Boxes};
ghost use Rattle.plan_tool.specs.declared.command.Command.TheVariants.{Check};

use crate::check::check;
use crate::stop::Stop;
use plan_doc::Document;
use plan_text::write_schema;
use std::alloc::Global;

/// The text of the columns that the plan of a document has, or why there is none. The document's flags and tables don't
/// matter.
pub fn schema(alloc: Global, document: Document) -> Result<String, Stop>
    ensures { (boxes : Boxes) → SaysOfDocument boxes Check result document }
{
    let schema = check(alloc, document.root, &document.lp, &document.ex)?;
    Ok(write_schema(alloc, &schema)?)
}
