//! The objects of functions of whole frames, as text, and their names.
ghost use Rattle.std.specs.Prelude.{◌≡◌, ◌∷◌, ◌++◌, OnOk};
ghost use Rattle.json.specs.Token.{key as key_token};
ghost use Rattle.json.specs.Tree.{json_tokens};
ghost use Rattle.serde_json.specs.Data.{string};
ghost use Rattle.serde_json.specs.Written.{outline};
ghost use Rattle.plan_text_pieces.specs.Values.{nullable_data, number_data};
ghost use Rattle.plan_text_pieces.specs.Functions.{count_data, explode_data, frame_function_data, frame_function_name as function_text, numbering_data, rename_data, told_data, unpivot_data};

use crate::done;
use crate::scan_sources::write_sources;
use crate::writing::write_names_at;
use json::Writer;
use plan_core::PlSmallStr;
use plan_ir::FunctionIR;
use plan_scan::{FileScan, ScanSources};
use std::alloc::AllocError;

/// The name of a function of whole frames in a document, as `Unpivot`.
pub fn frame_function_name(function: &FunctionIR) -> &'static str
    ensures { result.now ≡ function_text function.now }
{
    match function {
        FunctionIR::Rename { .. } => "Rename",
        FunctionIR::RowIndex { .. } => "RowIndex",
        FunctionIR::Unpivot { .. } => "Unpivot",
        FunctionIR::Explode { .. } => "Explode",
        FunctionIR::FastCount { .. } => "FastCount",
    }
}

/// Writes the object of a renaming.
#[tactic(auto, unfolding(crate::specs::Functions::rename_data))]
fn write_rename(
    writer: &mut Writer,
    existing: &[PlSmallStr],
    new: &[PlSmallStr],
    swapping: bool,
) -> Result<(), AllocError>
    ensures tokens { OnOk result (writer.new.tokens
        ≡ writer.old.tokens ++ json_tokens (outline (rename_data existing.now new.now swapping))) }
    ensures before { OnOk result (writer.new.before ≡ writer.old.before) }
{
    done!(writer.begin_object());
    done!(write_names_at(writer, "existing", existing));
    done!(write_names_at(writer, "new", new));
    done!(writer.key("swapping"));
    done!(writer.boolean(swapping));
    writer.end_object()
}

/// Writes a number, or null.
fn write_optional_number(writer: &mut Writer, given: Option<u32>) -> Result<(), AllocError>
    ensures tokens { OnOk result (writer.new.tokens
        ≡ writer.old.tokens ++ json_tokens (outline (nullable_data number_data given))) }
    ensures before { OnOk result (writer.new.before ≡ writer.old.before) }
{
    match given {
        None => writer.null(),
        Some(number) => writer.u64(number as u64),
    }
}

/// Writes the object of a numbering of rows.
#[tactic(auto, unfolding(crate::specs::Functions::numbering_data))]
fn write_numbering(writer: &mut Writer, name: &str, offset: Option<u32>) -> Result<(), AllocError>
    ensures tokens { OnOk result (writer.new.tokens
        ≡ writer.old.tokens ++ json_tokens (outline (numbering_data name.now offset))) }
    ensures before { OnOk result (writer.new.before ≡ writer.old.before) }
{
    done!(writer.begin_object());
    done!(writer.key("name"));
    done!(writer.string(name));
    done!(writer.key("offset"));
    done!(write_optional_number(writer, offset));
    writer.end_object()
}

/// Writes a name, or null.
fn write_optional_name(writer: &mut Writer, given: &Option<PlSmallStr>) -> Result<(), AllocError>
    ensures tokens { OnOk result (writer.new.tokens
        ≡ writer.old.tokens ++ json_tokens (outline (nullable_data string given.now))) }
    ensures before { OnOk result (writer.new.before ≡ writer.old.before) }
{
    match given {
        None => writer.null(),
        Some(name) => writer.string(name.as_str()),
    }
}

/// Writes a key, and a name or null under it.
fn write_optional_name_at(
    writer: &mut Writer,
    key: &str,
    given: &Option<PlSmallStr>,
) -> Result<(), AllocError>
    ensures tokens { OnOk result (writer.new.tokens
        ≡ writer.old.tokens ++ key_token key.now ∷ json_tokens (outline (nullable_data string given.now))) }
    ensures before { OnOk result (writer.new.before ≡ writer.old.before) }
{
    done!(writer.key(key));
    write_optional_name(writer, given)
}

/// Writes the object of an unpivot.
#[tactic(auto, unfolding(crate::specs::Functions::unpivot_data))]
fn write_unpivot(
    writer: &mut Writer,
    on: &[PlSmallStr],
    index: &[PlSmallStr],
    variable_name: &Option<PlSmallStr>,
    value_name: &Option<PlSmallStr>,
) -> Result<(), AllocError>
    ensures tokens { OnOk result (writer.new.tokens
        ≡ writer.old.tokens ++ json_tokens (outline (unpivot_data (record { on = on.now; index = index.now; variable_name = variable_name.now; value_name = value_name.now })))) }
    ensures before { OnOk result (writer.new.before ≡ writer.old.before) }
{
    done!(writer.begin_object());
    done!(write_names_at(writer, "index", index));
    done!(write_names_at(writer, "on", on));
    done!(write_optional_name_at(writer, "value_name", value_name));
    done!(write_optional_name_at(writer, "variable_name", variable_name));
    writer.end_object()
}

/// Writes the object of an explode.
#[tactic(auto, unfolding(crate::specs::Functions::explode_data))]
fn write_explode(writer: &mut Writer, columns: &[PlSmallStr]) -> Result<(), AllocError>
    ensures tokens { OnOk result (writer.new.tokens
        ≡ writer.old.tokens ++ json_tokens (outline (explode_data columns.now))) }
    ensures before { OnOk result (writer.new.before ≡ writer.old.before) }
{
    done!(writer.begin_object());
    done!(write_names_at(writer, "columns", columns));
    writer.end_object()
}

/// Writes the object of a count of the rows of files.
#[tactic(auto, unfolding(crate::specs::Functions::count_data))]
fn write_count(
    writer: &mut Writer,
    from: &ScanSources,
    format: &FileScan,
    alias: &Option<PlSmallStr>,
) -> Result<(), AllocError>
    ensures tokens { OnOk result (writer.new.tokens
        ≡ writer.old.tokens ++ json_tokens (outline (count_data from.now format.now alias.now))) }
    ensures before { OnOk result (writer.new.before ≡ writer.old.before) }
{
    done!(writer.begin_object());
    done!(write_optional_name_at(writer, "alias", alias));
    done!(writer.key("kind"));
    done!(writer.string(format.name()));
    done!(writer.key("sources"));
    done!(write_sources(writer, from));
    writer.end_object()
}

/// Writes the object of what a function is told.
fn write_told(writer: &mut Writer, function: &FunctionIR) -> Result<(), AllocError>
    ensures tokens { OnOk result (writer.new.tokens
        ≡ writer.old.tokens ++ json_tokens (outline (told_data function.now))) }
    ensures before { OnOk result (writer.new.before ≡ writer.old.before) }
{
    match function {
        FunctionIR::Rename {
            existing,
            new,
            swapping,
        } => write_rename(writer, existing.as_slice(), new.as_slice(), *swapping),
        FunctionIR::RowIndex { name, offset } => write_numbering(writer, name.as_str(), *offset),
        FunctionIR::Unpivot { args } => write_unpivot(
            writer,
            args.on.as_slice(),
            args.index.as_slice(),
            &args.variable_name,
            &args.value_name,
        ),
        FunctionIR::Explode { columns } => write_explode(writer, columns.as_slice()),
        FunctionIR::FastCount {
            sources,
            scan_type,
            alias,
        } => write_count(writer, sources, scan_type, alias),
    }
}

/// Writes the object of a function, under its name.
pub fn write_frame_function(writer: &mut Writer, function: &FunctionIR) -> Result<(), AllocError>
    ensures tokens { OnOk result (writer.new.tokens
        ≡ writer.old.tokens ++ json_tokens (outline (frame_function_data function.now))) }
    ensures before { OnOk result (writer.new.before ≡ writer.old.before) }
{
    done!(writer.begin_object());
    done!(writer.key(frame_function_name(function)));
    done!(write_told(writer, function));
    writer.end_object()
}
