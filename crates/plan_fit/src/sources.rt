//! The tables of the sources of scans.
ghost use Rattle.std.specs.Prelude.{◌≡◌, IfSome, option_copied};
ghost use Rattle.plan_scan.specs.Sources.{source_of};
ghost use Rattle.plan_table.specs.Tables.{IsTable, table_at};
ghost use Rattle.plan_fit.specs.Sources.{key_of};

use plan_scan::ScanSourceRef;
use plan_table::{SourceKey, Table, Tables};

/// The table of a source of a scan, if it has one.
pub fn table_of<'a>(source: ScanSourceRef<'_>, tables: &'a Tables) -> Option<&'a Table>
    ensures found { option_copied result ≡ table_at tables.now (key_of (source_of source.entry)) }
    ensures formed { IfSome result (λ table. IsTable table.now) }
{
    match source {
        ScanSourceRef::Path(path) => tables.get_path(path.as_str()),
        ScanSourceRef::Buffer(number) => tables.get(&SourceKey::Buffer(number)),
    }
}
