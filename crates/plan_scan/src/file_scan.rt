//! The formats of files.
ghost use Rattle.std.specs.Prelude.{◌≡◌};
ghost use Rattle.plan_scan.specs.Sources.{kind_name, sorts_projection, streams};

use plan_core::FileScanOptions;

/// The format of the files of a scan.
#[derive(Clone, Copy, PartialEq, Eq, Hash, Debug)]
pub enum FileScan {
    /// Text, a row a line, with commas.
    Csv,
    /// JSON, an object a line.
    NDJson,
    /// Parquet files.
    Parquet,
    /// Arrow files.
    Ipc,
}

impl FileScan {
    /// Whether a scan may be read in pieces: one of Csv or of Parquet.
    pub fn streamable(&self) -> bool
        ensures { result ≡ streams self.now }
    {
        matches!(self, FileScan::Csv | FileScan::Parquet)
    }

    /// Whether the columns that are read are put in the order of the file: of Csv, and of Ipc where the rows are numbered.
    pub fn sort_projection(&self, file_options: &FileScanOptions) -> bool
        ensures { result ≡ sorts_projection self.now file_options.now }
    {
        match self {
            FileScan::Csv => true,
            FileScan::Ipc => file_options.row_index.is_some(),
            FileScan::NDJson | FileScan::Parquet => false,
        }
    }

    /// The name of the format, as it is written here.
    pub fn name(&self) -> &str
        ensures { result.now ≡ kind_name self.now }
    {
        match self {
            FileScan::Csv => "Csv",
            FileScan::NDJson => "NDJson",
            FileScan::Parquet => "Parquet",
            FileScan::Ipc => "Ipc",
        }
    }
}
