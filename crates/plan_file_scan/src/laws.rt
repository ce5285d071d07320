//! Laws of the frames of scans, each the contract of a function that does nothing.
ghost use Rattle.std.specs.Prelude.{◌≡◌, List, Some, ℕ, true, [], Option};
ghost use Rattle.std.specs.List.{AllByRecursion};
ghost use Rattle.plan_core.specs.Columns.{Columns, HasDistinctNames, names_of, type_of};
ghost use Rattle.plan_core.specs.declared.data_type.DataType.{DataType as ValueType};
ghost use Rattle.plan_core.specs.declared.options.FileScanOptions.{FileScanOptions};
ghost use Rattle.plan_expr.specs.Leaves.{Name};
ghost use Rattle.plan_frame.specs.Frames.{HasSchema, Agree, Frame, names_or};
ghost use Rattle.plan_files.specs.FileColumns.{file_columns, hive_columns, plain_columns, read_names};
ghost use Rattle.plan_file_scan.specs.FileFrames.{Part, PartFits, scan_frame, parts_of};
ghost use Rattle.plan_core.specs.Names.{AreDistinct};
ghost use Rattle.plan_scan.specs.Source.{Source};
ghost use Rattle.plan_scan.specs.Stats.{Stats};
ghost use Rattle.plan_scan.specs.declared.file_scan.FileScan.{FileScan};
ghost use Rattle.plan_files.specs.FileReads.{left_names};
ghost use Rattle.plan_files.specs.HiveParts.{are_alike, are_one_each};
ghost use Rattle.plan_file_scan.specs.Left.{AreAmong, AreLeft, AreNamed, AreRead, Found, PartsAreLeft, ReadsAreLeft, columns_left, in_file_order, left_options, left_output, left_parts};

/// The frame of a scan has the columns that it puts out, where these are columns of its files, no two of which have one name, and
/// each of its sources has a table that holds the columns that the reader finds, and hive values of their types.
pub fn scan_frames_have_their_columns()
    ensures { (reader hive : Columns) (options : FileScanOptions) (ps : List Part) (out : Columns) → HasDistinctNames (file_columns reader hive options) → AllByRecursion (PartFits reader hive) ps → AllByRecursion (λ (c : Name × ValueType). type_of (file_columns reader hive options) c.0 ≡ Some c.1) out → HasSchema (scan_frame (names_of out) options ps) out }
{}

/// What is left of a scan has columns that differ by their names, where those of its files do: each asked one with the type that
/// it had, and no other but those that the reader finds.
pub fn columns_left_are_those_that_were()
    ensures { (wanted reads : List Name) (reader : Columns) (hive : Option (List Stats)) (options : FileScanOptions) → HasDistinctNames (file_columns reader (hive_columns hive) options) → AreLeft wanted reader (file_columns reader (hive_columns hive) options) (columns_left wanted reads reader hive options) }
{}

/// The hive parts that are left have the asked hive columns, with values of their types, and there is one for each source, where
/// the given ones are so.
pub fn parts_left_are_alike()
    ensures { (wanted : List Name) (hive : Option (List Stats)) (sources : ℕ) → are_alike hive ≡ true → are_one_each hive sources ≡ true → PartsAreLeft wanted hive (left_parts wanted hive) sources }
{}

/// What is left of a scan reads columns that its reader finds, none of them a hive column, each once and none that the scan didn't
/// read: those of its files that are asked and no other, or where only the numbers and the paths of its rows are asked at most one.
/// The asked names come once and are columns of the files, whose columns differ by their names, and the scan reads each that is
/// read from the files; what it is told to read is found by the reader and no hive column.
pub fn what_is_left_reads_its_columns()
    ensures { (kind : FileScan) (wanted : List Name) (told : Option (List Name)) (reader : Columns) (hive : Option (List Stats)) (options : FileScanOptions) → AreDistinct wanted → AreAmong wanted (names_of (file_columns reader (hive_columns hive) options)) → HasDistinctNames (file_columns reader (hive_columns hive) options) → AllByRecursion (Found reader (hive_columns hive)) (names_or told []) → AreRead told (plain_columns reader (hive_columns hive)) wanted → ReadsAreLeft wanted told reader (hive_columns hive) (hive_columns (left_parts wanted hive)) options (left_names kind wanted (read_names told reader (hive_columns hive)) (hive_columns hive) options) }
{}

/// What is left of a scan puts out the asked names, each once and no other, with the types of the columns that are left. The asked
/// names come once and are columns of the files, whose columns differ by their names.
pub fn what_is_left_puts_out_what_is_asked()
    ensures { (kind : FileScan) (wanted reads : List Name) (reader : Columns) (hive : Option (List Stats)) (options : FileScanOptions) → AreDistinct wanted → AreAmong wanted (names_of (file_columns reader (hive_columns hive) options)) → HasDistinctNames (file_columns reader (hive_columns hive) options) → AreNamed wanted (columns_left wanted reads reader hive options) (left_output (in_file_order kind hive options) options.include_file_paths wanted (columns_left wanted reads reader hive options)) }
{}

/// Over any sources and tables the frame of what is left is as high as the frame of the scan, and has the same values in the asked
/// columns, where both put these out.
pub fn frames_agree_where_asked()
    ensures { (wanted reads few given : List Name) (hive : Option (List Stats)) (options : FileScanOptions) (sources : List Source) (tables : List Frame) → AreAmong wanted few → AreAmong wanted given → Agree wanted (scan_frame few (left_options wanted reads options) (parts_of (left_parts wanted hive) sources tables)) (scan_frame given options (parts_of hive sources tables)) }
{}
