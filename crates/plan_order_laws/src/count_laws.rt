//! Laws of counts of the rows of files, as the contracts of functions that do nothing.
ghost use Rattle.std.specs.Prelude.{◌≡◌, true, false, List, [], ◌∷◌, map, Some, None, codes};
ghost use Rattle.plan_core.specs.Columns.{Columns};
ghost use Rattle.plan_core.specs.declared.options.FileScanOptions.{FileScanOptions};
ghost use Rattle.plan_core.specs.declared.options.ProjectionOptions.{ProjectionOptions};
ghost use Rattle.plan_options.specs.declared.union.UnionOptions.{UnionOptions};
ghost use Rattle.plan_expr.specs.Leaves.{Name};
ghost use Rattle.plan_expr.specs.declared.expr_ir.OutputName.TheVariants.{Alias, LiteralLhs};
ghost use Rattle.plan_frame.specs.Frames.{Frame};
ghost use Rattle.plan_scan.specs.declared.file_scan.FileScan.{FileScan};
ghost use Rattle.plan_scan.specs.declared.file_scan.FileScan.TheVariants.{Csv, Parquet};
ghost use Rattle.plan_scan.specs.declared.sources.ScanSources.{ScanSources};
ghost use Rattle.plan_ir.specs.declared.scan.FileInfo.{FileInfo};
ghost use Rattle.plan_ir.specs.Plans.{Plan};
ghost use Rattle.plan_meaning.specs.Contents.{Contents, Fits, frame_or, sources_of};
ghost use Rattle.plan_meaning.specs.Mapped.{rows_together};
ghost use Rattle.plan_meaning.specs.Relating.{Refines};
ghost use Rattle.plan_meaning.specs.Steps.{IsValid, May};
ghost use Rattle.plan_order_laws.specs.Counted.{HaveFrames, Scans, all_sources, countable, counted, counted_scans, rows_of, together};
ghost use Rattle.plan_order_laws.specs.WorkedCounts.{fast_count, projected, rows_number, scanned, three};

/// A valid plan, with a count of the rows of files in its place where it tells that alone, refines the plan; where it tells more
/// it stays as it is.
pub fn counted_plans_refine()
    ensures refines { (p : Plan) → IsValid p → Refines (counted p) p }
    ensures given { (p : Plan) → countable p ≡ false → counted p ≡ p }
{}

/// Each frame that a plan whose rows can be counted may give has as many as its scans have together; these have a frame for each
/// source where contents fit the plan.
pub fn counted_rows_are_those_of_the_scans()
    ensures high { (c : Contents) (p : Plan) (f : Frame) (xs : Scans) → counted_scans p ≡ Some xs → May c p f → f.height ≡ rows_of c xs }
    ensures fit { (c : Contents) (p : Plan) (xs : Scans) → counted_scans p ≡ Some xs → Fits c p → HaveFrames c xs }
{}

/// Scans as one have their sources in order, and as many rows.
pub fn scans_as_one_have_their_sources()
    ensures sources { (xs : Scans) (z : ScanSources × FileScan) → together xs ≡ Some z → sources_of z.0 ≡ all_sources xs }
    ensures rows { (c : Contents) (xs : Scans) → rows_together (map (frame_or c) (all_sources xs)) ≡ rows_of c xs }
{}

/// Counts worked out: of a scan; of a union of scans of one format, of which one is projected, under an alias. Scans of two formats
/// aren't counted, and neither is a projection that stands on no input of a union.
pub fn counts_worked_out()
    ensures scan { (info : FileInfo) (o : FileScanOptions) (schema : Columns) (options : ProjectionOptions) → counted (rows_number (LiteralLhs (codes "len")) schema options (scanned Csv (codes "t") info o)) ≡ fast_count Csv (codes "t" ∷ []) None }
    ensures union { (info : FileInfo) (o : FileScanOptions) (schema columns : Columns) (options : ProjectionOptions) (unions : UnionOptions) → counted (rows_number (Alias (codes "n")) schema options (three unions (scanned Csv (codes "s") info o) (projected columns (scanned Csv (codes "t") info o)) (scanned Csv (codes "s") info o))) ≡ fast_count Csv (codes "s" ∷ codes "t" ∷ codes "s" ∷ []) (Some (codes "n")) }
    ensures formats { (info : FileInfo) (o : FileScanOptions) (schema : Columns) (options : ProjectionOptions) (unions : UnionOptions) → countable (rows_number (Alias (codes "n")) schema options (three unions (scanned Csv (codes "s") info o) (scanned Csv (codes "t") info o) (scanned Parquet (codes "u") info o))) ≡ false }
    ensures projection { (info : FileInfo) (o : FileScanOptions) (schema columns : Columns) (options : ProjectionOptions) → countable (rows_number (Alias (codes "n")) schema options (projected columns (scanned Csv (codes "t") info o))) ≡ false }
{}
