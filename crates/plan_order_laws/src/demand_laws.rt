//! Laws of plans without what nothing observes of their order, as the contracts of functions that do nothing.
ghost use Rattle.std.specs.Prelude.{◌≡◌, Bool, true, false};
ghost use Rattle.plan_core.specs.Columns.{Columns};
ghost use Rattle.plan_core.specs.declared.flags.OptFlags.{OptFlags};
ghost use Rattle.plan_core.specs.declared.options.FileScanOptions.{FileScanOptions};
ghost use Rattle.plan_core.specs.declared.options.ProjectionOptions.{ProjectionOptions};
ghost use Rattle.plan_options.specs.declared.distinct.UniqueKeepStrategy.TheVariants as keeps;
ghost use Rattle.plan_options.specs.declared.group.GroupbyOptions.{GroupbyOptions};
ghost use Rattle.plan_options.specs.declared.sort.SortMultipleOptions.{SortMultipleOptions};
ghost use Rattle.plan_options.specs.declared.union.UnionOptions.{UnionOptions};
ghost use Rattle.plan_expr.specs.declared.agg.Aggregate.TheVariants as kinds;
ghost use Rattle.plan_scan.specs.declared.sources.ScanSources.{ScanSources};
ghost use Rattle.plan_ir.specs.declared.scan.FileInfo.{FileInfo};
ghost use Rattle.plan_ir.specs.Plans.{Plan};
ghost use Rattle.plan_meaning.specs.Asked.{sites_of};
ghost use Rattle.plan_meaning.specs.Caches.{AreShared, CacheOf, IsCacheOf, caches};
ghost use Rattle.plan_meaning.specs.Counting.{meets_count};
ghost use Rattle.plan_meaning.specs.Relating.{Refines};
ghost use Rattle.plan_meaning.specs.Scans.{Keeps, scans};
ghost use Rattle.plan_meaning.specs.Steps.{IsValid};
ghost use Rattle.plan_pass_laws.specs.CachesLeft.{CacheMade};
ghost use Rattle.plan_order_laws.specs.Demands.{basis, drops_order, ordered, unsorted};
ghost use Rattle.plan_order_laws.specs.Reorders.{Reorders};
ghost use Rattle.plan_order_laws.specs.WorkedDemands.{both, by_k, by_t, distinct_k, keys_alone, named_sums, scanned, sums_of_x, with_x, x_alone};

/// A valid plan whose order demands are set refines the plan.
pub fn ordered_plans_refine()
    ensures { (p : Plan) → IsValid p → Refines (ordered true p) p }
{}

/// A valid plan whose order nothing demands is reordered when its order demands are set.
pub fn undemanded_plans_are_reordered()
    ensures { (p : Plan) → IsValid p → Reorders (ordered false p) p }
{}

/// Each cache of a plan whose order demands are set is one of the plan, over what was below it with its order demanded; so where
/// caches of one number stood over alike plans, they do.
pub fn ordered_plans_keep_what_is_cached()
    ensures from { (d : Bool) (p : Plan) (c : CacheOf) → IsCacheOf c (caches (ordered d p)) → CacheMade (λ id below. ordered true below) c (caches p) }
    ensures shared { (d : Bool) (p : Plan) → AreShared p → AreShared (ordered d p) }
{}

/// A valid plan whose order demands are set has the scans of the plan.
pub fn ordered_plans_keep_scans()
    ensures same { (d : Bool) (p : Plan) → IsValid p → scans (ordered d p) ≡ scans p }
    ensures kept { (d : Bool) (p : Plan) → IsValid p → Keeps (ordered d p) p }
{}

/// A plan whose order demands are set asks its scans what the plan asks without the sorts that nothing observes.
pub fn ordered_plans_ask_what_unsorted_ones_do()
    ensures asked { (d : Bool) (p : Plan) → sites_of (ordered d p) ≡ sites_of (unsorted d p) }
    ensures basis { (flags : OptFlags) (p : Plan) → drops_order flags ≡ true → sites_of (ordered true p) ≡ sites_of (basis flags p) }
    ensures given { (flags : OptFlags) (p : Plan) → drops_order flags ≡ false → basis flags p ≡ p }
{}

/// Whether rows are counted in a valid plan is the same once its order demands are set.
pub fn ordered_plans_count_rows_where_they_did()
    ensures { (d : Bool) (p : Plan) → IsValid p → meets_count (ordered d p) ≡ meets_count p }
{}

/// Groupings worked out: a sort below sums in any order goes, with a column added between it and the scan too, and below keys alone;
/// below a grouping that takes first values or names its sums by nodes, and below distinct rows of which the first are kept, it stays.
pub fn groupings_worked_out()
    ensures summed { (sources : ScanSources) (info : FileInfo) (o : FileScanOptions) (sorts : SortMultipleOptions) (schema : Columns) (groups : GroupbyOptions) → ordered true (by_k kinds.Sum schema groups (by_t sorts (scanned sources info o))) ≡ by_k kinds.Sum schema groups (scanned sources info o) }
    ensures added { (sources : ScanSources) (info : FileInfo) (o : FileScanOptions) (sorts : SortMultipleOptions) (schema columns : Columns) (groups : GroupbyOptions) (stacks : ProjectionOptions) → ordered true (sums_of_x schema groups (by_t sorts (with_x columns stacks (scanned sources info o)))) ≡ sums_of_x schema groups (with_x columns stacks (scanned sources info o)) }
    ensures first { (sources : ScanSources) (info : FileInfo) (o : FileScanOptions) (sorts : SortMultipleOptions) (schema : Columns) (groups : GroupbyOptions) → ordered true (by_k kinds.First schema groups (by_t sorts (scanned sources info o))) ≡ by_k kinds.First schema groups (by_t sorts (scanned sources info o)) }
    ensures named { (sources : ScanSources) (info : FileInfo) (o : FileScanOptions) (sorts : SortMultipleOptions) (schema : Columns) (groups : GroupbyOptions) → ordered true (named_sums schema groups (by_t sorts (scanned sources info o))) ≡ named_sums schema groups (by_t sorts (scanned sources info o)) }
    ensures keys { (sources : ScanSources) (info : FileInfo) (o : FileScanOptions) (sorts : SortMultipleOptions) (schema : Columns) (groups : GroupbyOptions) → ordered true (keys_alone schema groups (by_t sorts (scanned sources info o))) ≡ keys_alone schema groups (scanned sources info o) }
    ensures distinct { (sources : ScanSources) (info : FileInfo) (o : FileScanOptions) (sorts : SortMultipleOptions) (schema : Columns) (groups : GroupbyOptions) → ordered true (by_k kinds.Sum schema groups (distinct_k keeps.First (by_t sorts (scanned sources info o)))) ≡ by_k kinds.Sum schema groups (distinct_k keeps.First (by_t sorts (scanned sources info o))) }
    ensures any { (sources : ScanSources) (info : FileInfo) (o : FileScanOptions) (sorts : SortMultipleOptions) (schema : Columns) (groups : GroupbyOptions) → ordered true (by_k kinds.Sum schema groups (distinct_k keeps.Any (by_t sorts (scanned sources info o)))) ≡ by_k kinds.Sum schema groups (distinct_k keeps.Any (scanned sources info o)) }
{}

/// A union below sums in any order loses its mark, and its last input the sort, but not the input before; and what a selection of
/// scalars needs is not looked at: the sort below it goes too.
pub fn unions_worked_out()
    ensures last { (sources : ScanSources) (info : FileInfo) (o : FileScanOptions) (sorts : SortMultipleOptions) (schema : Columns) (groups : GroupbyOptions) (unions : UnionOptions) → ordered true (by_k kinds.Sum schema groups (both true unions (by_t sorts (scanned sources info o)) (by_t sorts (scanned sources info o)))) ≡ by_k kinds.Sum schema groups (both false unions (by_t sorts (scanned sources info o)) (scanned sources info o)) }
    ensures root { (sources : ScanSources) (info : FileInfo) (o : FileScanOptions) (unions : UnionOptions) → ordered true (both false unions (scanned sources info o) (scanned sources info o)) ≡ both true unions (scanned sources info o) (scanned sources info o) }
    ensures scalar { (sources : ScanSources) (info : FileInfo) (o : FileScanOptions) (sorts : SortMultipleOptions) (schema columns : Columns) (groups : GroupbyOptions) (picks : ProjectionOptions) → ordered true (sums_of_x schema groups (x_alone columns picks (by_t sorts (scanned sources info o)))) ≡ sums_of_x schema groups (x_alone columns picks (scanned sources info o)) }
{}
