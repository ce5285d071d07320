//! Laws of the frames that plans choose, each the contract of a function that does nothing.
ghost use Rattle.std.specs.Prelude.{◌≡◌};
ghost use Rattle.plan_frame.specs.Frames.{Frame};
ghost use Rattle.plan_ir.specs.Plans.{Plan};
ghost use Rattle.plan_meaning.specs.Caches.{AreShared};
ghost use Rattle.plan_meaning.specs.Contents.{Contents, Fits};
ghost use Rattle.plan_meaning.specs.Marks.{unmarked};
ghost use Rattle.plan_meaning.specs.Relating.{Refines};
ghost use Rattle.plan_meaning.specs.Steps.{IsValid, May};
ghost use Rattle.plan_meaning.specs.Choices.{Chooses};
ghost use Rattle.plan_meaning.specs.SharedRuns.{SharedRun};

/// Plans that are alike, which are equal but for their rechunk marks, give one frame over the same contents.
pub fn choices_are_one()
    ensures { (c : Contents) (p q : Plan) (f g : Frame) → unmarked p ≡ unmarked q → Chooses c p f → Chooses c q g → f ≡ g }
{}

/// The frame that a plan gives is one that it may give.
pub fn chosen_frames_may_be()
    ensures { (c : Contents) (p : Plan) (f : Frame) → Chooses c p f → May c p f }
{}

/// Over contents that fit it a valid plan gives a frame.
pub fn valid_plans_choose()
    ensures { (c : Contents) (p : Plan) → IsValid p → Fits c p → (f : Frame) × Chooses c p f }
{}

/// Over contents that fit a plan, one that refines it and whose caches of one number stand over alike plans has a run in which these
/// carry one frame.
pub fn refining_plans_have_shared_runs()
    ensures { (c : Contents) (q p : Plan) → Refines q p → AreShared q → Fits c p → SharedRun c q p }
{}
