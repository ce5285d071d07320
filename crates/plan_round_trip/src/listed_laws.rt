//! Laws of listings, each the contract of a function that does nothing.
ghost use Rattle.std.specs.Prelude.{◌≡◌, ℕ, true, List, Some};
ghost use Rattle.plan_ir.specs.Parts.{IsPlan};
ghost use Rattle.plan_doc.specs.Document.{doc_of, document};
ghost use Rattle.plan_doc.specs.declared.document.Document.{Document};
ghost use Rattle.plan_text.specs.Written.{plan_data};
ghost use Rattle.plan_top.specs.Chains.{Boxes};
ghost use Rattle.plan_tool.specs.Listings.{IsListing};
ghost use Rattle.plan_round_trip.specs.Back.{plan_of};

/// The plan that is listed for a document is read of the value that is written for it, where each box that was called holds a rule that is
/// its kind's own.
pub fn listed_plans_read_back()
    ensures { (boxes : Boxes) (bytes text : List ℕ) (doc : Document) (listing : IsListing boxes doc text) → boxes.own ≡ true → doc_of bytes ≡ document doc → IsPlan doc.lp doc.ex doc.root → plan_of (plan_data listing.lists.plan.lp listing.lists.plan.ex listing.lists.plan.root) ≡ Some (listing.lists.plan.lp, listing.lists.plan.ex, listing.lists.plan.root) }
{}
