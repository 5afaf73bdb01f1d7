ghost use Rattle.ct_scan.specs.Laws.{PinnedOver, PinnedRows};

/// WHERE that pins a column keeps of some rows what it keeps of those with the pinned value, and refuses where it does on these.
#[tactic(auto, using(crate::proofs::Filtering::pinned_rows))]
pub fn pinned_rows()
    ensures { PinnedRows }
{}

/// The same of a condition over the joined rows that some rows make, where the values of other places are seen, as the other row of a
/// pair has them.
#[tactic(auto, using(crate::proofs::Filtering::pinned_over))]
pub fn pinned_over()
    ensures { PinnedOver }
{}
