ghost use Rattle.ct_net.specs.Laws.{ChangesFromFloor};

/// The changes of a table above a version are those of the commits behind the ones at or below it: of commits that stand
/// by version, a caller may hand those above the version alone.
#[tactic(auto, using(crate::proofs::Floors::changes_from_floor))]
pub fn changes_from_floor()
    ensures { ChangesFromFloor }
{}
