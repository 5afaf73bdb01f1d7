ghost use Rattle.ct_mask.specs.Laws.{ReadsWhatItHas};

/// Reading the bytes of a set answers, for every number, whether it is an id of the set.
#[tactic(auto, using(crate::proofs::Groups::reads_what_it_has))]
pub fn reads_what_it_has()
    ensures { ReadsWhatItHas }
{}
