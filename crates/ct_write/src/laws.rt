ghost use Rattle.ct_write.specs.Laws.{AreAccepted, UpdatesKeepKeys, DeletesAll};

/// The writes that a statement comes to on a valid table apply to it as it stands, when no insert repeats a key.
#[tactic(auto, using(crate::proofs::Statements::are_accepted))]
pub fn are_accepted()
    ensures { AreAccepted }
{}

/// The writes of an UPDATE leave the keys of the rows as they were.
#[tactic(auto, using(crate::proofs::Statements::updates_keep_keys))]
pub fn updates_keep_keys()
    ensures { UpdatesKeepKeys }
{}

/// A DELETE without WHERE leaves no row.
#[tactic(auto, using(crate::proofs::Statements::deletes_all))]
pub fn deletes_all()
    ensures { DeletesAll }
{}
