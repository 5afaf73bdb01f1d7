ghost use Rattle.ct_database.specs.Laws.{ApplyingIsStorable, ChangesOfOwnCommits};

/// An entry that applies may be given to a database in memory.
pub fn applying_is_storable()
    ensures { ApplyingIsStorable }
{}

/// The changes of a table above a version are those of the commits that have a change of it: a caller may hand those alone.
#[tactic(auto, using(crate::proofs::OwnCommits::changes_of_own))]
pub fn changes_of_own_commits()
    ensures { ChangesOfOwnCommits }
{}
