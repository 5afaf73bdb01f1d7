ghost use Rattle.ct_model_laws.specs.Cleanup.{CutoffIsGreatest, RaisesApply};

/// Where the database is on and cleans up by itself, the cutoff is at or above the version of each kept commit that is as old
/// as the retention or older, and is the version of one, or 0 where there is none.
pub fn cutoff_is_greatest()
    ensures { CutoffIsGreatest }
{}

/// In a valid database, at a time from its own to 2^62, the minima that cleanup raises make an entry that applies, unless
/// there are none.
pub fn raises_apply()
    ensures { RaisesApply }
{}
