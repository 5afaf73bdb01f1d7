ghost use Rattle.ct_model_laws.specs.Laws.{StaysValid, NeverLowers, Outdates, GoesOnAgreeing, RowsAgree, EmptyIsValid, ReplayStaysValid};
ghost use Rattle.ct_model_laws.specs.Tells.{NetTells};

/// An entry that applies leaves a valid database valid.
pub fn stays_valid()
    ensures { StaysValid }
{}

/// Entries that apply in turn leave a valid database valid.
pub fn replay_stays_valid()
    ensures { ReplayStaysValid }
{}

/// The empty database is valid.
pub fn empty_is_valid()
    ensures { EmptyIsValid }
{}

/// An entry that applies lowers neither the version nor the time nor the greatest transaction number.
pub fn never_lowers()
    ensures { NeverLowers }
{}

/// A table that is truncated while it is tracked, or that goes tracked, has a minimum above every version before.
pub fn outdates()
    ensures { Outdates }
{}

/// A copy that agrees with a valid database agrees with what an entry that applies makes of it.
pub fn goes_on_agreeing()
    ensures { GoesOnAgreeing }
{}

/// The rows of a table, noted with the version of the database, agree with it.
pub fn rows_agree()
    ensures { RowsAgree }
{}

/// The net changes of a tracked table since a version name exactly the keys that some kept change of the table above the
/// start of the window names, each once, in rising order; each with the version of its last change, and D exactly where
/// that is a delete, else I exactly where an insert is in the window, else U.
pub fn net_tells()
    ensures { NetTells }
{}
