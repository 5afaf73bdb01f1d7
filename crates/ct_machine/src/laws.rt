ghost use Rattle.ct_machine.specs.Laws.{PlaysGoOn, OneWholePlay, EntriesDraw, TrackingIsCommitted};

/// A play goes on by one statement whose reply follows.
pub fn plays_go_on()
    ensures { PlaysGoOn }
{}

/// The replies are those that the committed entries give: two plays of the same statements from one machine, in which
/// memory was never wanting, are one.
pub fn one_whole_play()
    ensures { OneWholePlay }
{}

/// An entry that applies draws a version exactly where its act does in the database, as `draws_version` tells.
pub fn entries_draw()
    ensures { EntriesDraw }
{}

/// The writes that wait in a transaction change the rows of tables alone: of the catalogue, the versions and the tracked changes
/// a session sees what was committed.
pub fn tracking_is_committed()
    ensures { TrackingIsCommitted }
{}
