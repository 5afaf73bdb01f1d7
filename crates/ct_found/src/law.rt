ghost use Rattle.ct_found.specs.Laws.{OneDatabase, OneCheckpoint, StandsOnce, StandsSo, StandingIsNotForeign, ForeignOnce, OneMoreStands, SameRecordsStand, OnlyNamed, BegunStands, WrittenStands};

/// A list of pieces begins with those of one database at most.
pub fn one_database()
    ensures { OneDatabase }
{}

/// Bytes are the checkpoint of one database at most.
pub fn one_checkpoint()
    ensures { OneCheckpoint }
{}

/// A disk stands for one database at most.
pub fn stands_once()
    ensures { StandsOnce }
{}

/// Its current slot, the count of its records and the used bytes are determined.
pub fn stands_so()
    ensures { StandsSo }
{}

/// A disk that stands for a database is not foreign.
pub fn standing_is_not_foreign()
    ensures { StandingIsNotForeign }
{}

/// A foreign disk is so by one area and one offset.
pub fn foreign_once()
    ensures { ForeignOnce }
{}

/// One record more in the last log makes the database with its entry applied.
pub fn one_more_stands()
    ensures { OneMoreStands }
{}

/// The same records there make the same database.
pub fn same_records_stand()
    ensures { SameRecordsStand }
{}

/// Areas that the current slot does not name play no part.
pub fn only_named()
    ensures { OnlyNamed }
{}

/// A second log that is empty changes nothing.
pub fn begun_stands()
    ensures { BegunStands }
{}

/// Nor does a checkpoint of the database, with an empty log behind it.
pub fn written_stands()
    ensures { WrittenStands }
{}
