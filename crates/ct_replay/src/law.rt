ghost use Rattle.ct_replay.specs.Laws.{OneEntry, OneReplay, OneBreak, ReplaysDoNotBreak, OneMore, SameRecords, IsReplay};

/// A payload adds one entry at most to a database.
pub fn one_entry()
    ensures { OneEntry }
{}

/// The records of a log make one database of another.
pub fn one_replay()
    ensures { OneReplay }
{}

/// A replay breaks off at one place at most.
pub fn one_break()
    ensures { OneBreak }
{}

/// It breaks off nowhere in a log whose entries apply in turn.
pub fn replays_do_not_break()
    ensures { ReplaysDoNotBreak }
{}

/// One record more makes the database with its entry applied.
pub fn one_more()
    ensures { OneMore }
{}

/// The same records make the same.
pub fn same_records()
    ensures { SameRecords }
{}

/// What the records make of a database is made by entries that apply in turn.
pub fn is_replay()
    ensures { IsReplay }
{}
