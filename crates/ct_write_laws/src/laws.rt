ghost use Rattle.ct_write_laws.specs.Laws.{FirstIsAnswered, NoneIsAnswered};

/// `duplicate` answers a place exactly where it is the first at which a write is an insert of a key that a row has, or that
/// an insert before it has; and none exactly where there is no such place.
pub fn duplicate_is_first()
    ensures place { FirstIsAnswered }
    ensures none { NoneIsAnswered }
{}
