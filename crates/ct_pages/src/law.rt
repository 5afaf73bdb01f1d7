ghost use Rattle.ct_pages.specs.Laws.{OneSlot, OneOffset, OneOfThree, NamedIsCanonical, RestIsIgnored, ClosedIsIgnored, NextIsCurrent, FreshIsCurrent};

/// Area 0 names one slot at most.
pub fn one_slot()
    ensures { OneSlot }
{}

/// Area 0 is foreign at one offset at most.
pub fn one_offset()
    ensures { OneOffset }
{}

/// Area 0 is at most one of the three: unfinished, naming a slot, or foreign.
pub fn one_of_three()
    ensures { OneOfThree }
{}

/// The slot that area 0 names may stand there.
pub fn named_is_canonical()
    ensures { NamedIsCanonical }
{}

/// What stands behind the slots is ignored.
pub fn rest_is_ignored()
    ensures { RestIsIgnored }
{}

/// The slot that is not current plays no part while it is closed.
pub fn closed_is_ignored()
    ensures { ClosedIsIgnored }
{}

/// It is the current one where it is open with the next turn.
pub fn next_is_current()
    ensures { NextIsCurrent }
{}

/// Of a disk that is laid out, with the fresh slot in slot 0, that slot is current.
pub fn fresh_is_current()
    ensures { FreshIsCurrent }
{}
