ghost use Rattle.ct_recover.specs.Laws.{StandsIsValid, SettledStands, SettledKeeps, SettlingStands};

/// What a disk stands for is a valid database.
pub fn stands_is_valid()
    ensures { StandsIsValid }
{}

/// A disk that is settled stands for what it stood for.
pub fn settled_stands()
    ensures { SettledStands }
{}

/// Where a slot was current, it does so by the same records, with the same used bytes.
pub fn settled_keeps()
    ensures { SettledKeeps }
{}

/// What a crash may leave of the settling from its sync on stands for what reads gave.
pub fn settling_stands()
    ensures { SettlingStands }
{}
