ghost use Rattle.ct_sessions.specs.Laws.{HoldsForAlike};

/// Sessions ask of a machine its first database, its entries and its sessions alone.
pub fn holds_for_alike()
    ensures { HoldsForAlike }
{}
