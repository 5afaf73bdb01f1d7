ghost use Rattle.ct_bind_kind_laws.specs.Laws.{BoundAreWellFormed, ValidAreSound, WalkedAreWellFormed};
ghost use Rattle.ct_bind_kind_laws.specs.Storing.{BoundStoreWell};

/// The tables of a valid database are sound: they have distinct ids, and each has a key.
pub fn valid_are_sound()
    ensures { ValidAreSound }
{}

/// Among sound tables what an expression comes to is well formed on each row of its place, and has the kind that it is said
/// to have.
pub fn walked_are_well_formed()
    ensures { WalkedAreWellFormed }
{}

/// Among sound tables what a statement comes to, whose SET list is not empty, is well formed: it names only tables, columns and variables that are there, and each expression
/// has the kind that its place wants, on the row on which it is evaluated. Each column that is written stands once;
/// CHANGETABLE in FROM and DISABLE name a tracked table, ENABLE one that is not; a join has the sources and the ON of its form.
/// CREATE TABLE and ALTER DATABASE have laws of their own.
pub fn bound_are_well_formed()
    ensures { BoundAreWellFormed }
{}

/// Among tables of different ids an UPDATE sets no column of its table's key, and a table that is created has the next id and
/// a key of its own columns.
pub fn bound_store_well()
    ensures { BoundStoreWell }
{}
