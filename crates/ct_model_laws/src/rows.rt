ghost use Rattle.ct_model_laws.specs.Rows.{Creations, MasksTell};
ghost use Rattle.ct_model_laws.specs.RowVersions.{VersionsTell};

/// A net row of a tracked table has exactly the version of the last insert among the kept changes of its key above the
/// start of the window as its creation, and none exactly where no insert is among them.
pub fn creations()
    ensures { Creations }
{}

/// A net row of a tracked table has a mask exactly where it is a U, the table has masks, and no change of its key above the
/// start of the window set every column outside the key; and then the mask has exactly the columns that some of these
/// changes set.
pub fn masks_tell()
    ensures { MasksTell }
{}

/// In a valid database a key of a tracked table has a version and a context by CHANGETABLE(VERSION ..) exactly where a net
/// row of the key since NULL has them, and has none exactly where no net row is of the key.
pub fn versions_tell()
    ensures { VersionsTell }
{}
