ghost use Rattle.ct_model_laws.specs.Deletes.{DeletedHaveNoRow};

/// In every database that entries which apply in turn make of the empty one, a net row of a table, since any version, is D
/// exactly where the table has no row of its key.
pub fn deleted_have_no_row()
    ensures { DeletedHaveNoRow }
{}
