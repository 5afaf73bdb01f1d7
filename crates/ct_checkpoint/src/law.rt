ghost use Rattle.ct_checkpoint.specs.Laws.{OrderIsExact};

/// Pieces follow each other exactly where some valid database has them first.
pub fn order_is_exact()
    ensures { OrderIsExact }
{}
