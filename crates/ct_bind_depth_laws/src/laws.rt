ghost use Rattle.ct_bind_depth_laws.specs.Laws.{BoundAreNoDeeper, WalkedAreNoDeeper};

/// What an expression comes to is at most as deep as the expression.
pub fn walked_are_no_deeper()
    ensures { WalkedAreNoDeeper }
{}

/// A bound statement is at most as deep as the statement.
pub fn bound_are_no_deeper()
    ensures { BoundAreNoDeeper }
{}
