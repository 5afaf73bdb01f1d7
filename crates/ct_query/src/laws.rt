ghost use Rattle.ct_query.specs.Laws.{InnerIsLeftPaired, RightMirrorsLeft, SamePairs, TrueKeepsAll, OrdersStably, OneOrder};

/// An INNER JOIN is a LEFT JOIN without the rows that stand with NULLs.
pub fn inner_is_left_paired()
    ensures { InnerIsLeftPaired }
{}

/// A RIGHT JOIN is a LEFT JOIN of the sources exchanged, with each row turned round.
pub fn right_mirrors_left()
    ensures { RightMirrorsLeft }
{}

/// A LEFT JOIN and a RIGHT JOIN have the same pairs, in another order.
pub fn same_pairs()
    ensures { SamePairs }
{}

/// A WHERE that is true on each row changes nothing.
pub fn true_keeps_all()
    ensures { TrueKeepsAll }
{}

/// ORDER BY gives the same rows, sorted, and those that tie as they stood.
pub fn orders_stably()
    ensures { OrdersStably }
{}

/// There is but one list of rows that ORDER BY may give.
pub fn one_order()
    ensures { OneOrder }
{}
