ghost use Rattle.ct_refusal_laws.specs.Laws.{ValuesRefuseOverflow, TruthsRefuseOverflow, OverflowsAreRefused, AnswersRefuseOverflow, WritesRefuse};

/// An expression that comes to no value, and a condition that comes to no truth, refuses nothing but Overflow; and then a part
/// of it is a sum, a difference, a product or a sign whose number leaves 64 bits.
pub fn evaluation_refuses_overflow()
    ensures values { ValuesRefuseOverflow }
    ensures truths { TruthsRefuseOverflow }
{}

/// A well-formed expression of which a number leaves 64 bits at some part comes to Overflow. So it does exactly where such a part is.
pub fn overflows_are_refused()
    ensures { OverflowsAreRefused }
{}

/// A SELECT that has no answer refuses nothing but Overflow; and then a number leaves 64 bits in ON on a pair of rows, in WHERE
/// on a joined row, or in an item or a part of ORDER BY on a row for which WHERE is true.
pub fn answers_refuse_overflow()
    ensures { AnswersRefuseOverflow }
{}

/// An INSERT, UPDATE or DELETE that has no writes refuses Overflow, NotNull or TooLong: of its context, where a number leaves 64
/// bits in it or it has more than 128 bytes; of what it evaluates, where a number leaves 64 bits; and else of the first row that
/// has a value which does not fit, in the first such column: NotNull and TooLong with the column's name, Overflow where a number
/// leaves 32 bits in an INT column.
pub fn writes_refuse()
    ensures { WritesRefuse }
{}
