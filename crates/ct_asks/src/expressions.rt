ghost use Rattle.std.specs.Prelude.{◌≡◌};
ghost use Rattle.std.specs.List.{list_any};
ghost use Rattle.ct_asks.specs.Asks as spec;

use ct_types::{Expr, Term};

/// Whether one stands in one of these expressions. It looks at each once, and stops at the first that is found.
#[cycle(asks)]
pub(crate) fn one_asks(all: &[Expr]) -> bool
    ensures { result ≡ list_any spec.asks all.now }
{
    for e in all {
        if expr_asks(e) {
            return true;
        }
    }
    false
}

/// Whether one stands in one of these operands of a sum.
#[cycle(asks)]
fn term_asks(all: &[Term]) -> bool
    ensures { result ≡ list_any spec.term_asks all.now }
{
    for term in all {
        if expr_asks(&term.value) {
            return true;
        }
    }
    false
}

/// Whether one stands in an expression, as a SELECT in brackets.
#[cycle(asks)]
#[tactic(auto, using(crate::proofs::Forms::forms))]
pub(crate) fn expr_asks(e: &Expr) -> bool
    ensures { result ≡ spec.asks e.now }
{
    match e {
        Expr::Null
        | Expr::Number(_)
        | Expr::Text(_)
        | Expr::Bytes(_)
        | Expr::Variable(_)
        | Expr::Column(_)
        | Expr::CurrentVersion => false,
        Expr::Scalar(_) => true,
        Expr::MinValidVersion(value)
        | Expr::ObjectId(value)
        | Expr::Negative(value)
        | Expr::IsNull(value)
        | Expr::IsNotNull(value)
        | Expr::Not(value) => expr_asks(value.get()),
        Expr::IsColumnInMask(left, right)
        | Expr::IfNull(left, right)
        | Expr::Compare(_, left, right) => expr_asks(left.get()) || expr_asks(right.get()),
        Expr::ColumnProperty(table, column, property) => {
            expr_asks(table.get()) || expr_asks(column.get()) || expr_asks(property.get())
        }
        Expr::Product(operands) | Expr::And(operands) | Expr::Or(operands) => {
            one_asks(operands.as_slice())
        }
        Expr::Sum(first, more) => expr_asks(first.get()) || term_asks(more.as_slice()),
    }
}
