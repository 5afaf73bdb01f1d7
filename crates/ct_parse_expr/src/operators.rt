//! The rules of operators, over the reader of expressions one level deeper.

ghost use Rattle.std.specs.Prelude.{◌≡◌, [], ◌∷◌, ◌++◌};
ghost use Rattle.ct_grammar.specs.Reading.{Reads, guard, need, option};
ghost use Rattle.ct_grammar.specs.declared.kind.Kind.TheVariants as k;
ghost use Rattle.ct_parse_expr.specs.Nests.{Nests};
ghost use Rattle.ct_parse_expr.specs.ReadExpr as spec;
ghost use Rattle.ct_parse_expr.specs.declared.level.Entry.TheVariants.{Whole};

use crate::hold::beside;
use crate::level::{Entry, Parser, Test};
use crate::trees::{comparison_of, in_tree, null_test, term_of, tested, with_first};
use ct_grammar::{Cursor, Fault, Kind, read_many};
use ct_types::{Expr, List, Term};
use sqlite_items::Boxed;
use std::alloc::Global;

const COMPARISONS: &[Kind] = &[
    Kind::Equal,
    Kind::Different,
    Kind::Unlike,
    Kind::Less,
    Kind::AtMost,
    Kind::More,
    Kind::AtLeast,
];

const TESTS: &[Kind] = &[
    Kind::Equal,
    Kind::Different,
    Kind::Unlike,
    Kind::Less,
    Kind::AtMost,
    Kind::More,
    Kind::AtLeast,
    Kind::Is,
];

const SIGNS: &[Kind] = &[Kind::Plus, Kind::Minus];

impl<F: Fn(Global, &mut Cursor<'_>, usize, Entry) -> Result<Expr, Fault>> Parser<F> {
    #[tactic(auto, unfolding(crate::specs::ReadExpr::unary))]
    fn unary(&self, tokens: &mut Cursor<'_>) -> Result<Expr, Fault>
        requires { Nests self.now.depth (F.pre self.now.expr) (F.post self.now.expr) }
        ensures { Reads (spec.unary (spec.expr self.now.depth) self.now.depth tokens.old) result tokens.new }
    {
        if tokens.sees(&[Kind::Minus]) {
            tokens.skip(Kind::Minus)?;
            let operand = (self.expr)(self.alloc, tokens, self.depth, Entry::Signed)?;
            Ok(Expr::Negative(Boxed::new(self.alloc, operand)?))
        } else {
            self.primary(tokens)
        }
    }

    #[tactic(auto, unfolding(crate::specs::ReadExpr::factor))]
    fn factor(&self, tokens: &mut Cursor<'_>) -> Result<Expr, Fault>
        requires { Nests self.now.depth (F.pre self.now.expr) (F.post self.now.expr) }
        ensures { Reads (spec.factor (spec.expr self.now.depth) self.now.depth tokens.old) result tokens.new }
    {
        tokens.skip(Kind::Star)?;
        self.unary(tokens)
    }

    #[tactic(auto, unfolding(crate::specs::ReadExpr::factors))]
    fn factors(&self, tokens: &mut Cursor<'_>) -> Result<List<Expr>, Fault>
        requires { Nests self.now.depth (F.pre self.now.expr) (F.post self.now.expr) }
        ensures { Reads (spec.factors (spec.expr self.now.depth) self.now.depth tokens.old) result tokens.new }
    {
        read_many(
            self.alloc,
            tokens,
            &[Kind::Star],
            |tokens: &mut Cursor<'_>| { self.factor(tokens) },
        )
    }

    #[tactic(auto, unfolding(crate::specs::ReadExpr::product))]
    fn product(&self, tokens: &mut Cursor<'_>) -> Result<Expr, Fault>
        requires { Nests self.now.depth (F.pre self.now.expr) (F.post self.now.expr) }
        ensures { Reads (spec.product (spec.expr self.now.depth) self.now.depth tokens.old) result tokens.new }
    {
        let first = self.unary(tokens)?;
        let more = self.factors(tokens);
        let (first, more) = beside(first, more)?;
        if more.as_slice().is_empty() {
            return Ok(first);
        }
        Ok(Expr::Product(in_tree(with_first(first, more)?)))
    }

    #[tactic(auto, unfolding(crate::specs::ReadExpr::term))]
    fn term(&self, tokens: &mut Cursor<'_>) -> Result<Term, Fault>
        requires { Nests self.now.depth (F.pre self.now.expr) (F.post self.now.expr) }
        ensures { Reads (spec.term (spec.expr self.now.depth) self.now.depth tokens.old) result tokens.new }
    {
        let sign = tokens.kind(SIGNS)?;
        let value = self.product(tokens)?;
        Ok(term_of(sign, value))
    }

    #[tactic(auto, unfolding(crate::specs::ReadExpr::terms))]
    fn terms(&self, tokens: &mut Cursor<'_>) -> Result<List<Term>, Fault>
        requires { Nests self.now.depth (F.pre self.now.expr) (F.post self.now.expr) }
        ensures { Reads (spec.terms (spec.expr self.now.depth) self.now.depth tokens.old) result tokens.new }
    {
        read_many(self.alloc, tokens, SIGNS, |tokens: &mut Cursor<'_>| {
            self.term(tokens)
        })
    }

    #[tactic(auto, unfolding(crate::specs::ReadExpr::sum))]
    fn sum(&self, tokens: &mut Cursor<'_>) -> Result<Expr, Fault>
        requires { Nests self.now.depth (F.pre self.now.expr) (F.post self.now.expr) }
        ensures { Reads (spec.sum (spec.expr self.now.depth) self.now.depth tokens.old) result tokens.new }
    {
        let first = self.product(tokens)?;
        let more = self.terms(tokens);
        let (first, more) = beside(first, more)?;
        if more.as_slice().is_empty() {
            return Ok(first);
        }
        Ok(Expr::Sum(Boxed::new(self.alloc, first)?, in_tree(more)))
    }

    #[tactic(auto, unfolding(crate::specs::ReadExpr::compared))]
    fn compared(&self, tokens: &mut Cursor<'_>) -> Result<Test, Fault>
        requires { Nests self.now.depth (F.pre self.now.expr) (F.post self.now.expr) }
        ensures { Reads (spec.compared (spec.expr self.now.depth) self.now.depth tokens.old) result tokens.new }
    {
        let sign = tokens.kind(COMPARISONS)?;
        let right = self.sum(tokens)?;
        Ok(Test::Compared(comparison_of(sign), right))
    }

    #[tactic(auto, unfolding(crate::specs::ReadExpr::null_tested))]
    fn null_tested(&self, tokens: &mut Cursor<'_>) -> Result<Test, Fault>
        requires { Nests self.now.depth (F.pre self.now.expr) (F.post self.now.expr) }
        ensures { Reads (spec.null_tested (spec.expr self.now.depth) self.now.depth tokens.old) result tokens.new }
    {
        tokens.skip(Kind::Is)?;
        let denied = tokens.skip_if(Kind::Not)?;
        tokens.skip(Kind::Null)?;
        Ok(null_test(denied))
    }

    #[tactic(auto, unfolding(crate::specs::ReadExpr::behind_sum))]
    fn behind_sum(&self, tokens: &mut Cursor<'_>) -> Result<Option<Test>, Fault>
        requires { Nests self.now.depth (F.pre self.now.expr) (F.post self.now.expr) }
        ensures { Reads (spec.behind_sum (spec.expr self.now.depth) self.now.depth tokens.old) result tokens.new }
    {
        if !tokens.sees(TESTS) {
            return Ok(None);
        }
        if tokens.sees(COMPARISONS) {
            Ok(Some(self.compared(tokens)?))
        } else {
            Ok(Some(self.null_tested(tokens)?))
        }
    }

    #[tactic(auto, unfolding(crate::specs::ReadExpr::predicate))]
    fn predicate(&self, tokens: &mut Cursor<'_>) -> Result<Expr, Fault>
        requires { Nests self.now.depth (F.pre self.now.expr) (F.post self.now.expr) }
        ensures { Reads (spec.predicate (spec.expr self.now.depth) self.now.depth tokens.old) result tokens.new }
    {
        let left = self.sum(tokens)?;
        let behind = self.behind_sum(tokens);
        let (left, behind) = beside(left, behind)?;
        Ok(tested(self.alloc, left, behind)?)
    }

    #[tactic(auto, unfolding(crate::specs::ReadExpr::negation))]
    fn negation(&self, tokens: &mut Cursor<'_>) -> Result<Expr, Fault>
        requires { Nests self.now.depth (F.pre self.now.expr) (F.post self.now.expr) }
        ensures { Reads (spec.negation (spec.expr self.now.depth) self.now.depth tokens.old) result tokens.new }
    {
        if tokens.sees(&[Kind::Not]) {
            tokens.skip(Kind::Not)?;
            let operand = (self.expr)(self.alloc, tokens, self.depth, Entry::Negated)?;
            Ok(Expr::Not(Boxed::new(self.alloc, operand)?))
        } else {
            self.predicate(tokens)
        }
    }

    #[tactic(auto, unfolding(crate::specs::ReadExpr::and_one))]
    fn and_one(&self, tokens: &mut Cursor<'_>) -> Result<Expr, Fault>
        requires { Nests self.now.depth (F.pre self.now.expr) (F.post self.now.expr) }
        ensures { Reads (spec.and_one (spec.expr self.now.depth) self.now.depth tokens.old) result tokens.new }
    {
        tokens.skip(Kind::And)?;
        self.negation(tokens)
    }

    #[tactic(auto, unfolding(crate::specs::ReadExpr::and_more))]
    fn and_more(&self, tokens: &mut Cursor<'_>) -> Result<List<Expr>, Fault>
        requires { Nests self.now.depth (F.pre self.now.expr) (F.post self.now.expr) }
        ensures { Reads (spec.and_more (spec.expr self.now.depth) self.now.depth tokens.old) result tokens.new }
    {
        read_many(
            self.alloc,
            tokens,
            &[Kind::And],
            |tokens: &mut Cursor<'_>| { self.and_one(tokens) },
        )
    }

    #[tactic(auto, unfolding(crate::specs::ReadExpr::conjunction))]
    fn conjunction(&self, tokens: &mut Cursor<'_>) -> Result<Expr, Fault>
        requires { Nests self.now.depth (F.pre self.now.expr) (F.post self.now.expr) }
        ensures { Reads (spec.conjunction (spec.expr self.now.depth) self.now.depth tokens.old) result tokens.new }
    {
        let first = self.negation(tokens)?;
        let more = self.and_more(tokens);
        let (first, more) = beside(first, more)?;
        if more.as_slice().is_empty() {
            return Ok(first);
        }
        Ok(Expr::And(in_tree(with_first(first, more)?)))
    }

    #[tactic(auto, unfolding(crate::specs::ReadExpr::or_one))]
    fn or_one(&self, tokens: &mut Cursor<'_>) -> Result<Expr, Fault>
        requires { Nests self.now.depth (F.pre self.now.expr) (F.post self.now.expr) }
        ensures { Reads (spec.or_one (spec.expr self.now.depth) self.now.depth tokens.old) result tokens.new }
    {
        tokens.skip(Kind::Or)?;
        self.conjunction(tokens)
    }

    #[tactic(auto, unfolding(crate::specs::ReadExpr::or_more))]
    fn or_more(&self, tokens: &mut Cursor<'_>) -> Result<List<Expr>, Fault>
        requires { Nests self.now.depth (F.pre self.now.expr) (F.post self.now.expr) }
        ensures { Reads (spec.or_more (spec.expr self.now.depth) self.now.depth tokens.old) result tokens.new }
    {
        read_many(self.alloc, tokens, &[Kind::Or], |tokens: &mut Cursor<'_>| {
            self.or_one(tokens)
        })
    }

    #[tactic(auto, unfolding(crate::specs::ReadExpr::disjunction))]
    fn disjunction(&self, tokens: &mut Cursor<'_>) -> Result<Expr, Fault>
        requires { Nests self.now.depth (F.pre self.now.expr) (F.post self.now.expr) }
        ensures { Reads (spec.disjunction (spec.expr self.now.depth) self.now.depth tokens.old) result tokens.new }
    {
        let first = self.conjunction(tokens)?;
        let more = self.or_more(tokens);
        let (first, more) = beside(first, more)?;
        if more.as_slice().is_empty() {
            return Ok(first);
        }
        Ok(Expr::Or(in_tree(with_first(first, more)?)))
    }

    /// The rule where an expression goes one level deeper.
    pub fn level(&self, tokens: &mut Cursor<'_>, entry: Entry) -> Result<Expr, Fault>
        requires { Nests self.now.depth (F.pre self.now.expr) (F.post self.now.expr) }
        ensures { Reads (spec.level (spec.expr self.now.depth) self.now.depth entry tokens.old) result tokens.new }
    {
        match entry {
            Entry::Whole => self.disjunction(tokens),
            Entry::Negated => self.negation(tokens),
            Entry::Signed => self.unary(tokens),
        }
    }
}

/// An expression of at most `depth` levels less one.
pub fn expr(
    alloc: Global,
    tokens: &mut Cursor<'_>,
    depth: usize,
    entry: Entry,
) -> Result<Expr, Fault>
    ensures { Reads (spec.expr depth entry tokens.old) result tokens.new }
{
    if depth == 0 {
        return Err(Fault::TooDeep);
    }
    Parser {
        alloc,
        depth: depth - 1,
        expr,
    }
    .level(tokens, entry)
}
