//! The rules of an expression that hold together most tightly, over the reader of those one level deeper.

ghost use Rattle.std.specs.Prelude.{◌≡◌, [], ◌∷◌, ◌++◌};
ghost use Rattle.ct_grammar.specs.Reading.{Reads, guard, need, option};
ghost use Rattle.ct_grammar.specs.declared.kind.Kind.TheVariants as k;
ghost use Rattle.ct_parse_expr.specs.Nests.{Nests};
ghost use Rattle.ct_parse_expr.specs.ReadExpr as spec;
ghost use Rattle.ct_parse_expr.specs.declared.level.Entry.TheVariants.{Whole};

use crate::hold::{beside, then_skip};
use crate::level::{Entry, Parser};
use crate::names::{alias, column, name_list};
use crate::trees::{call_one, call_two, in_tree, with_first};
use ct_grammar::{Cursor, Fault, Kind, NUMBERS, read_many, table_name};
use ct_types::{Expr, List, RowVersion, Scalar};
use sqlite_items::{Boxed, Items};
use std::alloc::Global;

const WITH_NONE: &[Kind] = &[Kind::CurrentVersion];

const WITH_ONE: &[Kind] = &[Kind::MinValidVersion, Kind::ObjectId];

const WITH_TWO: &[Kind] = &[Kind::IsColumnInMask, Kind::IsNull];

const WITH_THREE: &[Kind] = &[Kind::ColumnProperty];

/// Three arguments.
type Three = (Boxed<Expr>, (Boxed<Expr>, Boxed<Expr>));

impl<F: Fn(Global, &mut Cursor<'_>, usize, Entry) -> Result<Expr, Fault>> Parser<F> {
    /// A whole expression, one level deeper.
    pub fn value(&self, tokens: &mut Cursor<'_>) -> Result<Expr, Fault>
        requires { Nests self.now.depth (F.pre self.now.expr) (F.post self.now.expr) }
        ensures { Reads (spec.expr self.now.depth Whole tokens.old) result tokens.new }
    {
        (self.expr)(self.alloc, tokens, self.depth, Entry::Whole)
    }

    #[tactic(auto, unfolding(crate::specs::ReadExpr::next_value))]
    fn next_value(&self, tokens: &mut Cursor<'_>) -> Result<Expr, Fault>
        requires { Nests self.now.depth (F.pre self.now.expr) (F.post self.now.expr) }
        ensures { Reads (spec.next_value (spec.expr self.now.depth) tokens.old) result tokens.new }
    {
        tokens.skip(Kind::Comma)?;
        self.value(tokens)
    }

    #[tactic(auto, unfolding(crate::specs::ReadExpr::more_values))]
    fn more_values(&self, tokens: &mut Cursor<'_>) -> Result<List<Expr>, Fault>
        requires { Nests self.now.depth (F.pre self.now.expr) (F.post self.now.expr) }
        ensures { Reads (spec.more_values (spec.expr self.now.depth) tokens.old) result tokens.new }
    {
        read_many(
            self.alloc,
            tokens,
            &[Kind::Comma],
            |tokens: &mut Cursor<'_>| { self.next_value(tokens) },
        )
    }

    /// Values in brackets.
    #[tactic(auto, unfolding(crate::specs::ReadExpr::tuple))]
    pub fn tuple(&self, tokens: &mut Cursor<'_>) -> Result<Items<Expr>, Fault>
        requires { Nests self.now.depth (F.pre self.now.expr) (F.post self.now.expr) }
        ensures { Reads (spec.tuple (spec.expr self.now.depth) tokens.old) result tokens.new }
    {
        tokens.skip(Kind::Open)?;
        let first = self.value(tokens)?;
        let more = self.more_values(tokens);
        let (first, more) = beside(first, more)?;
        let values = with_first(first, more)?;
        Ok(in_tree(then_skip(values, tokens, Kind::Close)?))
    }

    /// A row's version, from VERSION on.
    #[tactic(auto, unfolding(crate::specs::ReadExpr::version_tail))]
    pub fn version_tail(&self, tokens: &mut Cursor<'_>) -> Result<RowVersion, Fault>
        requires { Nests self.now.depth (F.pre self.now.expr) (F.post self.now.expr) }
        ensures { Reads (spec.version_tail (spec.expr self.now.depth) tokens.old) result tokens.new }
    {
        tokens.skip(Kind::Version)?;
        let table = table_name(self.alloc, tokens)?;
        let table = then_skip(table, tokens, Kind::Comma)?;
        let columns = name_list(self.alloc, tokens);
        let names = beside(table, columns)?;
        let names = then_skip(names, tokens, Kind::Comma)?;
        let values = self.tuple(tokens);
        let row = beside(names, values)?;
        let ((table, columns), values) = then_skip(row, tokens, Kind::Close)?;
        Ok(RowVersion {
            table,
            columns,
            values,
        })
    }

    /// A row's version.
    #[tactic(auto, unfolding(crate::specs::ReadExpr::version))]
    pub fn version(&self, tokens: &mut Cursor<'_>) -> Result<RowVersion, Fault>
        requires { Nests self.now.depth (F.pre self.now.expr) (F.post self.now.expr) }
        ensures { Reads (spec.version (spec.expr self.now.depth) tokens.old) result tokens.new }
    {
        tokens.skip(Kind::ChangeTable)?;
        tokens.skip(Kind::Open)?;
        self.version_tail(tokens)
    }

    #[tactic(auto, unfolding(crate::specs::ReadExpr::scalar))]
    fn scalar(&self, tokens: &mut Cursor<'_>) -> Result<Scalar, Fault>
        requires { Nests self.now.depth (F.pre self.now.expr) (F.post self.now.expr) }
        ensures { Reads (spec.scalar (spec.expr self.now.depth) tokens.old) result tokens.new }
    {
        tokens.skip(Kind::Select)?;
        let source = tokens.name(self.alloc)?;
        let source = then_skip(source, tokens, Kind::Dot)?;
        let column = tokens.name(self.alloc);
        let names = beside(source, column)?;
        let names = then_skip(names, tokens, Kind::From)?;
        let version = self.version(tokens);
        let row = beside(names, version)?;
        let alias = alias(self.alloc, tokens);
        let (((source, column), version), alias) = beside(row, alias)?;
        Ok(Scalar {
            source,
            column,
            version,
            alias,
        })
    }

    #[tactic(auto, unfolding(crate::specs::ReadExpr::scalar_value))]
    fn scalar_value(&self, tokens: &mut Cursor<'_>) -> Result<Expr, Fault>
        requires { Nests self.now.depth (F.pre self.now.expr) (F.post self.now.expr) }
        ensures { Reads (spec.scalar_value (spec.expr self.now.depth) tokens.old) result tokens.new }
    {
        let scalar = self.scalar(tokens)?;
        Ok(Expr::Scalar(Boxed::new(self.alloc, scalar)?))
    }

    #[tactic(auto, unfolding(crate::specs::ReadExpr::enclosed_value))]
    fn enclosed_value(&self, tokens: &mut Cursor<'_>) -> Result<Expr, Fault>
        requires { Nests self.now.depth (F.pre self.now.expr) (F.post self.now.expr) }
        ensures { Reads (spec.enclosed_value (spec.expr self.now.depth) tokens.old) result tokens.new }
    {
        if tokens.sees(&[Kind::Select]) {
            self.scalar_value(tokens)
        } else {
            self.value(tokens)
        }
    }

    #[tactic(auto, unfolding(crate::specs::ReadExpr::enclosed))]
    fn enclosed(&self, tokens: &mut Cursor<'_>) -> Result<Expr, Fault>
        requires { Nests self.now.depth (F.pre self.now.expr) (F.post self.now.expr) }
        ensures { Reads (spec.enclosed (spec.expr self.now.depth) self.now.depth tokens.old) result tokens.new }
    {
        let value = self.enclosed_value(tokens)?;
        then_skip(value, tokens, Kind::Close)
    }

    fn guarded_value(&self, tokens: &mut Cursor<'_>) -> Result<Expr, Fault>
        requires { Nests self.now.depth (F.pre self.now.expr) (F.post self.now.expr) }
        ensures { Reads (guard self.now.depth (spec.enclosed (spec.expr self.now.depth) self.now.depth) tokens.old) result tokens.new }
    {
        if self.depth == 0 {
            return Err(Fault::TooDeep);
        }
        self.enclosed(tokens)
    }

    #[tactic(auto, unfolding(crate::specs::ReadExpr::brackets))]
    fn brackets(&self, tokens: &mut Cursor<'_>) -> Result<Expr, Fault>
        requires { Nests self.now.depth (F.pre self.now.expr) (F.post self.now.expr) }
        ensures { Reads (spec.brackets (spec.expr self.now.depth) self.now.depth tokens.old) result tokens.new }
    {
        tokens.skip(Kind::Open)?;
        self.guarded_value(tokens)
    }

    #[tactic(auto, unfolding(crate::specs::ReadExpr::one_argument))]
    fn one_argument(&self, tokens: &mut Cursor<'_>) -> Result<Expr, Fault>
        requires { Nests self.now.depth (F.pre self.now.expr) (F.post self.now.expr) }
        ensures { Reads (spec.one_argument (spec.expr self.now.depth) self.now.depth tokens.old) result tokens.new }
    {
        let value = self.value(tokens)?;
        then_skip(value, tokens, Kind::Close)
    }

    #[tactic(auto, unfolding(crate::specs::ReadExpr::two_arguments))]
    fn two_arguments(&self, tokens: &mut Cursor<'_>) -> Result<(Expr, Expr), Fault>
        requires { Nests self.now.depth (F.pre self.now.expr) (F.post self.now.expr) }
        ensures { Reads (spec.two_arguments (spec.expr self.now.depth) self.now.depth tokens.old) result tokens.new }
    {
        let first = self.value(tokens)?;
        let first = then_skip(first, tokens, Kind::Comma)?;
        let second = self.value(tokens);
        let both = beside(first, second)?;
        then_skip(both, tokens, Kind::Close)
    }

    /// A whole expression, one level deeper, in a box.
    fn boxed(&self, tokens: &mut Cursor<'_>) -> Result<Boxed<Expr>, Fault>
        requires { Nests self.now.depth (F.pre self.now.expr) (F.post self.now.expr) }
        ensures { Reads (spec.expr self.now.depth Whole tokens.old) result tokens.new }
    {
        let value = self.value(tokens)?;
        Ok(Boxed::new(self.alloc, value)?)
    }

    #[tactic(auto, unfolding(crate::specs::ReadExpr::three_arguments))]
    fn three_arguments(&self, tokens: &mut Cursor<'_>) -> Result<Three, Fault>
        requires { Nests self.now.depth (F.pre self.now.expr) (F.post self.now.expr) }
        ensures { Reads (spec.three_arguments (spec.expr self.now.depth) self.now.depth tokens.old) result tokens.new }
    {
        let first = self.boxed(tokens)?;
        let first = then_skip(first, tokens, Kind::Comma)?;
        let second = self.boxed(tokens);
        let two = beside(first, second)?;
        let two = then_skip(two, tokens, Kind::Comma)?;
        let third = self.boxed(tokens);
        let three = beside(two, third)?;
        let ((first, second), third) = then_skip(three, tokens, Kind::Close)?;
        Ok((first, (second, third)))
    }

    fn guarded_none(&self, tokens: &mut Cursor<'_>) -> Result<(), Fault>
        requires { Nests self.now.depth (F.pre self.now.expr) (F.post self.now.expr) }
        ensures { Reads (guard self.now.depth (need k.Close) tokens.old) result tokens.new }
    {
        if self.depth == 0 {
            return Err(Fault::TooDeep);
        }
        tokens.skip(Kind::Close)
    }

    fn guarded_one(&self, tokens: &mut Cursor<'_>) -> Result<Expr, Fault>
        requires { Nests self.now.depth (F.pre self.now.expr) (F.post self.now.expr) }
        ensures { Reads (guard self.now.depth (spec.one_argument (spec.expr self.now.depth) self.now.depth) tokens.old) result tokens.new }
    {
        if self.depth == 0 {
            return Err(Fault::TooDeep);
        }
        self.one_argument(tokens)
    }

    fn guarded_two(&self, tokens: &mut Cursor<'_>) -> Result<(Expr, Expr), Fault>
        requires { Nests self.now.depth (F.pre self.now.expr) (F.post self.now.expr) }
        ensures { Reads (guard self.now.depth (spec.two_arguments (spec.expr self.now.depth) self.now.depth) tokens.old) result tokens.new }
    {
        if self.depth == 0 {
            return Err(Fault::TooDeep);
        }
        self.two_arguments(tokens)
    }

    fn guarded_three(&self, tokens: &mut Cursor<'_>) -> Result<Three, Fault>
        requires { Nests self.now.depth (F.pre self.now.expr) (F.post self.now.expr) }
        ensures { Reads (guard self.now.depth (spec.three_arguments (spec.expr self.now.depth) self.now.depth) tokens.old) result tokens.new }
    {
        if self.depth == 0 {
            return Err(Fault::TooDeep);
        }
        self.three_arguments(tokens)
    }

    #[tactic(auto, unfolding(crate::specs::ReadExpr::call_none))]
    fn call_none(&self, tokens: &mut Cursor<'_>) -> Result<Expr, Fault>
        requires { Nests self.now.depth (F.pre self.now.expr) (F.post self.now.expr) }
        ensures { Reads (spec.call_none (spec.expr self.now.depth) self.now.depth tokens.old) result tokens.new }
    {
        tokens.kind(WITH_NONE)?;
        tokens.skip(Kind::Open)?;
        self.guarded_none(tokens)?;
        Ok(Expr::CurrentVersion)
    }

    #[tactic(auto, unfolding(crate::specs::ReadExpr::call_with_one))]
    fn call_with_one(&self, tokens: &mut Cursor<'_>) -> Result<Expr, Fault>
        requires { Nests self.now.depth (F.pre self.now.expr) (F.post self.now.expr) }
        ensures { Reads (spec.call_with_one (spec.expr self.now.depth) self.now.depth tokens.old) result tokens.new }
    {
        let word = tokens.kind(WITH_ONE)?;
        tokens.skip(Kind::Open)?;
        let value = self.guarded_one(tokens)?;
        Ok(call_one(self.alloc, word, value)?)
    }

    #[tactic(auto, unfolding(crate::specs::ReadExpr::call_with_two))]
    fn call_with_two(&self, tokens: &mut Cursor<'_>) -> Result<Expr, Fault>
        requires { Nests self.now.depth (F.pre self.now.expr) (F.post self.now.expr) }
        ensures { Reads (spec.call_with_two (spec.expr self.now.depth) self.now.depth tokens.old) result tokens.new }
    {
        let word = tokens.kind(WITH_TWO)?;
        tokens.skip(Kind::Open)?;
        let (first, second) = self.guarded_two(tokens)?;
        Ok(call_two(self.alloc, word, first, second)?)
    }

    #[tactic(auto, unfolding(crate::specs::ReadExpr::call_with_three))]
    fn call_with_three(&self, tokens: &mut Cursor<'_>) -> Result<Expr, Fault>
        requires { Nests self.now.depth (F.pre self.now.expr) (F.post self.now.expr) }
        ensures { Reads (spec.call_with_three (spec.expr self.now.depth) self.now.depth tokens.old) result tokens.new }
    {
        tokens.kind(WITH_THREE)?;
        tokens.skip(Kind::Open)?;
        let (first, (second, third)) = self.guarded_three(tokens)?;
        Ok(Expr::ColumnProperty(first, second, third))
    }

    #[tactic(auto, unfolding(crate::specs::ReadExpr::reference))]
    fn reference(&self, tokens: &mut Cursor<'_>) -> Result<Expr, Fault>
        requires { Nests self.now.depth (F.pre self.now.expr) (F.post self.now.expr) }
        ensures { Reads (spec.reference (spec.expr self.now.depth) self.now.depth tokens.old) result tokens.new }
    {
        if tokens.sees_two(WITH_NONE, &[Kind::Open]) {
            self.call_none(tokens)
        } else if tokens.sees_two(WITH_ONE, &[Kind::Open]) {
            self.call_with_one(tokens)
        } else if tokens.sees_two(WITH_TWO, &[Kind::Open]) {
            self.call_with_two(tokens)
        } else if tokens.sees_two(WITH_THREE, &[Kind::Open]) {
            self.call_with_three(tokens)
        } else {
            column(self.alloc, tokens)
        }
    }

    #[tactic(auto, unfolding(crate::specs::ReadExpr::literal_or_reference))]
    fn literal_or_reference(&self, tokens: &mut Cursor<'_>) -> Result<Expr, Fault>
        requires { Nests self.now.depth (F.pre self.now.expr) (F.post self.now.expr) }
        ensures { Reads (spec.literal_or_reference (spec.expr self.now.depth) self.now.depth tokens.old) result tokens.new }
    {
        if tokens.sees(&[Kind::Text]) {
            Ok(Expr::Text(tokens.text(self.alloc)?))
        } else if tokens.sees(&[Kind::Bytes]) {
            Ok(Expr::Bytes(tokens.bytes(self.alloc)?))
        } else if tokens.sees(&[Kind::Variable]) {
            Ok(Expr::Variable(tokens.variable(self.alloc)?))
        } else if tokens.sees(&[Kind::Open]) {
            self.brackets(tokens)
        } else {
            self.reference(tokens)
        }
    }

    #[tactic(auto, unfolding(crate::specs::ReadExpr::primary))]
    pub fn primary(&self, tokens: &mut Cursor<'_>) -> Result<Expr, Fault>
        requires { Nests self.now.depth (F.pre self.now.expr) (F.post self.now.expr) }
        ensures { Reads (spec.primary (spec.expr self.now.depth) self.now.depth tokens.old) result tokens.new }
    {
        if tokens.sees(&[Kind::Null]) {
            tokens.skip(Kind::Null)?;
            Ok(Expr::Null)
        } else if tokens.sees(NUMBERS) {
            Ok(Expr::Number(tokens.number(self.alloc)?))
        } else {
            self.literal_or_reference(tokens)
        }
    }
}
