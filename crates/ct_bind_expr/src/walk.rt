ghost use Rattle.std.specs.Prelude.{map, drop};
ghost use Rattle.ct_types.specs.Answers.{Gives, each, onto};
ghost use Rattle.ct_bind_expr.specs.Among.{among};
ghost use Rattle.ct_bind_expr.specs.Versions as versions;
ghost use Rattle.ct_bind_expr.specs.Walk as spec;
ghost use Rattle.ct_bind_expr.specs.Walked.{shown_column as column_shown, scalar_of, walked};

use crate::chains::{
    as_many, conjunction, disjunction, first_terms, first_two, only_term, product, sum,
    with_operand, with_term,
};
use crate::columns::column;
use crate::made::{boxed, joined};
use crate::operators::{
    bytes_literal, column_property, compare, if_null, is_column_in_mask, is_not_null, is_null,
    min_valid_version, negated, negative, number_literal, object_id, text_literal,
};
use crate::place::{Place, Typed, Walked};
use crate::versions::{key_columns, listed_kinds, version, version_column};
use ct_bind_kinds::{Kind, kind_of_type};
use ct_bind_names::{declared_variable, same_name, tracked_table};
use ct_types::{
    BoundExpr, BoundRowVersion, BoundScalar, BoundTerm, Catalogued, Copies, Expr, List, Refusal,
    Scalar, Schema, Term, Text, Variable, VersionColumn,
};
use sqlite_items::Items;
use std::alloc::Global;

/// What names of tables and of variables mean.
#[derive(Clone, Copy)]
pub struct Binder<'a> {
    pub alloc: Global,
    pub tables: &'a [Catalogued],
    pub variables: &'a [Variable],
}

impl Binder<'_> {
    #[tactic(auto, unfolding(crate::specs::Walk::variable))]
    fn variable(&self, name: &Text) -> Result<Typed, Refusal>
        ensures { Gives (among self.now spec.variable name.now) result }
    {
        let (at, kind) = declared_variable(self.alloc, self.variables, name)?;
        Ok(Typed {
            expr: BoundExpr::Variable(at),
            kind: kind_of_type(kind),
        })
    }

    /// The column of a scalar form, whose first name is the alias of its own source.
    fn shown_column(
        &self,
        table: &Schema,
        scalar: &Scalar,
    ) -> Result<(VersionColumn, Kind), Refusal>
        ensures { Gives (column_shown table.now scalar.now) result }
    {
        if !same_name(scalar.source.as_str(), scalar.alias.as_str()) {
            return Err(Refusal::NoColumn {
                name: scalar.source.copy(self.alloc)?,
            });
        }
        version_column(self.alloc, table, &scalar.column)
    }

    /// The scalar form, whose list and tuple are bound.
    #[tactic(auto, unfolding(crate::specs::Walk::scalar_column))]
    fn scalar(
        &self,
        table: &Schema,
        scalar: &Scalar,
        version: Result<BoundRowVersion, Refusal>,
    ) -> Walked
        ensures { Gives (scalar_of table.now scalar.now version) result }
    {
        let (version, (column, kind)) = joined(version, self.shown_column(table, scalar))?;
        let scalar = boxed(self.alloc, BoundScalar { version, column })?;
        Ok(Typed {
            expr: BoundExpr::Scalar(scalar),
            kind,
        })
    }

    /// Each operand of a chain after the first two, onto those.
    #[cycle(walk)]
    fn operands(
        &self,
        place: &Place,
        wanted: Kind,
        before: List<BoundExpr>,
        all: &[Expr],
    ) -> Result<List<BoundExpr>, Refusal>
        ensures { Gives (onto before (each (versions.operand wanted place.now) (map (among self.now spec.walk) (drop 2 all.now)))) result }
    {
        let mut made = before;
        for at in 2..all.len() {
            made = with_operand(made, wanted, self.walk(place, &all[at]))?;
        }
        Ok(made)
    }

    /// The operands of a chain, of which the first two are walked before the first operator is tested.
    #[cycle(walk)]
    fn chain(&self, place: &Place, wanted: Kind, all: &[Expr]) -> Result<List<BoundExpr>, Refusal>
        ensures { Gives (spec.chain wanted place.now (map (among self.now spec.walk) all.now)) result }
    {
        let alloc = self.alloc;
        match all {
            [] => Ok(List::new(alloc)),
            [only] => with_operand(List::new(alloc), wanted, self.walk(place, only)),
            [left, right, ..] => {
                let left = self.walk(place, left);
                let made = first_two(alloc, wanted, left, self.walk(place, right))?;
                self.operands(place, wanted, made, all)
            }
        }
    }

    /// Each operand of a sum after the first two, onto the second; the first is not among these.
    #[cycle(walk)]
    fn terms(
        &self,
        place: &Place,
        before: List<BoundTerm>,
        all: &[Term],
    ) -> Result<List<BoundTerm>, Refusal>
        ensures { Gives (onto before (each (spec.further_term place.now) (map (among self.now spec.term_walk) (drop 1 all.now)))) result }
    {
        let mut made = before;
        for at in 1..all.len() {
            let term = &all[at];
            made = with_term(made, term.subtracts, self.walk(place, &term.value))?;
        }
        Ok(made)
    }

    /// The operands of a sum, of which the first two are walked before the first operator is tested: the first is
    /// walked already.
    #[cycle(walk)]
    fn sum(
        &self,
        place: &Place,
        left: Walked,
        more: &[Term],
    ) -> Result<(BoundExpr, List<BoundTerm>), Refusal>
        ensures { Gives (spec.sum place.now (walked left) (map (among self.now spec.term_walk) more.now)) result }
    {
        let alloc = self.alloc;
        match more {
            [] => only_term(alloc, left),
            [second, ..] => {
                let right = self.walk(place, &second.value);
                let (first, made) = first_terms(alloc, second.subtracts, left, right)?;
                joined(Ok(first), self.terms(place, made, more))
            }
        }
    }

    /// Values, each of the kind that stands at its place.
    #[cycle(walk)]
    fn values(
        &self,
        place: &Place,
        kinds: &[Kind],
        all: &[Expr],
    ) -> Result<List<BoundExpr>, Refusal>
        ensures { Gives (versions.values place.now kinds.now (map (among self.now spec.walk) all.now)) result }
    {
        let mut made = List::new(self.alloc);
        let mut left = kinds;
        for e in all {
            let [kind, more @ ..] = left else {
                return Ok(made);
            };
            made = with_operand(made, *kind, self.walk(place, e))?;
            left = more;
        }
        Ok(made)
    }

    /// The values of a tuple, as many as there are kinds.
    #[cycle(walk)]
    fn listed(
        &self,
        place: &Place,
        kinds: &[Kind],
        all: &[Expr],
    ) -> Result<List<BoundExpr>, Refusal>
        ensures { Gives (versions.tuple place.now kinds.now (map (among self.now spec.walk) all.now)) result }
    {
        as_many(kinds.len(), all.len())?;
        self.values(place, kinds, all)
    }

    /// What an expression comes to at a place: the bound expression with its kind, or the first refusal. The operands of
    /// an operator are walked first, each by itself.
    #[cycle(walk)]
    pub fn walk(&self, place: &Place, e: &Expr) -> Walked
        ensures { Gives (among self.now spec.walk e.now place.now) result }
    {
        let alloc = self.alloc;
        match e {
            Expr::Null => Ok(Typed {
                expr: BoundExpr::Null,
                kind: Kind::Null,
            }),
            Expr::Number(digits) => number_literal(digits),
            Expr::Text(text) => text_literal(alloc, text),
            Expr::Bytes(bytes) => bytes_literal(alloc, bytes),
            Expr::Variable(name) => self.variable(name),
            Expr::Column(name) => column(alloc, place, name),
            Expr::CurrentVersion => Ok(Typed {
                expr: BoundExpr::CurrentVersion,
                kind: Kind::Number,
            }),
            Expr::MinValidVersion(table) => min_valid_version(alloc, self.walk(place, table.get())),
            Expr::IsColumnInMask(column, mask) => {
                let column = self.walk(place, column.get());
                is_column_in_mask(alloc, column, self.walk(place, mask.get()))
            }
            Expr::ObjectId(name) => object_id(alloc, self.walk(place, name.get())),
            Expr::ColumnProperty(table, column, property) => {
                let table = self.walk(place, table.get());
                let column = self.walk(place, column.get());
                column_property(alloc, table, column, self.walk(place, property.get()))
            }
            Expr::IfNull(value, instead) => {
                let value = self.walk(place, value.get());
                if_null(alloc, value, self.walk(place, instead.get()))
            }
            Expr::Scalar(scalar) => {
                let scalar = scalar.get();
                let version = &scalar.version;
                let table = &tracked_table(alloc, self.tables, &version.table)?.schema;
                let names = version.columns.as_slice();
                let bound = self.version_of(place, table, names, version.values.as_slice());
                self.scalar(table, scalar, bound)
            }
            Expr::Negative(operand) => negative(alloc, self.walk(place, operand.get())),
            Expr::Product(factors) => {
                product(self.chain(place, Kind::Number, factors.as_slice()))
            }
            Expr::Sum(first, more) => {
                let first = self.walk(place, first.get());
                sum(alloc, self.sum(place, first, more.as_slice()))
            }
            Expr::Compare(operator, left, right) => {
                let left = self.walk(place, left.get());
                compare(alloc, *operator, left, self.walk(place, right.get()))
            }
            Expr::IsNull(operand) => is_null(alloc, self.walk(place, operand.get())),
            Expr::IsNotNull(operand) => is_not_null(alloc, self.walk(place, operand.get())),
            Expr::Not(operand) => negated(alloc, self.walk(place, operand.get())),
            Expr::And(operands) => {
                conjunction(self.chain(place, Kind::Condition, operands.as_slice()))
            }
            Expr::Or(operands) => {
                disjunction(self.chain(place, Kind::Condition, operands.as_slice()))
            }
        }
    }

    /// The values of a tuple, as many as the list before it has columns and each of its kind.
    pub fn tuple(
        &self,
        place: &Place,
        kinds: &[Kind],
        all: &[Expr],
    ) -> Result<Items<BoundExpr>, Refusal>
        ensures { Gives (versions.tuple place.now kinds.now (map (among self.now spec.walk) all.now)) result }
    {
        let values = self.listed(place, kinds, all)?;
        Ok(Items::from_vec(values.into_vec()))
    }

    /// The list and the tuple of CHANGETABLE(VERSION ..), whose values are walked at this place.
    #[cycle(walk)]
    pub fn version_of(
        &self,
        place: &Place,
        table: &Schema,
        names: &[Text],
        all: &[Expr],
    ) -> Result<BoundRowVersion, Refusal>
        ensures { Gives (versions.version_of table.now names.now (map (among self.now spec.walk) all.now) place.now) result }
    {
        let alloc = self.alloc;
        let key = key_columns(alloc, table)?;
        let kinds = listed_kinds(alloc, key.as_slice(), names)?;
        let values = self.listed(place, kinds.as_slice(), all)?;
        version(alloc, table.id, key.as_slice(), names, values)
    }
}
