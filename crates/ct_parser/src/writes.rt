//! INSERT, UPDATE and DELETE.

ghost use Rattle.std.specs.Prelude.{[], ◌∷◌};
ghost use Rattle.ct_grammar.specs.Reading.{Reads, option};
ghost use Rattle.ct_grammar.specs.declared.kind.Kind.TheVariants as k;
ghost use Rattle.ct_parse_expr.specs.ReadExpr as exprs;
ghost use Rattle.ct_parser.specs.ReadStmt as spec;

use crate::levels::Parser;
use ct_grammar::{Cursor, Fault, Kind, read_many, table_name};
use ct_parse_expr::{beside, name_list, then_skip, tuple, value, with_first};
use ct_types::{Expr, List, SetColumn, Stmt, TableSource, Text, WriteStmt};
use sqlite_items::Items;

impl Parser {
    #[tactic(auto, unfolding(crate::specs::ReadStmt::next_tuple))]
    fn next_tuple(&self, tokens: &mut Cursor<'_>) -> Result<Items<Expr>, Fault>
        ensures { Reads (spec.next_tuple (exprs.expr self.now.depth) tokens.old) result tokens.new }
    {
        tokens.skip(Kind::Comma)?;
        tuple(self.alloc, tokens, self.depth)
    }

    #[tactic(auto, unfolding(crate::specs::ReadStmt::more_tuples))]
    fn more_tuples(&self, tokens: &mut Cursor<'_>) -> Result<List<Items<Expr>>, Fault>
        ensures { Reads (spec.more_tuples (exprs.expr self.now.depth) tokens.old) result tokens.new }
    {
        read_many(
            self.alloc,
            tokens,
            &[Kind::Comma],
            |tokens: &mut Cursor<'_>| { self.next_tuple(tokens) },
        )
    }

    fn maybe_names(&self, tokens: &mut Cursor<'_>) -> Result<Option<List<Text>>, Fault>
        ensures { Reads (option (k.Open ∷ []) exprs.name_list tokens.old) result tokens.new }
    {
        if tokens.sees(&[Kind::Open]) {
            Ok(Some(name_list(self.alloc, tokens)?))
        } else {
            Ok(None)
        }
    }

    #[tactic(auto, unfolding(crate::specs::ReadStmt::insert))]
    fn insert(&self, tokens: &mut Cursor<'_>) -> Result<WriteStmt, Fault>
        ensures { Reads (spec.insert (exprs.expr self.now.depth) tokens.old) result tokens.new }
    {
        tokens.skip(Kind::Insert)?;
        tokens.skip_if(Kind::Into)?;
        let table = table_name(self.alloc, tokens)?;
        let columns = self.maybe_names(tokens);
        let target = beside(table, columns)?;
        let target = then_skip(target, tokens, Kind::Values)?;
        let first = tuple(self.alloc, tokens, self.depth);
        let held = beside(target, first)?;
        let more = self.more_tuples(tokens);
        let (((table, columns), first), more) = beside(held, more)?;
        let tuples = with_first(first, more)?;
        Ok(WriteStmt::Insert {
            table,
            columns,
            tuples,
        })
    }

    #[tactic(auto, unfolding(crate::specs::ReadStmt::set_column))]
    fn set_column(&self, tokens: &mut Cursor<'_>) -> Result<SetColumn, Fault>
        ensures { Reads (spec.set_column (exprs.expr self.now.depth) tokens.old) result tokens.new }
    {
        let column = tokens.name(self.alloc)?;
        let column = then_skip(column, tokens, Kind::Equal)?;
        let value = value(self.alloc, tokens, self.depth);
        let (column, value) = beside(column, value)?;
        Ok(SetColumn { column, value })
    }

    #[tactic(auto, unfolding(crate::specs::ReadStmt::next_set))]
    fn next_set(&self, tokens: &mut Cursor<'_>) -> Result<SetColumn, Fault>
        ensures { Reads (spec.next_set (exprs.expr self.now.depth) tokens.old) result tokens.new }
    {
        tokens.skip(Kind::Comma)?;
        self.set_column(tokens)
    }

    #[tactic(auto, unfolding(crate::specs::ReadStmt::more_sets))]
    fn more_sets(&self, tokens: &mut Cursor<'_>) -> Result<List<SetColumn>, Fault>
        ensures { Reads (spec.more_sets (exprs.expr self.now.depth) tokens.old) result tokens.new }
    {
        read_many(
            self.alloc,
            tokens,
            &[Kind::Comma],
            |tokens: &mut Cursor<'_>| { self.next_set(tokens) },
        )
    }

    #[tactic(auto, unfolding(crate::specs::ReadStmt::from_table))]
    fn from_table(&self, tokens: &mut Cursor<'_>) -> Result<TableSource, Fault>
        ensures { Reads (spec.from_table (exprs.expr self.now.depth) tokens.old) result tokens.new }
    {
        tokens.skip(Kind::From)?;
        self.table_source(tokens)
    }

    fn maybe_from_table(&self, tokens: &mut Cursor<'_>) -> Result<Option<TableSource>, Fault>
        ensures { Reads (option (k.From ∷ []) (spec.from_table (exprs.expr self.now.depth)) tokens.old) result tokens.new }
    {
        if tokens.sees(&[Kind::From]) {
            Ok(Some(self.from_table(tokens)?))
        } else {
            Ok(None)
        }
    }

    #[tactic(auto, unfolding(crate::specs::ReadStmt::update))]
    fn update(&self, tokens: &mut Cursor<'_>) -> Result<WriteStmt, Fault>
        ensures { Reads (spec.update (exprs.expr self.now.depth) tokens.old) result tokens.new }
    {
        tokens.skip(Kind::Update)?;
        let table = table_name(self.alloc, tokens)?;
        let table = then_skip(table, tokens, Kind::Set)?;
        let first = self.set_column(tokens);
        let held = beside(table, first)?;
        let more = self.more_sets(tokens);
        let ((table, first), more) = beside(held, more)?;
        let sets = with_first(first, more)?;
        let from = self.maybe_from_table(tokens);
        let held = beside((table, sets), from)?;
        let condition = self.maybe_condition(tokens);
        let (((table, sets), from), condition) = beside(held, condition)?;
        Ok(WriteStmt::Update {
            table,
            sets,
            from,
            condition,
        })
    }

    #[tactic(auto, unfolding(crate::specs::ReadStmt::delete))]
    fn delete(&self, tokens: &mut Cursor<'_>) -> Result<WriteStmt, Fault>
        ensures { Reads (spec.delete (exprs.expr self.now.depth) tokens.old) result tokens.new }
    {
        tokens.skip(Kind::Delete)?;
        tokens.skip_if(Kind::From)?;
        let table = table_name(self.alloc, tokens)?;
        let condition = self.maybe_condition(tokens);
        let (table, condition) = beside(table, condition)?;
        Ok(WriteStmt::Delete { table, condition })
    }

    #[tactic(auto, unfolding(crate::specs::ReadStmt::write))]
    fn write(&self, tokens: &mut Cursor<'_>) -> Result<WriteStmt, Fault>
        ensures { Reads (spec.write (exprs.expr self.now.depth) tokens.old) result tokens.new }
    {
        if tokens.sees(&[Kind::Insert]) {
            self.insert(tokens)
        } else if tokens.sees(&[Kind::Update]) {
            self.update(tokens)
        } else {
            self.delete(tokens)
        }
    }

    #[tactic(auto, unfolding(crate::specs::ReadStmt::context))]
    fn context(&self, tokens: &mut Cursor<'_>) -> Result<Expr, Fault>
        ensures { Reads (spec.context (exprs.expr self.now.depth) tokens.old) result tokens.new }
    {
        tokens.skip(Kind::With)?;
        tokens.skip(Kind::ChangeTrackingContext)?;
        tokens.skip(Kind::Open)?;
        let context = value(self.alloc, tokens, self.depth)?;
        then_skip(context, tokens, Kind::Close)
    }

    fn maybe_context(&self, tokens: &mut Cursor<'_>) -> Result<Option<Expr>, Fault>
        ensures { Reads (option (k.With ∷ []) (spec.context (exprs.expr self.now.depth)) tokens.old) result tokens.new }
    {
        if tokens.sees(&[Kind::With]) {
            Ok(Some(self.context(tokens)?))
        } else {
            Ok(None)
        }
    }

    /// INSERT, UPDATE and DELETE.
    #[tactic(auto, unfolding(crate::specs::ReadStmt::written))]
    pub fn written(&self, tokens: &mut Cursor<'_>) -> Result<Stmt, Fault>
        ensures { Reads (spec.written (exprs.expr self.now.depth) tokens.old) result tokens.new }
    {
        let context = self.maybe_context(tokens)?;
        let write = self.write(tokens);
        let (context, write) = beside(context, write)?;
        Ok(Stmt::Write { context, write })
    }
}
