//! FROM.

ghost use Rattle.std.specs.Prelude.{[], ◌∷◌};
ghost use Rattle.ct_grammar.specs.Kinds.{names};
ghost use Rattle.ct_grammar.specs.Reading.{Reads, option};
ghost use Rattle.ct_grammar.specs.declared.kind.Kind.TheVariants as k;
ghost use Rattle.ct_parse_expr.specs.ReadExpr as exprs;
ghost use Rattle.ct_parser.specs.ReadStmt as spec;

use crate::levels::Parser;
use crate::parts::ChangeTable;
use crate::trees::source_of;
use ct_grammar::{Cursor, Fault, Kind, table_name};
use ct_parse_expr::{alias, beside, then_skip, value, version, version_tail};
use ct_types::{FromClause, JoinClause, JoinKind, Source, TableSource, Text, VersionSource};

const ALIAS: &[Kind] = &[
    Kind::As,
    Kind::Unlisted,
    Kind::Bracketed,
    Kind::AllowSnapshotIsolation,
    Kind::Apply,
    Kind::AutoCleanup,
    Kind::BigInt,
    Kind::Changes,
    Kind::ChangeTable,
    Kind::ChangeRetention,
    Kind::ChangeTracking,
    Kind::ChangeTrackingContext,
    Kind::Committed,
    Kind::Days,
    Kind::Disable,
    Kind::Enable,
    Kind::Hours,
    Kind::Int,
    Kind::Isolation,
    Kind::Level,
    Kind::LockTimeout,
    Kind::Minutes,
    Kind::NVarChar,
    Kind::Off,
    Kind::Read,
    Kind::ReadCommittedSnapshot,
    Kind::Snapshot,
    Kind::TrackColumnsUpdated,
    Kind::VarBinary,
    Kind::Version,
    Kind::CurrentVersion,
    Kind::MinValidVersion,
    Kind::IsColumnInMask,
    Kind::ObjectId,
    Kind::ColumnProperty,
    Kind::IsNull,
];

const JOINS: &[Kind] = &[
    Kind::Join,
    Kind::Inner,
    Kind::Left,
    Kind::Right,
    Kind::Cross,
];

impl Parser {
    pub fn maybe_alias(&self, tokens: &mut Cursor<'_>) -> Result<Option<Text>, Fault>
        ensures { Reads (option (k.As ∷ names) exprs.alias tokens.old) result tokens.new }
    {
        if tokens.sees(ALIAS) {
            Ok(Some(alias(self.alloc, tokens)?))
        } else {
            Ok(None)
        }
    }

    /// A table, which may have another name.
    #[tactic(auto, unfolding(crate::specs::ReadStmt::table_source))]
    pub fn table_source(&self, tokens: &mut Cursor<'_>) -> Result<TableSource, Fault>
        ensures { Reads (spec.table_source tokens.old) result tokens.new }
    {
        let table = table_name(self.alloc, tokens)?;
        let alias = self.maybe_alias(tokens);
        let (table, alias) = beside(table, alias)?;
        Ok(TableSource { table, alias })
    }

    #[tactic(auto, unfolding(crate::specs::ReadStmt::inner_join))]
    fn inner_join(&self, tokens: &mut Cursor<'_>) -> Result<JoinKind, Fault>
        ensures { Reads (spec.inner_join tokens.old) result tokens.new }
    {
        tokens.skip(Kind::Inner)?;
        tokens.skip(Kind::Join)?;
        Ok(JoinKind::Inner)
    }

    #[tactic(auto, unfolding(crate::specs::ReadStmt::left_join))]
    fn left_join(&self, tokens: &mut Cursor<'_>) -> Result<JoinKind, Fault>
        ensures { Reads (spec.left_join tokens.old) result tokens.new }
    {
        tokens.skip(Kind::Left)?;
        tokens.skip_if(Kind::Outer)?;
        tokens.skip(Kind::Join)?;
        Ok(JoinKind::Left)
    }

    #[tactic(auto, unfolding(crate::specs::ReadStmt::right_join))]
    fn right_join(&self, tokens: &mut Cursor<'_>) -> Result<JoinKind, Fault>
        ensures { Reads (spec.right_join tokens.old) result tokens.new }
    {
        tokens.skip(Kind::Right)?;
        tokens.skip_if(Kind::Outer)?;
        tokens.skip(Kind::Join)?;
        Ok(JoinKind::Right)
    }

    #[tactic(auto, unfolding(crate::specs::ReadStmt::join_kind))]
    fn join_kind(&self, tokens: &mut Cursor<'_>) -> Result<JoinKind, Fault>
        ensures { Reads (spec.join_kind tokens.old) result tokens.new }
    {
        if tokens.sees(&[Kind::Join]) {
            tokens.skip(Kind::Join)?;
            Ok(JoinKind::Inner)
        } else if tokens.sees(&[Kind::Inner]) {
            self.inner_join(tokens)
        } else if tokens.sees(&[Kind::Left]) {
            self.left_join(tokens)
        } else {
            self.right_join(tokens)
        }
    }

    #[tactic(auto, unfolding(crate::specs::ReadStmt::version_source))]
    fn version_source(&self, tokens: &mut Cursor<'_>) -> Result<VersionSource, Fault>
        ensures { Reads (spec.version_source (exprs.expr self.now.depth) tokens.old) result tokens.new }
    {
        let version = version(self.alloc, tokens, self.depth)?;
        let alias = alias(self.alloc, tokens);
        let (version, alias) = beside(version, alias)?;
        Ok(VersionSource { version, alias })
    }

    #[tactic(auto, unfolding(crate::specs::ReadStmt::changes))]
    fn changes(&self, tokens: &mut Cursor<'_>) -> Result<ChangeTable, Fault>
        ensures { Reads (spec.changes (exprs.expr self.now.depth) tokens.old) result tokens.new }
    {
        tokens.skip(Kind::Changes)?;
        let table = table_name(self.alloc, tokens)?;
        let table = then_skip(table, tokens, Kind::Comma)?;
        let since = value(self.alloc, tokens, self.depth);
        let changes = beside(table, since)?;
        let (table, since) = then_skip(changes, tokens, Kind::Close)?;
        Ok(ChangeTable::Changes(table, since))
    }

    #[tactic(auto, unfolding(crate::specs::ReadStmt::change_table))]
    fn change_table(&self, tokens: &mut Cursor<'_>) -> Result<ChangeTable, Fault>
        ensures { Reads (spec.change_table (exprs.expr self.now.depth) tokens.old) result tokens.new }
    {
        if tokens.sees(&[Kind::Changes]) {
            self.changes(tokens)
        } else {
            Ok(ChangeTable::Version(version_tail(self.alloc, tokens, self.depth)?))
        }
    }

    #[tactic(auto, unfolding(crate::specs::ReadStmt::change_source))]
    fn change_source(&self, tokens: &mut Cursor<'_>) -> Result<Source, Fault>
        ensures { Reads (spec.change_source (exprs.expr self.now.depth) tokens.old) result tokens.new }
    {
        tokens.skip(Kind::ChangeTable)?;
        tokens.skip(Kind::Open)?;
        let form = self.change_table(tokens)?;
        let alias = alias(self.alloc, tokens);
        let (form, alias) = beside(form, alias)?;
        Ok(source_of(form, alias))
    }

    #[tactic(auto, unfolding(crate::specs::ReadStmt::source))]
    fn source(&self, tokens: &mut Cursor<'_>) -> Result<Source, Fault>
        ensures { Reads (spec.source (exprs.expr self.now.depth) tokens.old) result tokens.new }
    {
        if tokens.sees_two(&[Kind::ChangeTable], &[Kind::Open]) {
            self.change_source(tokens)
        } else {
            Ok(Source::Table(self.table_source(tokens)?))
        }
    }

    #[tactic(auto, unfolding(crate::specs::ReadStmt::join_on))]
    fn join_on(&self, tokens: &mut Cursor<'_>) -> Result<JoinClause, Fault>
        ensures { Reads (spec.join_on (exprs.expr self.now.depth) tokens.old) result tokens.new }
    {
        let kind = self.join_kind(tokens)?;
        let source = self.source(tokens)?;
        let source = then_skip(source, tokens, Kind::On)?;
        let condition = value(self.alloc, tokens, self.depth);
        let (source, condition) = beside(source, condition)?;
        Ok(JoinClause::On {
            kind,
            source,
            condition,
        })
    }

    #[tactic(auto, unfolding(crate::specs::ReadStmt::join_apply))]
    fn join_apply(&self, tokens: &mut Cursor<'_>) -> Result<JoinClause, Fault>
        ensures { Reads (spec.join_apply (exprs.expr self.now.depth) tokens.old) result tokens.new }
    {
        tokens.skip(Kind::Cross)?;
        tokens.skip(Kind::Apply)?;
        Ok(JoinClause::Apply(self.version_source(tokens)?))
    }

    #[tactic(auto, unfolding(crate::specs::ReadStmt::join))]
    fn join(&self, tokens: &mut Cursor<'_>) -> Result<JoinClause, Fault>
        ensures { Reads (spec.join (exprs.expr self.now.depth) tokens.old) result tokens.new }
    {
        if tokens.sees(&[Kind::Join, Kind::Inner, Kind::Left, Kind::Right]) {
            self.join_on(tokens)
        } else {
            self.join_apply(tokens)
        }
    }

    fn maybe_join(&self, tokens: &mut Cursor<'_>) -> Result<Option<JoinClause>, Fault>
        ensures { Reads (option (k.Join ∷ k.Inner ∷ k.Left ∷ k.Right ∷ k.Cross ∷ []) (spec.join (exprs.expr self.now.depth)) tokens.old) result tokens.new }
    {
        if tokens.sees(JOINS) {
            Ok(Some(self.join(tokens)?))
        } else {
            Ok(None)
        }
    }

    #[tactic(auto, unfolding(crate::specs::ReadStmt::from))]
    fn from(&self, tokens: &mut Cursor<'_>) -> Result<FromClause, Fault>
        ensures { Reads (spec.from (exprs.expr self.now.depth) tokens.old) result tokens.new }
    {
        tokens.skip(Kind::From)?;
        let source = self.source(tokens)?;
        let join = self.maybe_join(tokens);
        let (source, join) = beside(source, join)?;
        Ok(FromClause { source, join })
    }

    pub fn maybe_from(&self, tokens: &mut Cursor<'_>) -> Result<Option<FromClause>, Fault>
        ensures { Reads (option (k.From ∷ []) (spec.from (exprs.expr self.now.depth)) tokens.old) result tokens.new }
    {
        if tokens.sees(&[Kind::From]) {
            Ok(Some(self.from(tokens)?))
        } else {
            Ok(None)
        }
    }
}
