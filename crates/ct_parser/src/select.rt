//! SELECT.

ghost use Rattle.std.specs.Prelude.{[], ◌∷◌};
ghost use Rattle.ct_grammar.specs.Reading.{Reads, kind, option};
ghost use Rattle.ct_grammar.specs.declared.kind.Kind.TheVariants as k;
ghost use Rattle.ct_parse_expr.specs.ReadExpr as exprs;
ghost use Rattle.ct_parser.specs.ReadStmt as spec;
ghost use Rattle.ct_parser.specs.Statements.{directions};

use crate::levels::Parser;
use crate::trees::{descends, list_in};
use ct_grammar::{Cursor, Fault, Kind, NAMES, read_many};
use ct_parse_expr::{beside, then_skip, value, with_first};
use ct_types::{Expr, List, OrderItem, Select, SelectItem, Stmt};

const DIRECTIONS: &[Kind] = &[Kind::Asc, Kind::Desc];

impl Parser {
    #[tactic(auto, unfolding(crate::specs::ReadStmt::condition))]
    fn condition(&self, tokens: &mut Cursor<'_>) -> Result<Expr, Fault>
        ensures { Reads (spec.condition (exprs.expr self.now.depth) tokens.old) result tokens.new }
    {
        tokens.skip(Kind::Where)?;
        value(self.alloc, tokens, self.depth)
    }

    pub fn maybe_condition(&self, tokens: &mut Cursor<'_>) -> Result<Option<Expr>, Fault>
        ensures { Reads (option (k.Where ∷ []) (spec.condition (exprs.expr self.now.depth)) tokens.old) result tokens.new }
    {
        if tokens.sees(&[Kind::Where]) {
            Ok(Some(self.condition(tokens)?))
        } else {
            Ok(None)
        }
    }

    #[tactic(auto, unfolding(crate::specs::ReadStmt::item_all_of))]
    fn item_all_of(&self, tokens: &mut Cursor<'_>) -> Result<SelectItem, Fault>
        ensures { Reads (spec.item_all_of (exprs.expr self.now.depth) tokens.old) result tokens.new }
    {
        let name = tokens.name(self.alloc)?;
        let name = then_skip(name, tokens, Kind::Dot)?;
        let name = then_skip(name, tokens, Kind::Star)?;
        Ok(SelectItem::AllOf(name))
    }

    #[tactic(auto, unfolding(crate::specs::ReadStmt::item_one))]
    fn item_one(&self, tokens: &mut Cursor<'_>) -> Result<SelectItem, Fault>
        ensures { Reads (spec.item_one (exprs.expr self.now.depth) tokens.old) result tokens.new }
    {
        let value = value(self.alloc, tokens, self.depth)?;
        let alias = self.maybe_alias(tokens);
        let (value, alias) = beside(value, alias)?;
        Ok(SelectItem::One { value, alias })
    }

    #[tactic(auto, unfolding(crate::specs::ReadStmt::item))]
    fn item(&self, tokens: &mut Cursor<'_>) -> Result<SelectItem, Fault>
        ensures { Reads (spec.item (exprs.expr self.now.depth) tokens.old) result tokens.new }
    {
        if tokens.sees(&[Kind::Star]) {
            tokens.skip(Kind::Star)?;
            Ok(SelectItem::All)
        } else if tokens.sees_three(NAMES, &[Kind::Dot], &[Kind::Star]) {
            self.item_all_of(tokens)
        } else {
            self.item_one(tokens)
        }
    }

    #[tactic(auto, unfolding(crate::specs::ReadStmt::next_item))]
    fn next_item(&self, tokens: &mut Cursor<'_>) -> Result<SelectItem, Fault>
        ensures { Reads (spec.next_item (exprs.expr self.now.depth) tokens.old) result tokens.new }
    {
        tokens.skip(Kind::Comma)?;
        self.item(tokens)
    }

    #[tactic(auto, unfolding(crate::specs::ReadStmt::more_items))]
    fn more_items(&self, tokens: &mut Cursor<'_>) -> Result<List<SelectItem>, Fault>
        ensures { Reads (spec.more_items (exprs.expr self.now.depth) tokens.old) result tokens.new }
    {
        read_many(
            self.alloc,
            tokens,
            &[Kind::Comma],
            |tokens: &mut Cursor<'_>| { self.next_item(tokens) },
        )
    }

    fn maybe_direction(&self, tokens: &mut Cursor<'_>) -> Result<Option<Kind>, Fault>
        ensures { Reads (option directions (kind directions) tokens.old) result tokens.new }
    {
        if tokens.sees(DIRECTIONS) {
            Ok(Some(tokens.kind(DIRECTIONS)?))
        } else {
            Ok(None)
        }
    }

    #[tactic(auto, unfolding(crate::specs::ReadStmt::order_item))]
    fn order_item(&self, tokens: &mut Cursor<'_>) -> Result<OrderItem, Fault>
        ensures { Reads (spec.order_item (exprs.expr self.now.depth) tokens.old) result tokens.new }
    {
        let value = value(self.alloc, tokens, self.depth)?;
        let direction = self.maybe_direction(tokens);
        let (value, direction) = beside(value, direction)?;
        Ok(OrderItem {
            value,
            descending: descends(direction),
        })
    }

    #[tactic(auto, unfolding(crate::specs::ReadStmt::next_order))]
    fn next_order(&self, tokens: &mut Cursor<'_>) -> Result<OrderItem, Fault>
        ensures { Reads (spec.next_order (exprs.expr self.now.depth) tokens.old) result tokens.new }
    {
        tokens.skip(Kind::Comma)?;
        self.order_item(tokens)
    }

    #[tactic(auto, unfolding(crate::specs::ReadStmt::more_order))]
    fn more_order(&self, tokens: &mut Cursor<'_>) -> Result<List<OrderItem>, Fault>
        ensures { Reads (spec.more_order (exprs.expr self.now.depth) tokens.old) result tokens.new }
    {
        read_many(
            self.alloc,
            tokens,
            &[Kind::Comma],
            |tokens: &mut Cursor<'_>| { self.next_order(tokens) },
        )
    }

    #[tactic(auto, unfolding(crate::specs::ReadStmt::order))]
    fn order(&self, tokens: &mut Cursor<'_>) -> Result<List<OrderItem>, Fault>
        ensures { Reads (spec.order (exprs.expr self.now.depth) tokens.old) result tokens.new }
    {
        tokens.skip(Kind::Order)?;
        tokens.skip(Kind::By)?;
        let first = self.order_item(tokens)?;
        let more = self.more_order(tokens);
        let (first, more) = beside(first, more)?;
        Ok(with_first(first, more)?)
    }

    fn maybe_order(&self, tokens: &mut Cursor<'_>) -> Result<Option<List<OrderItem>>, Fault>
        ensures { Reads (option (k.Order ∷ []) (spec.order (exprs.expr self.now.depth)) tokens.old) result tokens.new }
    {
        if tokens.sees(&[Kind::Order]) {
            Ok(Some(self.order(tokens)?))
        } else {
            Ok(None)
        }
    }

    #[tactic(auto, unfolding(crate::specs::ReadStmt::select))]
    fn select(&self, tokens: &mut Cursor<'_>) -> Result<Select, Fault>
        ensures { Reads (spec.select (exprs.expr self.now.depth) tokens.old) result tokens.new }
    {
        tokens.skip(Kind::Select)?;
        let first = self.item(tokens)?;
        let more = self.more_items(tokens);
        let (first, more) = beside(first, more)?;
        let items = with_first(first, more)?;
        let from = self.maybe_from(tokens);
        let held = beside(items, from)?;
        let condition = self.maybe_condition(tokens);
        let held = beside(held, condition)?;
        let order = self.maybe_order(tokens);
        let (((items, from), condition), order) = beside(held, order)?;
        Ok(Select {
            items,
            from,
            condition,
            order: list_in(self.alloc, order),
        })
    }

    /// SELECT.
    #[tactic(auto, unfolding(crate::specs::ReadStmt::selection))]
    pub fn selection(&self, tokens: &mut Cursor<'_>) -> Result<Stmt, Fault>
        ensures { Reads (spec.selection (exprs.expr self.now.depth) tokens.old) result tokens.new }
    {
        Ok(Stmt::Select(self.select(tokens)?))
    }
}
