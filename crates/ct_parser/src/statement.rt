//! Statements.

ghost use Rattle.std.specs.Prelude.{◌≡◌, ◌<◌, ◌^◌, ◌-◌, if◌then◌else◌, length, Ok, Err};
ghost use Rattle.ct_grammar.specs.Lexemes.{lexemes};
ghost use Rattle.ct_grammar.specs.Told.{AllCut, told};
ghost use Rattle.ct_lexer.specs.Spans.{AllFit};
ghost use Rattle.ct_parser.specs.Exact.{Parsed, most, place};
ghost use Rattle.ct_grammar.specs.Reading.{Gives, Reads};
ghost use Rattle.ct_parse_expr.specs.ReadExpr as exprs;
ghost use Rattle.ct_parser.specs.ReadStmt as spec;

use crate::levels::Parser;
use ct_grammar::{Cursor, Fault, Kind, Kinded, with_kinds};
use ct_lexer::Token;
use ct_parse_definition::{alter, create, truncate};
use ct_types::{Refusal, Stmt};
use std::alloc::Global;

impl Parser {
    #[tactic(auto, unfolding(crate::specs::ReadStmt::body))]
    fn body(&self, tokens: &mut Cursor<'_>) -> Result<Stmt, Fault>
        ensures { Reads (spec.body (exprs.expr self.now.depth) tokens.old) result tokens.new }
    {
        if tokens.sees(&[Kind::Alter]) {
            alter(self.alloc, tokens)
        } else if tokens.sees(&[Kind::Create]) {
            create(self.alloc, tokens)
        } else if tokens.sees(&[Kind::Truncate]) {
            truncate(self.alloc, tokens)
        } else if tokens.sees(&[Kind::With, Kind::Insert, Kind::Update, Kind::Delete]) {
            self.written(tokens)
        } else if tokens.sees(&[Kind::Select]) {
            self.selection(tokens)
        } else {
            self.body_of_session(tokens)
        }
    }

    #[tactic(auto, unfolding(crate::specs::ReadStmt::whole))]
    fn whole(&self, tokens: &mut Cursor<'_>) -> Result<Stmt, Fault>
        ensures { Reads (spec.whole (exprs.expr self.now.depth) tokens.old) result tokens.new }
    {
        let statement = self.body(tokens)?;
        tokens.eat(Kind::Semicolon);
        Ok(statement)
    }
}

/// How many levels deep a statement may go: open brackets of expressions and functions, and NOT and `-` before operands
/// that have not ended.
const MOST: usize = 64;

/// The value where the test holds, else the fault. That the value has any type keeps its drop one call.
fn only_if<T: Drop>(holds: bool, value: T, fault: Fault) -> Result<T, Fault>
    ensures { result ≡ (if holds then Ok value else Err fault) }
{
    if holds { Ok(value) } else { Err(fault) }
}

/// The tree, where no token is left.
fn ended(tree: Stmt, tokens: &Cursor<'_>) -> Result<Stmt, Fault>
    ensures { result ≡ spec.ended tree tokens.now }
{
    only_if(tokens.left() == 0, tree, tokens.refuse())
}

#[tactic(auto, unfolding(crate::specs::ReadStmt::statement))]
fn statement(alloc: Global, tokens: &mut Cursor<'_>) -> Result<Stmt, Fault>
    ensures { Reads (spec.statement most tokens.old) result tokens.new }
{
    Parser {
        alloc,
        depth: MOST + 1,
    }
    .whole(tokens)
}

#[tactic(auto, unfolding(crate::specs::ReadStmt::sentence))]
fn sentence(alloc: Global, text: &str, tokens: &[Kinded]) -> Result<Stmt, Fault>
    requires { AllCut text.now tokens.now }
    ensures { Gives (spec.sentence most (told text.now tokens.now)) result }
{
    let mut cursor = Cursor::new(text, tokens);
    let tree = statement(alloc, &mut cursor)?;
    ended(tree, &cursor)
}

/// The tree of the tokens, whose kinds are looked up first.
fn reading(alloc: Global, text: &str, tokens: &[Token]) -> Result<Stmt, Fault>
    requires { AllFit text.now tokens.now }
    ensures { Gives (spec.sentence most (lexemes text.now tokens.now)) result }
{
    let found = with_kinds(alloc, text, tokens)?;
    sentence(alloc, text, found.as_slice())
}

/// Where the token begins from which on so many are left, or the end of the text.
#[tactic(auto, using(crate::proofs::Exactness::place_at, crate::proofs::Exactness::place_end))]
fn place(text: &str, tokens: &[Token], left: usize) -> u32
    requires { length text.now < 2 ^ 32 }
    ensures { result ≡ place (length text.now) tokens.now (length tokens.now - left) }
{
    let at = tokens.len().saturating_sub(left);
    if at < tokens.len() {
        tokens[at].from
    } else {
        text.len() as u32
    }
}

/// The answer to a reading.
fn answer(text: &str, tokens: &[Token], read: Result<Stmt, Fault>) -> Result<Stmt, Refusal>
    requires { length text.now < 2 ^ 32 }
    ensures { result ≡ spec.answer text.now tokens.now read }
{
    match read {
        Ok(tree) => Ok(tree),
        Err(Fault::Memory) => Err(Refusal::Memory),
        Err(Fault::Syntax(left)) => Err(Refusal::Syntax {
            at: place(text, tokens, left),
        }),
        Err(Fault::TooDeep) => Err(Refusal::TooMany { limit: MOST as u32 }),
    }
}

/// The one tree that the tokens spell, by the grammar of docs/LANGUAGE.md. The tokens are those that the lexer found
/// in the text, which has fewer than 2^32 bytes.
///
/// Answers `Refusal::Syntax` with the offset of the first token at which no sentence goes on, or with the length of
/// the text where all the tokens begin one; `Refusal::TooMany` with the limit 64 where, before that, a token goes more
/// than 64 levels deep; `Refusal::Memory`. No other refusal comes.
pub fn parse(alloc: Global, text: &str, tokens: &[Token]) -> Result<Stmt, Refusal>
    requires short { length text.now < 2 ^ 32 }
    requires fit { AllFit text.now tokens.now }
    ensures { Parsed text.now tokens.now result }
{
    let read = reading(alloc, text, tokens);
    answer(text, tokens, read)
}
