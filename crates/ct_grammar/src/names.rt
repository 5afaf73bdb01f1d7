//! The name of a table, among tokens and as a text of its own.

ghost use Rattle.std.specs.Prelude.{◌≡◌, [], ◌∷◌, IfOk};
ghost use Rattle.ct_lexer.specs.Spans.{AllFit};
ghost use Rattle.ct_grammar.specs.Told.{AllCut, told};
ghost use Rattle.ct_grammar.specs.Lexemes.{lexemes};
ghost use Rattle.ct_grammar.specs.Reading.{Reads, option, whole};
ghost use Rattle.ct_grammar.specs.ReadNames as spec;
ghost use Rattle.ct_grammar.specs.TableTexts.{Tells};
ghost use Rattle.ct_grammar.specs.declared.kind.Kind.TheVariants as k;

use crate::{Cursor, Fault, Kind, Kinded, with_kinds};
use ct_lexer::{LexError, Token, tokens};
use ct_types::{Memory, ObjectName, Text};
use std::alloc::Global;

#[tactic(auto, unfolding(crate::specs::ReadNames::second_part))]
fn second_part(alloc: Global, tokens: &mut Cursor<'_>) -> Result<Text, Fault>
    ensures { Reads (spec.second_part tokens.old) result tokens.new }
{
    tokens.skip(Kind::Dot)?;
    tokens.name(alloc)
}

/// The second part of a name, where a full stop is next.
pub fn maybe_second(alloc: Global, tokens: &mut Cursor<'_>) -> Result<Option<Text>, Fault>
    ensures { Reads (option (k.Dot ∷ []) spec.second_part tokens.old) result tokens.new }
{
    if tokens.sees(&[Kind::Dot]) {
        Ok(Some(second_part(alloc, tokens)?))
    } else {
        Ok(None)
    }
}

/// A table's name.
#[tactic(auto, unfolding(crate::specs::ReadNames::table_name))]
pub fn table_name(alloc: Global, tokens: &mut Cursor<'_>) -> Result<ObjectName, Fault>
    ensures { Reads (spec.table_name tokens.old) result tokens.new }
{
    let first = tokens.name(alloc)?;
    let second = maybe_second(alloc, tokens)?;
    Ok(ObjectName { first, second })
}

/// The name that these tokens are, where they are one and no more.
fn whole_name(alloc: Global, text: &str, tokens: &[Kinded]) -> Result<Option<ObjectName>, Memory>
    requires { AllCut text.now tokens.now }
    ensures { IfOk result (λ name. name ≡ whole (spec.table_name (told text.now tokens.now))) }
{
    let mut cursor = Cursor::new(text, tokens);
    match table_name(alloc, &mut cursor) {
        Ok(name) if cursor.left() == 0 => Ok(Some(name)),
        Ok(_) | Err(Fault::Syntax(_) | Fault::TooDeep) => Ok(None),
        Err(Fault::Memory) => Err(Memory),
    }
}

/// The same, where their kinds are not told yet.
fn spelled_name(alloc: Global, text: &str, tokens: &[Token]) -> Result<Option<ObjectName>, Memory>
    requires { AllFit text.now tokens.now }
    ensures { IfOk result (λ name. name ≡ whole (spec.table_name (lexemes text.now tokens.now))) }
{
    let found = with_kinds(alloc, text, tokens)?;
    whole_name(alloc, text, found.as_slice())
}

/// The name of a table that a text is: its tokens are one name, or two with a full stop between them. None where the text
/// is no such name, as one of 2^32 bytes or more. `Memory` is the only error. The rule is this project's own; T-SQL has
/// names of up to four parts.
pub fn text_name(alloc: Global, text: &str) -> Result<Option<ObjectName>, Memory>
    ensures { IfOk result (Tells text.now) }
{
    if text.len() > u32::MAX as usize {
        return Ok(None);
    }
    match tokens(alloc, text) {
        Ok(found) => spelled_name(alloc, text, found.as_slice()),
        Err(LexError::Syntax(_)) => Ok(None),
        Err(LexError::Memory) => Err(Memory),
    }
}
