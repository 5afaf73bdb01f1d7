ghost use Rattle.std.specs.Prelude.{◌≡◌, ◌<◌, ◌^◌, [], length, IfOk, IfErr, All};
ghost use Rattle.ct_lexer.specs.Cutting.{IsCut, IsWrong};
ghost use Rattle.ct_lexer.specs.Spans.{AllFit, Rises, Stands};

use crate::scan::{gap_len, token_at};
use crate::{LexError, Token};
use ct_types::List;
use std::alloc::{AllocError, Global};

/// No token, with room for one in every two bytes, so that the list of most statements never grows.
fn with_room(alloc: Global, bytes: usize) -> Result<List<Token>, AllocError>
    ensures { IfOk result (λ made. made ≡ []) }
{
    Ok(List::from_vec(Vec::with_capacity(alloc, bytes / 2)?))
}

/// The tokens of a text, in order, without the blanks and comments between them. Spans are 32 bits wide, so the text is
/// shorter than 2^32 bytes.
///
/// The forms of tokens follow T-SQL's (its reference's pages on identifiers, constants, operators and comments), except
/// for their limits and for `/* .. */`, which no comment begins: these are this project's own.
///
/// # Errors
///
/// `Syntax` with the first place where neither a token nor something that separates tokens begins; `Memory` for want of
/// memory.
pub fn tokens(alloc: Global, text: &str) -> Result<List<Token>, LexError>
    requires { length text.now < 2 ^ 32 }
    ensures cut { IfOk result (IsCut text.now) }
    ensures wrong { IfErr result (IsWrong text.now) }

    // what a cut text says of the spans
    ensures words { IfOk result (All (Stands text.now)) }
    ensures rising { IfOk result (λ found. Rises 0 found (length text.now)) }
    ensures fitting { IfOk result (AllFit text.now) }
{
    let bytes = text.as_bytes();
    let mut found = with_room(alloc, bytes.len())?;
    let mut at = 0;
    while at < bytes.len() {
        let rest = &bytes[at..];
        if let Some(len) = gap_len(rest) {
            at += len;
        } else if let Some((kind, len)) = token_at(rest) {
            found.push(Token {
                kind,
                from: at as u32,
                to: (at + len) as u32,
            })?;
            at += len;
        } else {
            return Err(LexError::Syntax(at as u32));
        }
    }
    Ok(found)
}
