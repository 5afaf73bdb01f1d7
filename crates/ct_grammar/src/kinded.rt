ghost use Rattle.std.specs.Prelude.{◌≡◌, IfOk, slice_range};
ghost use Rattle.ct_lexer.specs.Spans.{AllFit, Fits};
ghost use Rattle.ct_grammar.specs.Told.{AreKinded, with_kind};
ghost use Rattle.ct_grammar.specs.Lexemes.{Ends};

use crate::Kind;
use crate::kind::kind_of;
use ct_lexer::Token;
use ct_types::Memory;
use std::alloc::Global;

/// A token, and what it is to the rules.
#[derive(Clone, Copy, Debug, PartialEq, Eq)]
pub struct Kinded {
    pub kind: Kind,
    pub token: Token,
}

/// The text of a token.
pub(crate) fn word_of(text: &str, token: Token) -> &str
    requires { Fits text.now token }
    ensures value { result.now ≡ slice_range text.now token.from token.to }
    ensures ends { Ends result.now }
{
    &text[token.from as usize..token.to as usize]
}

fn with_kind(text: &str, token: Token) -> Kinded
    requires { Fits text.now token }
    ensures { result ≡ with_kind text.now token }
{
    Kinded {
        kind: kind_of(token.kind, word_of(text, token)),
        token,
    }
}

/// The tokens of a text, each with its kind, which is looked up here and nowhere else.
pub fn with_kinds(alloc: Global, text: &str, tokens: &[Token]) -> Result<Vec<Kinded>, Memory>
    requires { AllFit text.now tokens.now }
    ensures { IfOk result (λ made. AreKinded text.now tokens.now made.items) }
{
    let mut made = Vec::with_capacity(alloc, tokens.len())?;
    for token in tokens {
        made.push(with_kind(text, *token))?;
    }
    Ok(made)
}
