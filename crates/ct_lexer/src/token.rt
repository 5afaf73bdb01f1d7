ghost use Rattle.std.specs.Prelude.{◌≡◌};

use ct_types::Memory;
use std::alloc::AllocError;

/// The kinds of tokens.
#[derive(Clone, Copy, Debug, PartialEq, Eq)]
pub enum TokenKind {
    /// A bare name: a letter or `_`, then letters, digits and `_`, of at most 128 bytes. Words of the grammar are names.
    Name,
    /// A name in brackets, `[..]`: one to 128 bytes from space to `~` other than `]`.
    Bracketed,
    /// `@` and a bare name.
    Variable,
    /// Digits.
    Number,
    /// `'..'`, `N'..'` or `n'..'`, with each quote inside written twice.
    Text,
    /// `0x` or `0X` and an even number of hexadecimal digits, possibly none.
    Bytes,
    /// One of `( ) , . ; = <> != < <= > >= + - *`.
    Sign,
}

/// A token, and where it stands in its text: the bytes from `from` up to `to`.
#[derive(Clone, Copy, Debug, PartialEq, Eq)]
pub struct Token {
    pub kind: TokenKind,
    /// The offset of its first byte.
    pub from: u32,
    /// The offset behind its last byte.
    pub to: u32,
}

/// Why a text has no tokens.
#[derive(Clone, Copy, Debug, PartialEq, Eq)]
pub enum LexError {
    /// At this offset no token begins, and nothing that separates tokens. It is the first such place.
    Syntax(u32),
    /// Want of memory, at any point.
    Memory,
}

impl From<AllocError> for LexError {
    ghost use Rattle.std.specs.Prelude.{◌≡◌};
    ghost use Rattle.ct_lexer.specs.declared.token.LexError.TheVariants as errors;

    ghost from_gives = { λ _ error. error ≡ errors.Memory };

    fn from(_: AllocError) -> LexError {
        LexError::Memory
    }
}

impl From<(Token, Memory)> for LexError {
    ghost use Rattle.std.specs.Prelude.{◌≡◌};
    ghost use Rattle.ct_lexer.specs.declared.token.LexError.TheVariants as errors;

    ghost from_gives = { λ _ error. error ≡ errors.Memory };

    fn from(_: (Token, Memory)) -> LexError {
        LexError::Memory
    }
}
