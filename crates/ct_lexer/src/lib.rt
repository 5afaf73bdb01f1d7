//! Cuts the text of a statement into its tokens.
#![tactic(auto)]

mod byte;
mod law;
mod lexer;
mod scan;
mod token;

pub use byte::ByteClass;
pub use law::one_cutting;
pub use lexer::tokens;
pub use token::{LexError, Token, TokenKind};
