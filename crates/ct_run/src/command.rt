ghost use Rattle.std.specs.Prelude.{◌<◌, ◌^◌, ℕ, List as Listed, Err, IfOk, length};
ghost use Rattle.std.specs.Str.{IsUtf8};
ghost use Rattle.ct_run.specs.Schedule.{IsAnswered, Means};

use ct_lexer::{LexError, tokens};
use ct_parser::parse;
use ct_types::{Command, Memory, Refusal, Text};
use std::alloc::Global;

/// The command of a text that the parser refuses. Want of memory is none.
#[tactic(auto, using(crate::proofs::Commands::means_refused))]
fn refused(refusal: Refusal) -> Result<Command, Memory>
    ensures { (text : Listed ℕ) → IsAnswered text (Err refusal) → IfOk result (Means text) }
{
    match refusal {
        Refusal::Memory => Err(Memory),
        refusal => Ok(Command::Wrong(refusal)),
    }
}

/// The command that a statement's text is: its tree, or the refusal of a text that is no sentence. The text is one of
/// code points.
pub(crate) fn command_of(alloc: Global, text: &Text) -> Result<Command, Memory>
    requires { length text.now < 2 ^ 32 }
    ensures means { IfOk result (Means text.now) }
    ensures utf8 { IsUtf8 text.now }
{
    match tokens(alloc, text.as_str()) {
        Err(LexError::Memory) => Err(Memory),
        Err(LexError::Syntax(at)) => Ok(Command::Wrong(Refusal::Syntax { at })),
        Ok(found) => match parse(alloc, text.as_str(), found.as_slice()) {
            Ok(tree) => Ok(Command::Sql(tree)),
            Err(refusal) => refused(refusal),
        },
    }
}
