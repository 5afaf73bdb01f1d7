ghost use Rattle.std.specs.Prelude.{◌≡◌, ◌∷◌, [], ◌++◌, length, IfOk, None, Ok, List as Listed, MatchResult};
ghost use Rattle.std.specs.List.{last_or};
ghost use Rattle.ct_script.specs.Statements.{Statement};
ghost use Rattle.std.specs.Str.{IsUtf8};
ghost use Rattle.ct_script.specs.Reading.{Progress, Steps, start, step, stepped, with_text, with_more};

use crate::forms::{form_of, head_text};
use crate::kind::Kind;
use crate::said::Said;
use ct_types::{List, Memory};
use std::alloc::Global;
use std::marker::Model;
use std::mem;

/// The most bytes of a statement's text.
const MOST_TEXT: usize = 65_536;

/// Why a line was not taken.
#[derive(Clone, Copy, Debug, PartialEq, Eq)]
pub enum LineFault {
    /// It breaks this rule, and no lesser one.
    Broken(u8),
    /// Out of memory.
    Memory,
}

impl From<Memory> for LineFault {
    ghost use Rattle.std.specs.Prelude.{◌≡◌};
    ghost use Rattle.ct_script.specs.declared.reading.LineFault.TheVariants.{Memory as OutOfMemory};

    ghost from_gives = { λ _ e. e ≡ OutOfMemory };

    fn from(_: Memory) -> LineFault {
        LineFault::Memory
    }
}

/// What was read of a script so far: the phases that have ended, and the statements of the one that runs.
#[derive(Drop)]
pub(crate) struct Reading {
    ended: List<List<Said>>,
    running: Vec<Said>,
}

impl Model for Reading {
    ghost use Rattle.ct_script.specs.Statements.{Statement};
    ghost use Rattle.ct_script.specs.Reading.{Progress};

    ghost Value = { Progress };

    ghost view = { λ reading. record { ended = reading.ended; running = reading.running.items } };
}

/// Adds a statement at the end.
fn push_back(running: &mut Vec<Said>, said: Said) -> Result<(), LineFault>
    ensures { MatchResult result (λ _. running.new.items ≡ running.old.items ++ said ∷ []) (λ e. e ≡ LineFault.Memory) }
{
    match running.push(said) {
        Ok(()) => Ok(()),
        Err(_) => Err(LineFault::Memory),
    }
}

/// Adds a statement of a session with its text.
fn push_said(
    alloc: Global,
    running: &mut Vec<Said>,
    session: u8,
    text: &str,
) -> Result<(), LineFault>
    ensures { (ended : Listed (Listed Statement)) →
        Steps result (record { ended = ended; running = running.new.items })
        (with_text session text.now (record { ended = ended; running = running.old.items })) }
{
    if text.len() > MOST_TEXT {
        return Err(LineFault::Broken(9));
    }
    push_back(running, Said::new(alloc, session, text)?)
}

/// Adds a line to the last statement.
fn push_more(running: &mut Vec<Said>, line: &str) -> Result<(), LineFault>
    ensures { (ended : Listed (Listed Statement)) →
        Steps result (record { ended = ended; running = running.new.items })
        (with_more line.now (record { ended = ended; running = running.old.items }) (last_or None running.old.items)) }
{
    let Some(mut last) = running.pop() else {
        return Err(LineFault::Broken(5));
    };
    if last.text_len() + 1 + line.len() > MOST_TEXT {
        return Err(LineFault::Broken(9));
    }
    last.push_line(line)?;
    push_back(running, last)
}

impl Reading {
    /// Nothing is read yet: the first phase has begun.
    pub(crate) fn new(alloc: Global) -> Reading
        ensures { result ≡ start }
    {
        Reading {
            ended: List::new(alloc),
            running: Vec::new(alloc),
        }
    }

    /// Ends the phase and begins another.
    fn end_phase(&mut self, alloc: Global) -> Result<(), LineFault>
        ensures { Steps result self.new
            (Ok (record { ended = self.old.ended ++ self.old.running ∷ []; running = [] })) }
    {
        let running = mem::replace(&mut self.running, Vec::new(alloc));
        match self.ended.push(List::from_vec(running)) {
            Ok(()) => Ok(()),
            Err(_) => Err(LineFault::Memory),
        }
    }

    /// Takes the next line. After an error the reading is of no use.
    #[tactic(auto, unfolding(crate::specs::Reading::step, crate::specs::Forms::kind_of))]
    pub(crate) fn take(&mut self, alloc: Global, line: &[u8]) -> Result<(), LineFault>
        ensures { Steps result self.new (step line.now self.old) }
    {
        let Ok(text) = str::from_utf8(line) else {
            return Err(LineFault::Broken(1));
        };
        match form_of(text) {
            Kind::Ignored => Ok(()),
            Kind::Mark => self.end_phase(alloc),
            Kind::Head(session) => push_said(alloc, &mut self.running, session, head_text(text)),
            Kind::More => push_more(&mut self.running, text),
            Kind::Fault(rule) => Err(LineFault::Broken(rule)),
        }
    }

    /// The phases, of which the last has ended too.
    pub(crate) fn finish(self) -> Result<List<List<Said>>, Memory>
        ensures { IfOk result (λ phases. phases ≡ self.ended ++ self.running ∷ []) }
    {
        let Reading { mut ended, running } = self;
        ended.push(List::from_vec(running))?;
        Ok(ended)
    }
}
