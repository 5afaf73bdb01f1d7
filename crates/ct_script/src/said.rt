ghost use Rattle.std.specs.Prelude.{◌≡◌, ◌∷◌, ◌++◌, length, IfOk, OnOk};

use ct_types::{Memory, Text};
use std::alloc::Global;
use std::marker::Model;

/// A statement: its session and its text.
#[derive(Drop)]
pub(crate) struct Said {
    session: u8,
    text: String,
}

impl Model for Said {
    ghost use Rattle.std.specs.Prelude.{string_bytes};
    ghost use Rattle.ct_script.specs.Statements.{Statement};

    ghost Value = { Statement };

    ghost view = { λ said. record { session = said.session; text = string_bytes said.text } };
}

impl Said {
    /// A statement of a session, with a copy of its text.
    pub(crate) fn new(alloc: Global, session: u8, text: &str) -> Result<Said, Memory>
        ensures { IfOk result (λ said. said ≡ record { session = session; text = text.now }) }
    {
        Ok(Said {
            session,
            text: String::from_str(alloc, text)?,
        })
    }

    /// The session.
    pub(crate) fn session(&self) -> u8
        ensures { result ≡ self.now.session }
    {
        self.session
    }

    /// How many bytes the text has.
    pub(crate) fn text_len(&self) -> usize
        ensures { result ≡ length self.now.text }
    {
        self.text.len()
    }

    /// Adds an LF and a line to the text. After want of memory the text may have the LF alone.
    pub(crate) fn push_line(&mut self, line: &str) -> Result<(), Memory>
        ensures { OnOk result (self.new ≡ record self.old { text = self.old.text ++ 10 ∷ line.now }) }
    {
        self.text.push_str("\n")?;
        self.text.push_str(line)?;
        Ok(())
    }

    /// The text, with no copy.
    pub(crate) fn into_text(self) -> Text
        ensures { result ≡ self.text }
    {
        let Said { text, .. } = self;
        Text::from_string(text)
    }
}
