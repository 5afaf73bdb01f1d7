use crate::journal::add_block;
use ct_machine::wants_memory;
use ct_types::{Journaled, Memory};
use std::alloc::Global;
use std::marker::Model;

/// The transcript of a run while it grows, in UTF-8: the blocks of the entries in order, with places from 1 on, and the
/// line `#phase` between two phases. It keeps what is printed, and nothing of what was asked. That it is the text of the
/// run's journals is a law ([`crate::transcripts_grow`]).
///
/// The form is this project's own.
#[derive(Drop)]
pub struct Transcript {
    text: String,
    /// Where a block is printed before it is added.
    block: String,
    /// Whether a phase has begun.
    begun: bool,
    /// The place of the next block.
    next: u64,
    /// Whether a reply said that memory was wanting.
    wanted: bool,
}

impl Model for Transcript {
    ghost use Rattle.std.specs.Prelude.{string_bytes};
    ghost use Rattle.ct_print.specs.Growing.{Growing};

    ghost Value = { Growing };

    ghost view = { λ it. record { text = string_bytes it.text; begun = it.begun; next = it.next; wanted = it.wanted } };
}

impl Transcript {
    ghost use Rattle.std.specs.Prelude.{◌≡◌, OnErr, OnOk};
    ghost use Rattle.ct_print.specs.Growing.{nothing, with_block, with_phase};

    /// The transcript of nothing. It takes no memory.
    pub fn new(alloc: Global) -> Transcript
        ensures { result ≡ nothing }
    {
        Transcript {
            text: String::new(alloc),
            block: String::new(alloc),
            begun: false,
            next: 1,
            wanted: false,
        }
    }

    /// Begins a phase: with the line `#phase`, but for the first. Only memory may be wanting, which leaves the transcript as
    /// it was.
    pub fn phase(&mut self) -> Result<(), Memory>
        ensures ok { OnOk result (self.new ≡ with_phase self.old) }
        ensures err { OnErr result (self.new ≡ self.old) }
    {
        if self.begun {
            self.text.push_str("#phase\n")?;
        }
        self.begun = true;
        Ok(())
    }

    /// Adds the block of an entry. Only memory may be wanting, which leaves the transcript as it was; 2^64 blocks are more
    /// than any memory holds.
    pub fn block(&mut self, entry: &Journaled) -> Result<(), Memory>
        ensures ok { OnOk result (self.new ≡ with_block self.old entry.now) }
        ensures err { OnErr result (self.new ≡ self.old) }
    {
        let Some(next) = self.next.checked_add(1) else {
            return Err(Memory);
        };
        self.block.clear();
        add_block(&mut self.block, self.next, entry)?;
        self.text.push_str(self.block.as_str())?;
        self.next = next;
        self.wanted = self.wanted || wants_memory(&entry.reply);
        Ok(())
    }

    /// The text so far.
    pub fn as_bytes(&self) -> &[u8]
        ensures { result.now ≡ self.now.text }
    {
        self.text.as_bytes()
    }

    /// Whether a reply said that memory was wanting.
    pub fn wanted_memory(&self) -> bool
        ensures { result ≡ self.now.wanted }
    {
        self.wanted
    }
}
