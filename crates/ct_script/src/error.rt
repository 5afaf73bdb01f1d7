use ct_types::Memory;

/// Why bytes gave no script.
#[derive(Clone, Copy, Debug, PartialEq, Eq)]
pub enum ScriptError {
    /// A line is at fault.
    BadScript {
        /// The first such line, counted from 1.
        line: u32,
        /// The least rule that it breaks: 1 to 6, or 9.
        rule: u8,
    },
    /// Out of memory.
    Memory,
}

impl From<Memory> for ScriptError {
    ghost use Rattle.std.specs.Prelude.{◌≡◌};
    ghost use Rattle.ct_script.specs.declared.error.ScriptError.TheVariants.{Memory as OutOfMemory};

    ghost from_gives = { λ _ e. e ≡ OutOfMemory };

    fn from(_: Memory) -> ScriptError {
        ScriptError::Memory
    }
}
