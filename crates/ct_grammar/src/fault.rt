use ct_types::Memory;
use std::alloc::AllocError;

/// Why tokens are not read.
#[derive(Clone, Copy, Debug, PartialEq, Eq)]
pub enum Fault {
    /// Want of memory.
    Memory,
    /// No sentence goes on, with so many tokens left.
    Syntax(usize),
    /// The next token goes deeper than is allowed.
    TooDeep,
}

impl From<AllocError> for Fault {
    ghost use Rattle.std.specs.Prelude.{◌≡◌};
    ghost use Rattle.ct_grammar.specs.declared.fault.Fault.TheVariants.{Memory as out_of_memory};

    ghost from_gives = { λ _ fault. fault ≡ out_of_memory };

    fn from(_: AllocError) -> Fault {
        Fault::Memory
    }
}

impl From<Memory> for Fault {
    ghost use Rattle.std.specs.Prelude.{◌≡◌};
    ghost use Rattle.ct_grammar.specs.declared.fault.Fault.TheVariants.{Memory as out_of_memory};

    ghost from_gives = { λ _ fault. fault ≡ out_of_memory };

    fn from(_: Memory) -> Fault {
        Fault::Memory
    }
}

impl<T: Drop> From<(T, Memory)> for Fault {
    ghost use Rattle.std.specs.Prelude.{◌≡◌};
    ghost use Rattle.ct_grammar.specs.declared.fault.Fault.TheVariants.{Memory as out_of_memory};

    ghost from_gives = { λ _ fault. fault ≡ out_of_memory };

    fn from(_: (T, Memory)) -> Fault {
        Fault::Memory
    }
}
