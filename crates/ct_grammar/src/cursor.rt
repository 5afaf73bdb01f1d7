ghost use Rattle.std.specs.Prelude.{◌≡◌, ◌∷◌, [], ◌<◌, length, Err, Ok};
ghost use Rattle.ct_grammar.specs.Kinds as kinds;
ghost use Rattle.ct_grammar.specs.Told.{AllCut, told};
ghost use Rattle.ct_grammar.specs.Lexemes as spec;
ghost use Rattle.ct_grammar.specs.Reading as reading;
ghost use Rattle.ct_grammar.specs.Reading.{Reads};
ghost use Rattle.ct_grammar.specs.declared.fault.Fault.TheVariants.{Syntax};

use crate::kinded::word_of;
use crate::words::{bytes_in, name_in, text_in};
use crate::{Fault, Kind, Kinded};
use ct_types::{Bin, Text};
use std::alloc::Global;
use std::marker::Model;

/// What a rule takes where it asks for a name: any word that is not reserved, and any name in brackets.
pub const NAMES: &[Kind] = &[
    Kind::Unlisted,
    Kind::Bracketed,
    Kind::AllowSnapshotIsolation,
    Kind::Apply,
    Kind::AutoCleanup,
    Kind::BigInt,
    Kind::Changes,
    Kind::ChangeTable,
    Kind::ChangeRetention,
    Kind::ChangeTracking,
    Kind::ChangeTrackingContext,
    Kind::Committed,
    Kind::Days,
    Kind::Disable,
    Kind::Enable,
    Kind::Hours,
    Kind::Int,
    Kind::Isolation,
    Kind::Level,
    Kind::LockTimeout,
    Kind::Minutes,
    Kind::NVarChar,
    Kind::Off,
    Kind::Read,
    Kind::ReadCommittedSnapshot,
    Kind::Snapshot,
    Kind::TrackColumnsUpdated,
    Kind::VarBinary,
    Kind::Version,
    Kind::CurrentVersion,
    Kind::MinValidVersion,
    Kind::IsColumnInMask,
    Kind::ObjectId,
    Kind::ColumnProperty,
    Kind::IsNull,
];

/// What a rule takes where it asks for a number.
pub const NUMBERS: &[Kind] = &[Kind::Number, Kind::Zero];

/// The tokens of a text that are not read yet.
#[derive(Drop)]
pub struct Cursor<'a> {
    text: &'a str,
    tokens: &'a [Kinded],
}

impl<'a> Model for Cursor<'a> {
    ghost use Rattle.std.specs.Prelude.{List};
    ghost use Rattle.ct_grammar.specs.Lexemes.{Lexeme};
    ghost use Rattle.ct_grammar.specs.Viewed.{left_of, IsWithin};

    ghost Value = { List Lexeme };

    ghost view = { left_of };

    ghost invariant = { IsWithin };
}

/// Whether the kind is one of the set.
pub fn has(set: &[Kind], kind: Kind) -> bool
    ensures { result ≡ kinds.has set.now kind }
{
    for x in set {
        if same(*x, kind) {
            return true;
        }
    }
    false
}

#[tactic(auto, unfolding(crate::specs::Kinds::same))]
fn same(a: Kind, b: Kind) -> bool
    ensures { result ≡ kinds.same a b }
{
    a == b
}

impl<'a> Cursor<'a> {
    /// Begins at the first of the tokens.
    pub fn new(text: &'a str, tokens: &'a [Kinded]) -> Cursor<'a>
        requires { AllCut text.now tokens.now }
        ensures { result ≡ told text.now tokens.now }
    {
        Cursor { text, tokens }
    }

    /// How many tokens are left.
    #[tactic(auto, using(crate::proofs::Told::length_told))]
    pub fn left(&self) -> usize
        ensures { result ≡ length self.now }
    {
        self.tokens.len()
    }

    /// The fault at the next token, or at the end.
    #[tactic(auto, using(crate::proofs::Told::length_told))]
    pub fn refuse(&self) -> Fault
        ensures { result ≡ Syntax (length self.now) }
    {
        Fault::Syntax(self.tokens.len())
    }

    /// Whether the next token is of this set.
    #[tactic(auto, unfolding(crate::specs::Lexemes::sees))]
    pub fn sees(&self, set: &[Kind]) -> bool
        ensures { result ≡ spec.sees set.now self.now }
    {
        match self.tokens {
            [] => false,
            [first, ..] => has(set, first.kind),
        }
    }

    /// Whether the next two are of these sets.
    #[tactic(auto, unfolding(crate::specs::Lexemes::matches))]
    pub fn sees_two(&self, one: &[Kind], two: &[Kind]) -> bool
        ensures { result ≡ spec.matches (one.now ∷ two.now ∷ []) self.now }
    {
        match self.tokens {
            [] => false,
            [_] => false,
            [a, b, ..] => has(one, a.kind) && has(two, b.kind),
        }
    }

    /// Whether the next three are of these sets.
    #[tactic(auto, unfolding(crate::specs::Lexemes::matches))]
    pub fn sees_three(&self, one: &[Kind], two: &[Kind], three: &[Kind]) -> bool
        ensures { result ≡ spec.matches (one.now ∷ two.now ∷ three.now ∷ []) self.now }
    {
        match self.tokens {
            [] => false,
            [_] => false,
            [_, _] => false,
            [a, b, c, ..] => has(one, a.kind) && has(two, b.kind) && has(three, c.kind),
        }
    }

    /// Takes the next token, which has to be of this kind.
    #[tactic(auto, unfolding(crate::specs::Lexemes::sees, crate::specs::Reading::expect))]
    pub fn skip(&mut self, kind: Kind) -> Result<(), Fault>
        ensures { Reads (reading.need kind self.old) result self.new }
    {
        match self.tokens {
            [first, rest @ ..] if has(&[kind], first.kind) => {
                self.tokens = rest;
                Ok(())
            }
            _ => Err(self.refuse()),
        }
    }

    /// Takes the next token, which has to be of this set, and answers its kind.
    #[tactic(auto, unfolding(crate::specs::Lexemes::sees, crate::specs::Reading::expect))]
    pub fn kind(&mut self, set: &[Kind]) -> Result<Kind, Fault>
        ensures { Reads (reading.kind set.now self.old) result self.new }
    {
        match self.tokens {
            [first, rest @ ..] if has(set, first.kind) => {
                let kind = first.kind;
                self.tokens = rest;
                Ok(kind)
            }
            _ => Err(self.refuse()),
        }
    }

    /// Takes the next token, if it is of this kind. Nothing can fail here, so a tree that is held need not be dropped.
    #[tactic(auto, unfolding(crate::specs::Lexemes::sees, crate::specs::Reading::expect))]
    pub fn eat(&mut self, kind: Kind) -> Option<()>
        ensures { reading.option (kind ∷ []) (reading.need kind) self.old ≡ Ok (result, self.new) }
    {
        match self.tokens {
            [first, rest @ ..] if has(&[kind], first.kind) => {
                self.tokens = rest;
                Some(())
            }
            _ => None,
        }
    }

    /// Takes the next token, if it is of this kind.
    pub fn skip_if(&mut self, kind: Kind) -> Result<Option<()>, Fault>
        ensures { Reads (reading.option (kind ∷ []) (reading.need kind) self.old) result self.new }
    {
        if self.sees(&[kind]) {
            Ok(Some(self.skip(kind)?))
        } else {
            Ok(None)
        }
    }

    /// Takes a name, without its brackets.
    #[tactic(auto, unfolding(crate::specs::Lexemes::sees, crate::specs::Reading::expect))]
    pub fn name(&mut self, alloc: Global) -> Result<Text, Fault>
        ensures { Reads (reading.name self.old) result self.new }
    {
        match self.tokens {
            [first, rest @ ..] if has(NAMES, first.kind) => {
                let word = word_of(self.text, first.token);
                let value = Text::of(alloc, name_in(first.kind, word))?;
                self.tokens = rest;
                Ok(value)
            }
            _ => Err(self.refuse()),
        }
    }

    /// Takes a number: its digits.
    #[tactic(auto, unfolding(crate::specs::Lexemes::sees, crate::specs::Reading::expect))]
    pub fn number(&mut self, alloc: Global) -> Result<Text, Fault>
        ensures { Reads (reading.number self.old) result self.new }
    {
        match self.tokens {
            [first, rest @ ..] if has(NUMBERS, first.kind) => {
                let word = word_of(self.text, first.token);
                let value = Text::of(alloc, word)?;
                self.tokens = rest;
                Ok(value)
            }
            _ => Err(self.refuse()),
        }
    }

    /// Takes a variable's name, with its `@`.
    #[tactic(auto, unfolding(crate::specs::Lexemes::sees, crate::specs::Reading::expect))]
    pub fn variable(&mut self, alloc: Global) -> Result<Text, Fault>
        ensures { Reads (reading.variable self.old) result self.new }
    {
        match self.tokens {
            [first, rest @ ..] if has(&[Kind::Variable], first.kind) => {
                let word = word_of(self.text, first.token);
                let value = Text::of(alloc, word)?;
                self.tokens = rest;
                Ok(value)
            }
            _ => Err(self.refuse()),
        }
    }

    /// Takes a text literal: the characters that it stands for.
    #[tactic(auto, unfolding(crate::specs::Lexemes::sees, crate::specs::Reading::expect))]
    pub fn text(&mut self, alloc: Global) -> Result<Text, Fault>
        ensures { Reads (reading.text self.old) result self.new }
    {
        match self.tokens {
            [first, rest @ ..] if has(&[Kind::Text], first.kind) => {
                let word = word_of(self.text, first.token);
                let value = text_in(alloc, word)?;
                self.tokens = rest;
                Ok(value)
            }
            _ => Err(self.refuse()),
        }
    }

    /// Takes a literal of bytes.
    #[tactic(auto, unfolding(crate::specs::Lexemes::sees, crate::specs::Reading::expect))]
    pub fn bytes(&mut self, alloc: Global) -> Result<Bin, Fault>
        ensures { Reads (reading.bytes self.old) result self.new }
    {
        match self.tokens {
            [first, rest @ ..] if has(&[Kind::Bytes], first.kind) => {
                let word = word_of(self.text, first.token);
                let value = bytes_in(alloc, word)?;
                self.tokens = rest;
                Ok(value)
            }
            _ => Err(self.refuse()),
        }
    }
}
