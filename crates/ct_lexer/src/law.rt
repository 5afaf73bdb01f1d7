ghost use Rattle.std.specs.Prelude.{◌≡◌, ℕ, List};
ghost use Rattle.ct_lexer.specs.declared.token.Token.{Token};
ghost use Rattle.ct_lexer.specs.Cutting.{IsCut, IsStuck, IsCutOrStuck};

/// The law that each text is cut in one way, or stuck at one place: it has tokens or a fault, no other tokens fit it, a text
/// with tokens has no fault, and a text with a fault has no other. Calling it does nothing.
pub fn one_cutting()
    ensures some { (text : List ℕ) → IsCutOrStuck text }
    ensures tokens { (text : List ℕ) (tokens others : List Token) →
        IsCut text tokens → IsCut text others → tokens ≡ others }
    ensures apart { (text : List ℕ) (tokens : List Token) (at : ℕ) →
        IsCut text tokens → IsStuck text at → ⊥ }
    ensures place { (text : List ℕ) (at other : ℕ) →
        IsStuck text at → IsStuck text other → at ≡ other }
{}
