ghost use Rattle.std.specs.Prelude.{◌≡◌, ℕ, List, Option};
ghost use Rattle.ct_types.specs.declared.expr.ObjectName.{ObjectName};
ghost use Rattle.ct_grammar.specs.TableTexts.{Tells};

/// The law that each text is one name of a table, or none. Calling it does nothing.
pub fn one_name()
    ensures some { (text : List ℕ) → (name : Option ObjectName) × Tells text name }
    ensures one { (text : List ℕ) (name other : Option ObjectName) →
        Tells text name → Tells text other → name ≡ other }
{}
