// Laws of the definitions that contracts cite. Each function does nothing: its contract is the law.
ghost use Rattle.std.specs.Prelude.{◌≡◌, ◌⊎◌, List, ℕ};
ghost use Rattle.text_core.specs.declared.place.Place.{Place};
ghost use Rattle.cs_token.specs.declared.fault.Cause.{Cause};
ghost use Rattle.cs_token.specs.declared.token.Token.{Token};
ghost use Rattle.cs_token.specs.Spelling.{Spells, GoesWrong};

/// A text spells at most one list of tokens, spans and places included.
pub fn a_text_spells_one_token_list()
    ensures { (text : List ℕ) (a : List Token) (b : List Token) → Spells text a → Spells text b → a ≡ b }
{}

/// A text that goes wrong spells no tokens.
pub fn a_text_that_goes_wrong_spells_nothing()
    ensures { (text : List ℕ) (cause : Cause) (place : Place) (tokens : List Token)
        → GoesWrong text cause place → Spells text tokens → ⊥ }
{}

/// A text goes wrong at one place at most, for one cause.
pub fn a_text_goes_wrong_in_one_way()
    ensures { (text : List ℕ) (a : Cause) (b : Cause) (p : Place) (q : Place)
        → GoesWrong text a p → GoesWrong text b q → (a ≡ b) × (p ≡ q) }
{}

/// Each text spells tokens or goes wrong.
pub fn a_text_spells_tokens_or_goes_wrong()
    ensures { (text : List ℕ) → ((tokens : List Token) × Spells text tokens)
        ⊎ ((cause : Cause) × ((place : Place) × GoesWrong text cause place)) }
{}
