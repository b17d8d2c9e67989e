// Laws of the definitions that contracts cite.
ghost use Rattle.std.specs.Prelude.{◌≡◌, List, ℕ};
ghost use Rattle.hub_messages.specs.declared.up.Up.{Up};
ghost use Rattle.hub_messages.specs.declared.down.Down.{Down};
ghost use Rattle.hub_messages.specs.Spelling.Spells.{SpellsUp, SpellsDown};

/// Bytes spell at most one message. The function does nothing: its contract is the law.
pub fn bytes_spell_one_message()
    ensures up { (bytes : List ℕ) (a : Up) (b : Up) → SpellsUp bytes a → SpellsUp bytes b → a ≡ b }
    ensures down { (bytes : List ℕ) (a : Down) (b : Down) → SpellsDown bytes a → SpellsDown bytes b → a ≡ b }
{}
