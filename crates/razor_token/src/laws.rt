// Laws of the definitions that contracts cite. Each function does nothing: its contract is the law.
ghost use Rattle.std.specs.Prelude.{◌≡◌, List, ℕ};
ghost use Rattle.razor_token.specs.declared.piece.Piece.{Piece};
ghost use Rattle.razor_token.specs.Cutting.{Cuts};

/// A text is cut in at most one way.
pub fn a_text_is_cut_in_one_way()
    ensures { (text : List ℕ) (a : List Piece) (b : List Piece) → Cuts text a → Cuts text b → a ≡ b }
{}
