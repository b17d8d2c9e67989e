// Laws of the definitions that contracts cite. Each function does nothing: its contract is the law.
ghost use Rattle.std.specs.Prelude.{◌≡◌, ◌≤◌, ◌+◌, List, ℕ, length};
ghost use Rattle.text_core.specs.declared.place.Place.{Place as Where};
ghost use Rattle.razor_token.specs.Answers.{IsPlaceIn};
ghost use Rattle.razor_token.specs.declared.piece.Piece.{Piece as Part};
ghost use Rattle.razor_ast.specs.declared.node.TNode.{TNode as Node};
ghost use Rattle.razor_ast.specs.Nodes.{Item};
ghost use Rattle.razor_ast.specs.declared.component.Component.{Component as Tree};
ghost use Rattle.razor_ast.specs.Components.{SpellsFile};
ghost use Rattle.razor_ast.specs.FileTexts.{text_read};
ghost use Rattle.razor_reader.specs.Answers.{IsFlat};

/// A file that nests nowhere too deeply spells at most one component.
pub fn a_file_spells_one_component()
    ensures { (name : List ℕ) (text : List ℕ) (a : Tree) (b : Tree) → IsFlat (text_read text) → SpellsFile name text a → SpellsFile name text b → a ≡ b }
{}

/// A part of content takes no more numbers than it has pieces.
pub fn numbers_rise_no_faster_than_pieces()
    ensures { (around : Part → List ℕ) (n : ℕ) (ps : List Part) (rest : List Part) (m : ℕ) (node : Node) → Item around n ps rest m node → m + length rest ≤ n + length ps }
{}

/// The line and the column of a place in a text are together at most two more than the text has characters.
pub fn places_are_no_further_than_the_text_is_long()
    ensures { (text : List ℕ) (place : Where) → IsPlaceIn text place → place.line + place.column ≤ length text + 2 }
{}
