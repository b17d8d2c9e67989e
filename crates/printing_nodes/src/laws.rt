// Laws of printed nodes. Each function does nothing: its contract is the law.
ghost use Rattle.std.specs.Prelude.{ℕ, Bool, false, List, map, ◌++◌};
ghost use Rattle.cs_grammar.specs.Statements.{Jumps};
ghost use Rattle.printed_pieces.specs.Meant.{Mean};
ghost use Rattle.printed_pieces.specs.PrintableNodes.{ContentPrints, IsPrintable, LinesPrint};
ghost use Rattle.printing_nodes.specs.Answers.{ContentAgain, LinesAgain, SpellsAgain, Stops};
ghost use Rattle.razor_ast.specs.Components.{Spells};
ghost use Rattle.razor_ast.specs.Nodes.{Content, Lines};
ghost use Rattle.razor_ast.specs.declared.component.Component.{Component as Tree};
ghost use Rattle.razor_ast.specs.declared.node.TNode.{TNode as Node};
ghost use Rattle.razor_print.specs.Components.{component_text};
ghost use Rattle.razor_print.specs.Nodes.{content, lines, node as printed_node};
ghost use Rattle.razor_print.specs.Parts.{Parts as PrintedParts};
ghost use Rattle.razor_token.specs.declared.piece.Piece.{Piece as Part};

/// The pieces that printed content is meant to be spell equal content, where no literal text stands behind it.
pub fn printed_content_is_spelled_again()
    ensures { (source : Part → List ℕ) (around : Part → List ℕ) → (edge : Bool) (n : ℕ) (m : ℕ) (ps : List Part) (rest : List Part) (nodes : List Node)
        → Content source edge n ps rest m nodes → ContentPrints false nodes → (later : PrintedParts) (pieces : List Part) → Stops later
        → Mean (content (map printed_node nodes) ++ later) pieces → ContentAgain around edge n m nodes later pieces }
{}

/// The same of code with markup, before anything.
pub fn printed_code_is_spelled_again()
    ensures { (source : Part → List ℕ) (around : Part → List ℕ) → (jumps : Jumps) (n : ℕ) (m : ℕ) (ps : List Part) (rest : List Part) (items : List Node)
        → Lines source jumps n ps rest m items → LinesPrint items → (later : PrintedParts) (pieces : List Part)
        → Mean (lines (map printed_node items) ++ later) pieces → LinesAgain around jumps n m items later pieces }
{}

/// The printed text of a printable component that some text spells, spells an equal one, places apart.
pub fn a_printed_component_is_spelled_again()
    ensures { (component : Tree) → IsPrintable component → (text : List ℕ) → Spells text component
        → SpellsAgain (component_text component) component }
{}
