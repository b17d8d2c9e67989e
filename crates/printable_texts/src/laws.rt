// Laws of spelled components. Each function does nothing: its contract is the law.
ghost use Rattle.std.specs.Prelude.{ℕ, Bool, false, List};
ghost use Rattle.cs_grammar.specs.Statements.{Jumps};
ghost use Rattle.printable_texts.specs.Stands.{Stands, content, tag};
ghost use Rattle.printed_pieces.specs.Printable.{ArePrintable};
ghost use Rattle.printed_pieces.specs.PrintableNodes.{ContentPrints, IsPrintable, LinesPrint};
ghost use Rattle.razor_ast.specs.Attributes.{AttributesOf};
ghost use Rattle.razor_ast.specs.Components.{SpelledBy, Spells};
ghost use Rattle.razor_ast.specs.Nodes.{Content, Lines};
ghost use Rattle.razor_ast.specs.Pieces.{counted};
ghost use Rattle.razor_ast.specs.declared.attribute.Attribute.{Attribute as Given};
ghost use Rattle.razor_ast.specs.declared.component.Component.{Component as Tree};
ghost use Rattle.razor_ast.specs.declared.node.TNode.{TNode as Node};
ghost use Rattle.razor_token.specs.Cutting.{Cuts};
ghost use Rattle.razor_token.specs.declared.piece.Piece.{Piece as Part};

/// The attributes that pieces behind the name of a tag spell are printable, where each piece stands as it may.
pub fn spelled_attributes_are_printable()
    ensures { (around : Part → List ℕ) (component : Bool) (void : Bool) (n : ℕ) (m : ℕ) (ps : List Part) (rest : List Part) (all : List Given) → Stands (tag component void) ps
        → AttributesOf around component n ps rest m all → ArePrintable component all }
{}

/// The same of content.
pub fn spelled_content_is_printable()
    ensures { (around : Part → List ℕ) (edge : Bool) (n : ℕ) (m : ℕ) (ps : List Part) (rest : List Part) (nodes : List Node) → Stands content ps
        → Content around edge n ps rest m nodes → ContentPrints false nodes }
{}

/// The same of code with markup.
pub fn spelled_code_is_printable()
    ensures { (around : Part → List ℕ) (jumps : Jumps) (n : ℕ) (m : ℕ) (ps : List Part) (rest : List Part) (nodes : List Node) → Stands content ps
        → Lines around jumps n ps rest m nodes → LinesPrint nodes }
{}

/// The same of whole components.
pub fn what_standing_pieces_spell_is_printable()
    ensures { (pieces : List Part) (component : Tree) → Stands content (counted pieces) → SpelledBy pieces component → IsPrintable component }
{}

/// The pieces that a text is cut into stand as they may.
pub fn the_pieces_of_a_text_stand()
    ensures { (text : List ℕ) (pieces : List Part) → Cuts text pieces → Stands content (counted pieces) }
{}

/// What a text spells is printable.
pub fn what_a_text_spells_is_printable()
    ensures { (text : List ℕ) (component : Tree) → Spells text component → IsPrintable component }
{}
