// Laws of printed texts. Each function does nothing: its contract is the law.
ghost use Rattle.std.specs.Prelude.{◌≡◌, ℕ, Bool, false, map, List, ◌∷◌};
ghost use Rattle.razor_ast.specs.declared.component.Component.{Component as Tree};
ghost use Rattle.razor_ast.specs.declared.node.TNode.{TNode as Node};
ghost use Rattle.razor_print.specs.Components.{component_parts, component_text};
ghost use Rattle.razor_print.specs.Nodes.{node as printed_node, content, lines};
ghost use Rattle.razor_token.specs.ContentFronts.{is_word};
ghost use Rattle.razor_token.specs.Cutting.{Cuts, last_of};
ghost use Rattle.razor_token.specs.declared.context.Context.TheVariants as x;
ghost use Rattle.razor_token.specs.declared.context.Context.{Context as Open};
ghost use Rattle.razor_token.specs.declared.context.Point.TheVariants as point;
ghost use Rattle.razor_token.specs.declared.piece.Piece.{Piece as Part};
ghost use Rattle.printed_pieces.specs.Answers.{IsCutInto};
ghost use Rattle.printed_pieces.specs.Cut.{Cut};
ghost use Rattle.printed_pieces.specs.Places.{EndsContent, IsContentPlace};
ghost use Rattle.printed_pieces.specs.PrintableNodes.{ContentPrints, IsPrintable, LinesPrint};
ghost use Rattle.printed_pieces.specs.Sound.{AreSound};

/// The printed text of content is cut into the pieces that its parts are meant to be, where it stands in content or at the top of a
/// file, behind no letter or digit, and before what no literal text goes on with.
pub fn printed_content_is_cut_as_meant()
    ensures { (contexts : List Open) (before : List ℕ) (rest : List ℕ) (nodes : List Node) → IsContentPlace contexts → is_word (last_of before) ≡ false
        → EndsContent rest → ContentPrints false nodes → Cut contexts before (content (map printed_node nodes)) rest contexts }
{}

/// The same of code with markup, where a statement begins in a block, before anything.
pub fn printed_code_is_cut_as_meant()
    ensures { (contexts : List Open) (with_else : Bool) (before : List ℕ) (rest : List ℕ) (items : List Node) → LinesPrint items
        → Cut (x.Block point.Begins with_else ∷ contexts) before (lines (map printed_node items)) rest (x.Block point.Begins with_else ∷ contexts) }
{}

/// The same of whole components.
pub fn a_printed_component_is_cut_as_meant()
    ensures { (component : Tree) → IsPrintable component → IsCutInto (component_text component) (component_parts component) }
{}

/// Each piece of a text is sound: a token is one that a text can have, and the names of tags and attributes are written as such names
/// are.
pub fn pieces_of_a_text_are_sound()
    ensures { (text : List ℕ) (pieces : List Part) → Cuts text pieces → AreSound pieces }
{}
