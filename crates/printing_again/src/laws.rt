// Laws of printed expressions. Each function does nothing: its contract is the law.
ghost use Rattle.std.specs.Prelude.{ℕ, Bool, false, List, ◌∷◌, ◌++◌};
ghost use Rattle.cs_ast.specs.declared.expression.Expr.{Expr as Tree};
ghost use Rattle.cs_grammar.specs.Lambdas.{Spelled, SpelledValue};
ghost use Rattle.cs_print.specs.Printed.{whole, printed};
ghost use Rattle.printed_pieces.specs.Meant.{Mean};
ghost use Rattle.printed_pieces.specs.Printable.{ArePrintable, IsKindOf};
ghost use Rattle.printed_pieces.specs.Written.{IsWritten};
ghost use Rattle.printing_again.specs.Again.{AttributeAgain, AttributesAgain, SpellsAgain};
ghost use Rattle.razor_ast.specs.Attributes.{EventValue, Led, OfElement, SomeAttributes};
ghost use Rattle.razor_ast.specs.Shown.{Shown};
ghost use Rattle.razor_ast.specs.declared.attribute.Attribute.{Attribute as Given};
ghost use Rattle.razor_print.specs.Attributes.{attribute_parts, attributes_parts};
ghost use Rattle.razor_print.specs.Parts.{Parts as PrintedParts, led, piece, shown};
ghost use Rattle.razor_token.specs.declared.piece.PieceKind.TheVariants as k;
ghost use Rattle.razor_token.specs.declared.piece.Piece.{Piece as Part};

/// The pieces that a printed content expression is meant to be spell an equal one.
pub fn a_printed_content_expression_is_spelled_again()
    ensures { (a : Tree) (later : PrintedParts) (pieces : List Part) → IsWritten SpelledValue a
        → Mean (shown (whole (printed a)) ++ later) pieces → SpellsAgain Shown a later pieces }
{}

/// The same of the value of a parameter that is one expression.
pub fn a_printed_value_is_spelled_again()
    ensures { (a : Tree) (quote : List ℕ) (later : PrintedParts) (pieces : List Part) → IsWritten Spelled a
        → Mean (led (whole (printed a)) ++ piece k.ValueEnd quote ∷ later) pieces → SpellsAgain Led a later pieces }
{}

/// The same of the value of an event.
pub fn a_printed_event_is_spelled_again()
    ensures { (a : Tree) (quote : List ℕ) (later : PrintedParts) (pieces : List Part) → IsWritten Spelled a
        → Mean (led (whole (printed a)) ++ piece k.ValueEnd quote ∷ later) pieces → SpellsAgain EventValue a later pieces }
{}

/// The pieces that a printed attribute of an element is meant to be spell an equal one.
pub fn a_printed_attribute_of_an_element_is_spelled_again()
    ensures { (n : ℕ) (m : ℕ) (ps : List Part) (rest : List Part) (a : Given) → OfElement n ps rest m a → IsKindOf false a.name a.kind
        → (later : PrintedParts) (pieces : List Part) → Mean (attribute_parts a ++ later) pieces → AttributeAgain OfElement n m a later pieces }
{}

/// The same of all attributes of a tag.
pub fn printed_attributes_are_spelled_again()
    ensures { (source : Part → List ℕ) (around : Part → List ℕ) → (component : Bool) (n : ℕ) (m : ℕ) (ps : List Part) (rest : List Part) (all : List Given)
        → SomeAttributes source component n ps rest m all → ArePrintable component all
        → (later : PrintedParts) (pieces : List Part) → Mean (attributes_parts all ++ later) pieces → AttributesAgain around component n m all later pieces }
{}
