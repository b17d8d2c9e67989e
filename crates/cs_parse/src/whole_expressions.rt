// Reads whole lists of tokens as expressions and lambdas.
ghost use Rattle.std.specs.Prelude.{◌≡◌, List};
ghost use Rattle.cs_ast.specs.declared.expression.Expr.{Expr as Tree};
ghost use Rattle.cs_token.specs.declared.token.Token.{Token as Tok};
ghost use Rattle.cs_grammar.specs.Lambdas.{Spelled};
ghost use Rattle.cs_parse.specs.Answers.{Answers, SyntaxAtAToken};

use crate::depth::first_too_deep;
use crate::fault::ParseFault;
use crate::lambdas::whole_spelled;
use crate::unread::Unread;
use crate::whole::place_before;
use cs_ast::Expr;
use cs_token::Token;
use std::alloc::Global;

/// Reads tokens as one expression, as one operand behind `(MarkupString)`, or as one lambda.
pub fn expression(alloc: Global, tokens: &[Token]) -> Result<Expr, ParseFault>
    ensures tree { Answers Spelled tokens.now result }
    ensures place { SyntaxAtAToken tokens.now result }
{
    if let Some(place) = first_too_deep(alloc, tokens)? {
        return Err(ParseFault::TooDeep { place });
    }
    match whole_spelled(alloc, tokens) {
        Ok(a) => Ok(a),
        Err(Unread::Syntax(left)) => Err(ParseFault::Syntax {
            place: place_before(tokens, left),
        }),
        Err(Unread::Oom) => Err(ParseFault::Oom),
    }
}

/// Does nothing. Its contract is a law: tokens spell at most one tree, places included.
pub fn tokens_spell_one_expression()
    ensures { (tokens : List Tok) (a b : Tree) → Spelled tokens a → Spelled tokens b → a ≡ b }
{}
