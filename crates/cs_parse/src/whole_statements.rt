// Reads whole lists of tokens as statements.
ghost use Rattle.std.specs.Prelude.{◌≡◌, List};
ghost use Rattle.cs_ast.specs.declared.expression.Stmt.{Stmt as Tree};
ghost use Rattle.cs_token.specs.declared.token.Token.{Token as Tok};
ghost use Rattle.cs_grammar.specs.Statements.{SpelledStatements};
ghost use Rattle.cs_parse.specs.Answers.{Answers, SyntaxAtAToken};
ghost use Rattle.cs_parse.specs.BodyReading as spec;
ghost use Rattle.cs_parse.specs.Reading.{Gives};

use crate::depth::first_too_deep;
use crate::fault::ParseFault;
use crate::statement::body_first;
use crate::unread::Unread;
use crate::whole::place_before;
use cs_ast::Stmt;
use cs_token::Token;
use sqlite_items::Items;
use std::alloc::Global;

/// The tokens as statements outside all loops.
fn whole_statements(alloc: Global, tokens: &[Token]) -> Result<Items<Stmt>, Unread>
    ensures { Gives (λ a. a) result (spec.whole_statements tokens.now) }
{
    let (body, rest) = body_first(alloc, tokens)?;
    if !rest.is_empty() {
        return Err(Unread::Syntax(rest.len()));
    }
    Ok(body)
}

/// Reads tokens as the statements of a body, one behind another, in which neither `break` nor `continue` may stand by
/// itself.
#[tactic(auto, using(crate::proofs::BodyLemmas::body_sound, crate::proofs::BodyLemmas::no_body))]
pub fn statements(alloc: Global, tokens: &[Token]) -> Result<Items<Stmt>, ParseFault>
    ensures tree { Answers SpelledStatements tokens.now result }
    ensures place { SyntaxAtAToken tokens.now result }
{
    if let Some(place) = first_too_deep(alloc, tokens)? {
        return Err(ParseFault::TooDeep { place });
    }
    match whole_statements(alloc, tokens) {
        Ok(body) => Ok(body),
        Err(Unread::Syntax(left)) => Err(ParseFault::Syntax {
            place: place_before(tokens, left),
        }),
        Err(Unread::Oom) => Err(ParseFault::Oom),
    }
}

/// Does nothing. Its contract is a law: tokens spell at most one list of statements, places included.
pub fn tokens_spell_one_body()
    ensures { (tokens : List Tok) (a b : List Tree) → SpelledStatements tokens a → SpelledStatements tokens b → a ≡ b }
{}
