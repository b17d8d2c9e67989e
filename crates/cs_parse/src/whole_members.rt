// Reads whole lists of tokens as members.
ghost use Rattle.std.specs.Prelude.{◌≡◌, List};
ghost use Rattle.cs_ast.specs.declared.member.Member.{Member as Tree};
ghost use Rattle.cs_token.specs.declared.token.Token.{Token as Tok};
ghost use Rattle.cs_grammar.specs.Members.{SpelledMembers};
ghost use Rattle.cs_parse.specs.Answers.{Answers, SyntaxAtAToken};

use crate::depth::first_too_deep;
use crate::fault::ParseFault;
use crate::member::whole_members;
use crate::unread::Unread;
use crate::whole::place_before;
use cs_ast::Member;
use cs_token::Token;
use sqlite_items::Items;
use std::alloc::Global;

/// Reads tokens as members, one behind another.
pub fn members(alloc: Global, tokens: &[Token]) -> Result<Items<Member>, ParseFault>
    ensures tree { Answers SpelledMembers tokens.now result }
    ensures place { SyntaxAtAToken tokens.now result }
{
    if let Some(place) = first_too_deep(alloc, tokens)? {
        return Err(ParseFault::TooDeep { place });
    }
    match whole_members(alloc, tokens) {
        Ok(found) => Ok(found),
        Err(Unread::Syntax(left)) => Err(ParseFault::Syntax {
            place: place_before(tokens, left),
        }),
        Err(Unread::Oom) => Err(ParseFault::Oom),
    }
}

/// Does nothing. Its contract is a law: tokens spell at most one list of members, places included.
pub fn tokens_spell_one_member_list()
    ensures { (tokens : List Tok) (a b : List Tree) → SpelledMembers tokens a → SpelledMembers tokens b → a ≡ b }
{}
