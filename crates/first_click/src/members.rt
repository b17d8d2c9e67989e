// The members of a block of code: fields of type `int`, and methods without parameters.
ghost use Rattle.std.specs.Prelude.{◌≡◌, [], map, IfOk, MatchOption};
ghost use Rattle.std.specs.Option.{option_map};
ghost use Rattle.first_click.specs.Members.{MemberStands, name_of, has_member, is_named_well, are_named_well, field_of, fields_of};
ghost use Rattle.first_click.specs.Reading.Members.{until_brace, is_declaration, is_head, field_at, method_at, member_at};
ghost use Rattle.first_click.specs.Reading.Views.{member_of};
ghost use Rattle.first_click.specs.Walks.{Walk};

use super::component::Field;
use super::names::{is_field_name, is_method_name};
use sqlite_items::Items;
use std::alloc::Global;
use text_core::{Oom, Txt, read_i32};

/// A member, by its tokens.
#[derive(Clone, Copy, Debug)]
pub enum Member<'a> {
    /// `int name = digits;`
    Field { name: &'a Txt, digits: &'a Txt },
    /// `void name() { body }`
    Method { name: &'a Txt, body: &'a [Txt] },
}

impl Member<'_> {
    fn name(&self) -> &Txt
        ensures { result.now ≡ name_of (member_of self.now) }
    {
        match self {
            Member::Field { name, .. } => name,
            Member::Method { name, .. } => name,
        }
    }

    /// Whether its name is one that it may have.
    fn is_named_well(&self) -> bool
        ensures { result ≡ is_named_well (member_of self.now) }
    {
        match self {
            Member::Field { name, .. } => is_field_name(name),
            Member::Method { name, .. } => is_method_name(name),
        }
    }
}

/// What stands up to the first `}`, and what stands behind it.
fn until_brace(tokens: &[Txt]) -> Option<(&[Txt], &[Txt])>
    ensures { option_map (λ cut. (cut.0.now, cut.1.now)) result ≡ until_brace tokens.now }
{
    for (at, token) in tokens.iter().enumerate() {
        if token.is("}") {
            return Some((&tokens[..at], &tokens[at + 1..]));
        }
    }
    None
}

/// Whether these are the tokens of a field that are always the same.
fn is_declaration(int: &Txt, equals: &Txt, semicolon: &Txt) -> bool
    ensures { result ≡ is_declaration int.now equals.now semicolon.now }
{
    int.is("int") && equals.is("=") && semicolon.is(";")
}

/// Whether these are those of the head of a method.
fn is_head(void: &Txt, left: &Txt, right: &Txt, brace: &Txt) -> bool
    ensures { result ≡ is_head void.now left.now right.now brace.now }
{
    void.is("void") && left.is("(") && right.is(")") && brace.is("{")
}

/// The field that stands first, and what stands behind it.
#[tactic(auto, unfolding(crate::specs::Reading::Members::field_at))]
fn cut_field(tokens: &[Txt]) -> Option<(Member<'_>, &[Txt])>
    ensures { option_map (λ cut. (member_of cut.0, cut.1.now)) result ≡ field_at tokens.now }
{
    let [int, name, equals, digits, semicolon, rest @ ..] = tokens else {
        return None;
    };
    if !is_declaration(int, equals, semicolon) {
        return None;
    }
    Some((Member::Field { name, digits }, rest))
}

/// The method that stands first, and what stands behind it.
#[tactic(auto, unfolding(crate::specs::Reading::Members::method_at))]
fn cut_method(tokens: &[Txt]) -> Option<(Member<'_>, &[Txt])>
    ensures { option_map (λ cut. (member_of cut.0, cut.1.now)) result ≡ method_at tokens.now }
{
    let [void, name, left, right, brace, rest @ ..] = tokens else {
        return None;
    };
    if !is_head(void, left, right, brace) {
        return None;
    }
    let (body, rest) = until_brace(rest)?;
    Some((Member::Method { name, body }, rest))
}

/// The member that stands first, and what stands behind it.
#[tactic(auto, unfolding(crate::specs::Reading::Members::member_at))]
fn cut_member(tokens: &[Txt]) -> Option<(Member<'_>, &[Txt])>
    ensures { option_map (λ cut. (member_of cut.0, cut.1.now)) result ≡ member_at tokens.now }
{
    if let Some(cut) = cut_field(tokens) {
        return Some(cut);
    }
    cut_method(tokens)
}

/// The members that the tokens are, one after another, if they are members alone.
pub fn members_of<'a>(alloc: Global, tokens: &'a [Txt]) -> Result<Option<Vec<Member<'a>>>, Oom>
    ensures { IfOk result (λ found. MatchOption found
        ((members : _) → Walk MemberStands tokens.now members [] → ⊥)
        (λ members. Walk MemberStands tokens.now (map member_of members.items) [])) }
{
    let mut members = Vec::new(alloc);
    let mut rest = tokens;
    while let Some((member, next)) = cut_member(rest) {
        members.push(member)?;
        rest = next;
    }
    if rest.is_empty() {
        return Ok(Some(members));
    }
    Ok(None)
}

/// Whether one of the members has the name.
fn has_member(members: &[Member<'_>], name: &Txt) -> bool
    ensures { result ≡ has_member (map member_of members.now) name.now }
{
    for member in members {
        if *member.name() == *name {
            return true;
        }
    }
    false
}

/// Whether each name is one that its member may have, and no two are the same.
pub fn are_named_well(members: &[Member<'_>]) -> bool
    ensures { result ≡ are_named_well (map member_of members.now) }
{
    let mut rest = members;
    while let [member, more @ ..] = rest {
        if !member.is_named_well() {
            return false;
        }
        if has_member(more, member.name()) {
            return false;
        }
        rest = more;
    }
    true
}

/// The field of this name, if its value is a number of 32 bits.
fn field_of(alloc: Global, name: &Txt, digits: &Txt) -> Result<Option<Field>, Oom>
    ensures { IfOk result (λ found. found ≡ field_of name.now digits.now) }
{
    match read_i32(digits) {
        Some(number) => Ok(Some(Field::new(name.clone()?, number))),
        None => Ok(None),
    }
}

/// The fields among the members, if the value of each is a number of 32 bits.
pub fn fields_of(alloc: Global, members: &[Member<'_>]) -> Result<Option<Items<Field>>, Oom>
    ensures { IfOk result (λ found. found ≡ fields_of (map member_of members.now)) }
{
    let mut fields = Items::new(alloc);
    for member in members {
        let Member::Field { name, digits } = *member else {
            continue;
        };
        let Some(field) = field_of(alloc, name, digits)? else {
            return Ok(None);
        };
        fields.push(field)?;
    }
    Ok(Some(fields))
}
