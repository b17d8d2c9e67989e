// The content of the tags of components, as fragments with numbers.
ghost use Rattle.std.specs.Prelude.{map};
ghost use Rattle.std.specs.Option.{option_copied};
ghost use Rattle.cs_forms.specs.Agrees.{AgreesBy};
ghost use Rattle.frame_program.specs.Operations.{given_by};
ghost use Rattle.page_meaning.specs.Parts.{part_of};
ghost use Rattle.razor_parts.specs.Views.{tagged_view};
ghost use Rattle.frame_parts.specs.Giving.{gives};
ghost use Rattle.frame_parts.specs.Tags as tags;
ghost use Rattle.frame_parts.specs.Views.{IsWhole, home_in, numbered, target_view};

use crate::sequences::in_order;
use cs_ast::{CsType, Ident, Scope};
use cs_forms::CheckFault;
use frame_parts::fragments::{Giving, fragment_scope, given, known_fragment};
use frame_parts::gifts::{alone, known_parameter};
use frame_parts::making::{Making, put_fragment};
use frame_parts::scopes::place_at;
use frame_parts::site::Site;
use frame_parts::targets::Target;
use frame_program::TagPart;
use razor_ast::TNode;
use razor_parts::tagged::Tagged;
use razor_parts::tags::context_name;
use sqlite_items::Items;
use text_core::{Place, Txt};

/// Gives the template of a fragment its number.
#[cycle(nodes)]
fn template(
    site: &Site<'_>,
    nodes: &[TNode],
    number: u32,
    argument: Option<CsType>,
    name: &Ident,
    scope: &Scope,
    making: &mut Making,
) -> Result<(), CheckFault>
    requires whole { IsWhole site.now }
    ensures { AgreesBy (λ it. (it, numbered making.new)) result
        (tags.fragment_template (home_in site.now) scope.now number (map part_of nodes.now) argument name.now (numbered making.old)) }
{
    let mut inner = fragment_scope(site, scope, nodes, argument, name)?;
    let operations = in_order(site, nodes, &mut inner, making)?;
    let place = place_at(site, number)?;
    Ok(put_fragment(making, place, operations)?)
}

/// What content gives under a name, as the fragment of a number.
#[cycle(nodes)]
fn gift_of(
    site: &Site<'_>,
    nodes: &[TNode],
    around: Tagged<'_>,
    target: &Target<'_>,
    giving: Giving,
    name: &Txt,
    number: u32,
    place: Place,
    own: Option<&Ident>,
    outer: Option<&Ident>,
    scope: &Scope,
    making: &mut Making,
) -> Result<TagPart, CheckFault>
    requires whole { IsWhole site.now }
    ensures { AgreesBy (λ part. (given_by part, numbered making.new)) result
        (tags.gift_of (tagged_view site.now.home.records.now around.entry) (target_view target.now) (home_in site.now) scope.now (gives giving) name.now number place
        (option_copied own.entry) (option_copied outer.entry) (map part_of nodes.now) (numbered making.old)) }
{
    let alloc = site.home.alloc;
    let argument = known_fragment(site, around, place, name)?;
    let local = context_name(alloc, own, outer, place)?;
    template(site, nodes, number, argument, &local, scope, making)?;
    let found = known_parameter(alloc, target, place, name)?;
    let fragment = place_at(site, number)?;
    Ok(given(site, scope, nodes, giving, found.place, fragment)?)
}

/// The same alone.
#[cycle(nodes)]
pub fn one_gift(
    site: &Site<'_>,
    nodes: &[TNode],
    around: Tagged<'_>,
    target: &Target<'_>,
    giving: Giving,
    name: &Txt,
    number: u32,
    place: Place,
    own: Option<&Ident>,
    outer: Option<&Ident>,
    scope: &Scope,
    making: &mut Making,
) -> Result<Items<TagPart>, CheckFault>
    requires whole { IsWhole site.now }
    ensures { AgreesBy (λ parts. (map given_by parts, numbered making.new)) result
        (tags.one_gift (tagged_view site.now.home.records.now around.entry) (target_view target.now) (home_in site.now) scope.now (gives giving) name.now number place
        (option_copied own.entry) (option_copied outer.entry) (map part_of nodes.now) (numbered making.old)) }
{
    let part = gift_of(
        site, nodes, around, target, giving, name, number, place, own, outer, scope, making,
    )?;
    Ok(alone(site.home.alloc, part)?)
}

/// What all of the content of a tag gives.
#[cycle(nodes)]
#[tactic(auto, using(frame_parts::proofs::WordLaws::child_content_word))]
pub fn loose_gift(
    site: &Site<'_>,
    nodes: &[TNode],
    around: Tagged<'_>,
    target: &Target<'_>,
    number: u32,
    place: Place,
    outer: Option<&Ident>,
    scope: &Scope,
    making: &mut Making,
) -> Result<Items<TagPart>, CheckFault>
    requires whole { IsWhole site.now }
    ensures { AgreesBy (λ parts. (map given_by parts, numbered making.new)) result
        (tags.loose_gift (tagged_view site.now.home.records.now around.entry) (target_view target.now) (home_in site.now) scope.now number place
        (option_copied outer.entry) (map part_of nodes.now) (numbered making.old)) }
{
    let name = Txt::from_str(site.home.alloc, "ChildContent")?;
    one_gift(
        site,
        nodes,
        around,
        target,
        Giving::Loose,
        &name,
        number,
        place,
        outer,
        None,
        scope,
        making,
    )
}
