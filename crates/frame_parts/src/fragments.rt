// The tags of components and fragments, besides what stands in them.
ghost use Rattle.std.specs.Prelude.{◌≡◌, map, IfOk};
ghost use Rattle.std.specs.List.{list_all};
ghost use Rattle.cs_forms.specs.Agrees.{AgreesBy};
ghost use Rattle.cs_rules.specs.Judged.{known};
ghost use Rattle.cs_rules.specs.declared.rule.Rule.TheVariants.{UnknownComponent, UnknownParameter};
ghost use Rattle.frame_program.specs.Operations.{given_by};
ghost use Rattle.page_meaning.specs.Parts as page;
ghost use Rattle.page_meaning.specs.Tags.{target_of as target_spec};
ghost use Rattle.razor_parts.specs.Views.{tagged_view};
ghost use Rattle.razor_rules.specs.Parameters as parameters;
ghost use Rattle.frame_parts.specs.Tags as spec;
ghost use Rattle.frame_parts.specs.Content as content;
ghost use Rattle.frame_parts.specs.Giving.{gives};
ghost use Rattle.frame_parts.specs.Views.{IsWhole, home_in, target_view};

use crate::captures::{User, inner_scope, positions_of, used};
use crate::site::Site;
use crate::targets::{Target, target_of};
use cs_ast::{CsType, Ident, Scope};
use cs_forms::CheckFault;
use cs_rules::Rule;
use frame_program::TagPart;
use razor_ast::{Attribute, TNode};
use razor_parts::locals::push_local;
use razor_parts::tagged::{Tagged, fragment_taken, tagged_by};
use razor_parts::tags::{Shape, shape_of};
use text_core::{Oom, Place, Txt};

/// What a tag of a name is the tag of, which has to be a component.
pub fn known_component<'a>(site: &Site<'a>, name: &Ident) -> Result<Tagged<'a>, CheckFault>
    ensures { AgreesBy (tagged_view site.now.home.records.now) result (known UnknownComponent name.now.place (parameters.tagged (home_in site.now) name.now.name)) }
{
    match tagged_by(&site.home, &name.name) {
        Some(around) => Ok(around),
        None => Err(CheckFault::Broken {
            rule: Rule::UnknownComponent,
            place: name.place,
        }),
    }
}

/// The same with the places of its parameters.
pub fn known_target<'a>(
    site: &Site<'a>,
    scope: &Scope,
    name: &Ident,
    attributes: &[Attribute],
) -> Result<Target<'a>, CheckFault>
    ensures { AgreesBy target_view result (known UnknownComponent name.now.place (target_spec (home_in site.now).components scope.now name.now.name attributes.now)) }
{
    match target_of(&site.home, scope, &name.name, attributes)? {
        Some(target) => Ok(target),
        None => Err(CheckFault::Broken {
            rule: Rule::UnknownComponent,
            place: name.place,
        }),
    }
}

/// The argument of the fragment that is taken under a name.
pub fn known_fragment(
    site: &Site<'_>,
    around: Tagged<'_>,
    place: Place,
    name: &Txt,
) -> Result<Option<CsType>, CheckFault>
    ensures { AgreesBy (λ argument. argument) result
        (known UnknownParameter place (parameters.fragment_taken (tagged_view site.now.home.records.now around.entry) name.now)) }
{
    match fragment_taken(&site.home, around, name)? {
        Some(argument) => Ok(argument),
        None => Err(CheckFault::Broken {
            rule: Rule::UnknownParameter,
            place,
        }),
    }
}

/// Whether content of a shape is the tags of fragments.
#[tactic(auto, unfolding(crate::specs::Content::is_fragments))]
fn is_fragments(shape: Shape) -> bool
    ensures { result ≡ content.is_fragments shape }
{
    match shape {
        Shape::Fragments => true,
        Shape::Mixed => false,
        Shape::Loose => false,
    }
}

/// Whether nodes are the tags of fragments, where white space does not count.
#[tactic(auto, using(crate::proofs::SameParts::shaped, crate::proofs::SameParts::same_fragments))]
pub fn are_fragments(site: &Site<'_>, around: Tagged<'_>, nodes: &[TNode]) -> Result<bool, Oom>
    ensures { IfOk result (λ yes. yes
        ≡ list_all (page.is_fragment_tag (tagged_view site.now.home.records.now around.entry)) (page.counted (map page.part_of nodes.now))) }
{
    let shape = shape_of(&site.home, around, nodes)?;
    Ok(is_fragments(shape))
}

/// The scope in a fragment: the members, the locals that it uses, and its argument.
pub fn fragment_scope(
    site: &Site<'_>,
    scope: &Scope,
    nodes: &[TNode],
    argument: Option<CsType>,
    name: &Ident,
) -> Result<Scope, Oom>
    requires whole { IsWhole site.now }
    ensures { IfOk result (λ inner. inner ≡ spec.fragment_scope (home_in site.now) scope.now (map page.part_of nodes.now) argument name.now) }
{
    let captured = used(site, User::Content(nodes), scope)?;
    let mut inner = inner_scope(site, captured.as_slice())?;
    match argument {
        Some(cs_type) => {
            push_local(&mut inner, &name.name, cs_type)?;
            Ok(inner)
        }
        None => Ok(inner),
    }
}

/// How a fragment is given: as the loose content of a tag, or by a tag of its own.
#[derive(Clone, Copy, Debug, PartialEq, Eq)]
pub enum Giving {
    Loose,
    Tagged,
}

/// What nodes give to the parameter of a place, as the fragment of a number.
pub fn given(
    site: &Site<'_>,
    scope: &Scope,
    nodes: &[TNode],
    giving: Giving,
    place: u32,
    number: u32,
) -> Result<TagPart, Oom>
    ensures { IfOk result (λ part. given_by part ≡ gives giving place number (spec.captured scope.now (map page.part_of nodes.now))) }
{
    let captured = used(site, User::Content(nodes), scope)?;
    let locals = positions_of(site.home.alloc, captured.as_slice())?;
    match giving {
        Giving::Loose => Ok(TagPart::Content {
            place,
            number,
            locals,
        }),
        Giving::Tagged => Ok(TagPart::Fragment {
            place,
            number,
            locals,
        }),
    }
}
