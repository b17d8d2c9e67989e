// Whole programs.
ghost use Rattle.std.specs.Prelude.{◌≡◌, [], codes, map, IfOk, IfErr};
ghost use Rattle.cs_forms.specs.Agrees.{AgreesBy};
ghost use Rattle.frame_program.specs.Operations.{act_of};
ghost use Rattle.razor_rules.specs.Numbers.{first_number};
ghost use Rattle.razor_rules.specs.Programs.{home_of as home_spec};
ghost use Rattle.razor_rules.specs.Scopes.{records_of as records_spec};
ghost use Rattle.frame_compiler.specs.Answers.{Refuses};
ghost use Rattle.frame_compiler.specs.Compiles as spec;
ghost use Rattle.frame_parts.specs.Components as components_spec;
ghost use Rattle.frame_compiler.specs.Programs as programs;
ghost use Rattle.frame_parts.specs.Views.{IsWhole, home_in, numbered};

use crate::fault::CompileFault;
use crate::sequences::enclosed;
use cs_ast::Member;
use cs_forms::CheckFault;
use frame_parts::bodies::member_bodies;
use frame_parts::fields::{fields, method_number, parameters};
use frame_parts::making::{Making, nothing};
use frame_parts::scopes::member_scope;
use frame_parts::site::Site;
use frame_program::{Compiled, CompiledComponent, CompiledField, Operation};
use razor_ast::Component;
use razor_parts::home::Home;
use razor_parts::numbers::behind;
use razor_parts::records::records_of;
use sqlite_items::Items;
use std::alloc::Global;
use text_core::Oom;

/// The template of a component, behind the bodies of its members.
fn operations(
    site: &Site<'_>,
    component: &Component,
    making: &mut Making,
) -> Result<Items<Operation>, CheckFault>
    requires whole { IsWhole site.now }
    requires members { site.now.home.members.now ≡ component.now.members }
    ensures { AgreesBy (λ all. (map act_of all, numbered making.new)) result (programs.acts (home_in site.now) component.now (numbered making.old)) }
{
    member_bodies(site, making)?;
    let mut scope = member_scope(site)?;
    enclosed(site, component.nodes.as_slice(), &mut scope, making)
}

/// A component of these parts, with the numbers of its lifecycle.
#[tactic(auto, using(frame_parts::proofs::WordLaws::initialized_word, frame_parts::proofs::WordLaws::parameters_set_word, frame_parts::proofs::WordLaws::dispose_word))]
fn assembled(
    site: &Site<'_>,
    component: &Component,
    fields: Items<CompiledField>,
    parameters: Items<CompiledField>,
    operations: Items<Operation>,
) -> Result<CompiledComponent, Oom>
    requires { site.now.home.members.now ≡ component.now.members }
    ensures { IfOk result (λ it. spec.meaning_of it ≡ components_spec.meaning (home_in site.now) component.now fields parameters (map act_of operations)) }
{
    Ok(CompiledComponent {
        name: component.name.clone()?,
        disposes: component.disposes,
        fields,
        parameters,
        initialized: method_number(site, "OnInitialized")?,
        parameters_set: method_number(site, "OnParametersSet")?,
        dispose: method_number(site, "Dispose")?,
        operations,
    })
}

/// A component.
fn compiled_component(
    site: &Site<'_>,
    component: &Component,
    making: &mut Making,
) -> Result<CompiledComponent, CheckFault>
    requires whole { IsWhole site.now }
    requires members { site.now.home.members.now ≡ component.now.members }
    ensures { AgreesBy (λ it. (spec.meaning_of it, numbered making.new)) result (programs.meant (home_in site.now) component.now (numbered making.old)) }
{
    let fields = fields(site)?;
    let parameters = parameters(site)?;
    let operations = operations(site, component, making)?;
    Ok(assembled(site, component, fields, parameters, operations)?)
}

/// A component that stands at a position among others.
fn site_at<'a>(
    alloc: Global,
    components: &'a [Component],
    records: &'a [Member],
    position: usize,
    first: u32,
    component: &'a Component,
) -> Site<'a>
    requires records { records.now ≡ records_spec components.now }
    requires number { first ≡ first_number components.now position }
    ensures whole { IsWhole result }
    ensures home { home_in result ≡ home_spec components.now position component.now }
    ensures members { result.home.members.now ≡ component.now.members }
{
    let home = Home {
        alloc,
        records,
        components,
        position,
        first,
        members: component.members.as_slice(),
        impure: Items::new(alloc),
        invoking: Items::new(alloc),
    };
    Site { home }
}

/// The component at a position, where a broken rule is one of its file.
#[tactic(auto, using(crate::proofs::ComponentLaws::meaning_law))]
fn component_at(
    alloc: Global,
    components: &[Component],
    records: &[Member],
    position: usize,
    first: u32,
    component: &Component,
    making: &mut Making,
) -> Result<CompiledComponent, CompileFault>
    requires records { records.now ≡ records_spec components.now }
    requires number { first ≡ first_number components.now position }
    ensures { programs.IsCompiled position (components_spec.component_meaning (home_spec components.now position component.now) component.now) (numbered making.old) (numbered making.new) result }
{
    let site = site_at(alloc, components, records, position, first, component);
    match compiled_component(&site, component, making) {
        Ok(it) => Ok(it),
        Err(CheckFault::Broken { rule, place }) => Err(CompileFault::Broken {
            file: position,
            rule,
            place,
        }),
        Err(CheckFault::Oom) => Err(CompileFault::Oom),
    }
}

/// The components in their order, and the bodies and fragments that get numbers with them.
#[tactic(auto, using(frame_parts::proofs::FrontLemmas::front_none, frame_parts::proofs::FrontLemmas::front_one, frame_parts::proofs::FrontLemmas::front_end, crate::proofs::ProgramLaws::components_more, crate::proofs::ProgramLaws::broken_more, crate::proofs::ProgramLaws::broken_here, crate::proofs::ProgramLaws::fine_here, crate::proofs::ProgramLaws::number_more))]
fn all_components(
    alloc: Global,
    components: &[Component],
    records: &[Member],
    making: &mut Making,
) -> Result<Items<CompiledComponent>, CompileFault>
    requires { records.now ≡ records_spec components.now }
    ensures compiled { IfOk result (λ all. programs.AreCompiled components.now (numbered making.old) (numbered making.new) all) }
    ensures broken { IfErr result (λ fault. Refuses components.now fault) }
{
    let mut all = Items::new(alloc);
    let mut first = 0;
    for (position, component) in components.iter().enumerate() {
        let it = component_at(
            alloc, components, records, position, first, component, making,
        )?;
        all.push(it)?;
        first = behind(first, component)?;
    }
    Ok(all)
}

/// The program of these components, or the first broken rule in them.
#[tactic(auto, using(crate::proofs::ProgramLaws::whole_program))]
pub fn compile(alloc: Global, components: &[Component]) -> Result<Compiled, CompileFault>
    ensures compiles { IfOk result (λ compiled. spec.Compiles components.now compiled) }
    ensures broken { IfErr result (λ fault. Refuses components.now fault) }
{
    let records = records_of(alloc, components)?;
    let mut making = nothing(alloc);
    let all = all_components(alloc, components, records.as_slice(), &mut making)?;
    Ok(Compiled {
        components: all,
        bodies: making.bodies,
        fragments: making.fragments,
    })
}
