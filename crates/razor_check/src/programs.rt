// Whole programs.
ghost use Rattle.std.specs.Prelude.{◌≡◌, ◌≤◌, map, length, option_map, IfOk, OnOk};
ghost use Rattle.std.specs.List.{AllZip};
ghost use Rattle.cs_effects.specs.Effects.{Told};
ghost use Rattle.razor_token.specs.Tags as tags_spec;
ghost use Rattle.razor_rules.specs.Findings.{also, first_of};
ghost use Rattle.razor_rules.specs.Grounds.{top};
ghost use Rattle.razor_rules.specs.Names.{is_among};
ghost use Rattle.razor_rules.specs.Numbers.{first_number};
ghost use Rattle.razor_rules.specs.Programs as spec;
ghost use Rattle.razor_rules.specs.Scopes.{records_of as records_in};
ghost use Rattle.razor_parts.specs.Views.{home_of};
ghost use Rattle.razor_check.specs.Answers as answers;
ghost use Rattle.razor_check.specs.Files as files;
ghost use Rattle.razor_check.specs.Members.{among};

use crate::declarations::members_rules;
use crate::fault::ProgramFault;
use crate::templates::nodes_rules;
use cs_ast::{CsType, Effect, Member, Scope};
use cs_effects::effects;
use cs_forbidden::Forbidden;
use cs_rules::Rule;
use cs_token::{Class, first_place};
use razor_ast::Component;
use razor_parts::bodies::{impure, invoking};
use razor_parts::circles::circular_names;
use razor_parts::home::Home;
use razor_parts::names::member_names;
use razor_parts::numbers::behind;
use razor_parts::records::{record_names, records_of};
use razor_rules::Ground;
use rule_findings::{Broken, Findings};
use sqlite_items::Items;
use std::alloc::Global;
use text_core::{Oom, Txt};

/// A program that breaks no rule.
#[derive(Debug, Drop)]
pub struct Program {
    components: Items<Component>,
}

impl Program {
    /// Its components, in their order.
    pub fn components(&self) -> &[Component]
        ensures { result.now ≡ self.now.components }
    {
        self.components.as_slice()
    }
}

fn begins_upper(characters: &[char]) -> bool
    ensures { result ≡ tags_spec.is_component characters.now }
{
    matches!(characters, ['A'..='Z', ..])
}

fn are_word(characters: &[char]) -> bool
    ensures { result ≡ files.are_word characters.now }
{
    characters.iter().all(|c| Class::Word.has(*c))
}

/// A letter A to Z and then letters and digits, and not that of the built-in component.
#[tactic(auto, unfolding(razor_rules::specs::Programs::is_component_name))]
fn is_component_name(alloc: Global, name: &Txt) -> Result<bool, Oom>
    ensures { IfOk result (λ yes. yes ≡ spec.is_component_name name.now) }
{
    let characters = name.to_chars(alloc)?;
    Ok(begins_upper(&characters) && are_word(&characters) && !name.is("CascadingValue"))
}

fn has_component(components: &[Component], name: &Txt) -> bool
    ensures { result ≡ is_among name.now (map (λ one. one.name) components.now) }
{
    for one in components {
        if *name == one.name {
            return true;
        }
    }
    false
}

/// The rules that a file breaks by its name, behind these files.
#[tactic(auto, using(razor_rules::proofs::FirstLaws::also_append))]
fn name_rules(
    alloc: Global,
    earlier: &[Component],
    component: &Component,
    found: &mut Findings,
) -> Result<(), Oom>
    ensures { OnOk result (found.new.first ≡ also found.old.first (spec.name_rules earlier.now component.now)) }
{
    let free = !has_component(earlier, &component.name);
    found.add_unless(free, Rule::DuplicateComponent, first_place());
    let fine = is_component_name(alloc, &component.name)?;
    found.add_unless(fine, Rule::BadComponentName, first_place());
    Ok(())
}

/// A ground over the records of a program, at the top of no template yet.
fn empty_ground(alloc: Global, components: &[Component]) -> Result<Ground, Oom>
    ensures { IfOk result (λ g. files.IsTop (records_in components.now) g) }
{
    let records = records_of(alloc, components)?;
    Ok(Ground {
        scope: Scope {
            names: Items::new(alloc),
            records,
            result: CsType::Nothing,
        },
        marks: Items::new(alloc),
        forbidden: Forbidden {
            outside: Items::new(alloc),
            changes: Some(Rule::ImpureTemplate),
            invokes: Some(Rule::ImpureTemplate),
            bodies: Items::new(alloc),
        },
        in_switch: false,
    })
}

/// Puts the names of the members of a component in scope, at the top of its template.
fn begin(home: &Home<'_>, g: &mut Ground) -> Result<(), Oom>
    requires { files.IsTop home.now.records.now g.old }
    ensures { OnOk result (g.new ≡ top (home_of home.now) home.now.impure) }
{
    g.scope.names = member_names(home.alloc, home.first, home.members)?;
    g.forbidden.bodies = Items::from_slice(home.alloc, home.impure.as_slice())?;
    Ok(())
}

/// The first rule that a file breaks, behind these files.
#[tactic(auto, using(razor_rules::proofs::FirstLaws::also_append, crate::proofs::FileLaws::also_first, crate::proofs::MemberLaws::members_law))]
fn file_rules(
    home: &Home<'_>,
    earlier: &[Component],
    component: &Component,
    circular: &[Txt],
    g: &mut Ground,
) -> Result<Option<Broken>, Oom>
    requires { files.IsTop home.now.records.now g.old }
    ensures does { IfOk result (λ first. first ≡ first_of (files.rules_by earlier.now (home_of home.now) component.now home.now.invoking home.now.impure (among circular.now))) }
    ensures kept { OnOk result (files.IsTop home.now.records.now g.new) }
{
    let mut found = Findings::new();
    name_rules(home.alloc, earlier, component, &mut found)?;
    begin(home, g)?;
    let before = record_names(home.alloc, earlier)?;
    members_rules(home, circular, &mut g.scope, before.as_slice(), &mut found)?;
    nodes_rules(home, g, component.nodes.as_slice(), &mut found)?;
    Ok(found.first)
}

/// What is told of a program: its records, the names of those that contain themselves, and the effects of the methods of each
/// component.
#[derive(Debug, Drop)]
struct Facts {
    records: Items<Member>,
    circular: Items<Txt>,
    effects: Items<Items<Effect>>,
}

fn all_effects(alloc: Global, components: &[Component]) -> Result<Items<Items<Effect>>, Oom>
    ensures { IfOk result (λ effects. AllZip (λ component told. Told component.members component.members told) components.now effects) }
{
    let mut all = Items::new(alloc);
    for component in components {
        let told = effects(alloc, component.members.as_slice())?;
        all.push(Items::from_vec(told))?;
    }
    Ok(all)
}

fn facts_of(alloc: Global, components: &[Component]) -> Result<Facts, Oom>
    ensures { IfOk result (λ facts. files.AreTold components.now facts) }
{
    let records = records_of(alloc, components)?;
    let circular = circular_names(alloc, records.as_slice())?;
    let effects = all_effects(alloc, components)?;
    Ok(Facts {
        records,
        circular,
        effects,
    })
}

/// A component in its program.
fn home_at<'a>(
    alloc: Global,
    components: &'a [Component],
    records: &'a [Member],
    position: usize,
    first: u32,
    component: &'a Component,
    effects: &[Effect],
) -> Result<Home<'a>, Oom>
    ensures { IfOk result (λ home. files.Stands components.now records.now position first component.now effects.now home) }
{
    let members = component.members.as_slice();
    let impure = impure(alloc, first, members, effects)?;
    let invoking = invoking(alloc, first, members, effects)?;
    Ok(Home {
        alloc,
        records,
        components,
        position,
        first,
        members,
        impure,
        invoking,
    })
}

/// The first rule that the file at a position breaks.
#[tactic(auto, using(crate::proofs::FileLaws::file_law))]
fn file_finding(
    alloc: Global,
    components: &[Component],
    facts: &Facts,
    position: usize,
    first: u32,
    component: &Component,
    effects: &[Effect],
    g: &mut Ground,
) -> Result<Option<Broken>, Oom>
    requires within { position ≤ length components.now }
    requires number { first ≡ first_number components.now position }
    requires records { facts.now.records ≡ records_in components.now }
    requires top { files.IsTop facts.now.records g.old }
    ensures does { IfOk result (λ it. it ≡ first_of (spec.of_file components.now (among facts.now.circular) position component.now effects.now)) }
    ensures kept { OnOk result (files.IsTop facts.now.records g.new) }
{
    let records = facts.records.as_slice();
    let home = home_at(
        alloc, components, records, position, first, component, effects,
    )?;
    let earlier = &components[..position];
    file_rules(&home, earlier, component, facts.circular.as_slice(), g)
}

/// A broken rule in the file at a position.
#[derive(Clone, Copy, Debug)]
struct Finding {
    file: usize,
    first: Broken,
}

/// The first rule that a program breaks, of which this is told.
#[tactic(auto, using(crate::proofs::FileLaws::files_more, crate::proofs::FileLaws::number_more))]
fn first_finding(
    alloc: Global,
    components: &[Component],
    facts: &Facts,
) -> Result<Option<Finding>, Oom>
    requires { facts.now.records ≡ records_in components.now }
    ensures { IfOk result (λ it. option_map files.finding it ≡ spec.first_broken components.now (files.facts facts.now)) }
{
    let mut g = empty_ground(alloc, components)?;
    let mut first = 0;
    let mut rest = facts.effects.as_slice();
    for (position, component) in components.iter().enumerate() {
        let Some((effects, others)) = rest.split_first() else {
            return Ok(None);
        };
        let broken = file_finding(
            alloc,
            components,
            facts,
            position,
            first,
            component,
            effects.as_slice(),
            &mut g,
        )?;
        if let Some(broken) = broken {
            return Ok(Some(Finding {
                file: position,
                first: broken,
            }));
        }
        first = behind(first, component)?;
        rest = others;
    }
    Ok(None)
}

/// The first rule that components break.
#[tactic(auto, using(crate::proofs::FileLaws::told))]
fn first_broken(alloc: Global, components: &[Component]) -> Result<Option<Finding>, Oom>
    ensures { IfOk result (λ it. spec.BreaksFirst components.now (option_map files.finding it)) }
{
    let facts = facts_of(alloc, components)?;
    first_finding(alloc, components, &facts)
}

/// Refuses components that break a rule.
fn all_rules(alloc: Global, components: &[Component]) -> Result<(), ProgramFault>
    ensures { answers.Judges components.now result }
{
    match first_broken(alloc, components)? {
        None => Ok(()),
        Some(finding) => Err(ProgramFault::Broken {
            file: finding.file,
            rule: finding.first.rule,
            place: finding.first.place,
        }),
    }
}

/// The program of these components where they break no rule, and else the first rule that they break.
pub fn check(alloc: Global, components: Items<Component>) -> Result<Program, ProgramFault>
    ensures { answers.Answers components result }
{
    all_rules(alloc, components.as_slice())?;
    Ok(Program { components })
}
