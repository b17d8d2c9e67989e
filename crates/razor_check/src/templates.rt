// The rules of templates.
ghost use Rattle.std.specs.Prelude.{◌≡◌, ◌++◌, map, option_map, OnOk};
ghost use Rattle.std.specs.List.{flat_map};
ghost use Rattle.razor_rules.specs.Findings.{also, found_then};
ghost use Rattle.razor_rules.specs.Elements.{element_rules as element_spec};
ghost use Rattle.razor_rules.specs.Grounds.{in_loop};
ghost use Rattle.razor_rules.specs.Parts.{in_order};
ghost use Rattle.razor_rules.specs.Templates as spec;
ghost use Rattle.razor_rules.specs.Templates.{part_of, part_of_section};
ghost use Rattle.razor_parts.specs.Views.{home_of};

use crate::components::component_rules;
use crate::elements::element_rules;
use crate::ground::{back, depth_of};
use crate::heads::{
    content_rules, decided, head_rules, item_rules, label_rules, start_rules, test_rules,
};
use crate::statements::{behind, statement_rules};
use cs_ast::{Expr, Ident, Stmt};
use cs_forms::CheckFault;
use cs_rules::ExprType;
use razor_ast::{Attribute, TNode, TSection};
use razor_parts::home::Home;
use razor_rules::Ground;
use rule_findings::Findings;
use sqlite_items::Boxed;
use std::mem;
use text_core::{Oom, Txt};

/// The rules of nodes, one after another; behind a declaration that breaks a rule nothing is looked at.
#[cycle(templates)]
#[tactic(auto, using(crate::proofs::GoingLemmas::kept_self))]
pub fn nodes_rules(
    home: &Home<'_>,
    g: &mut Ground,
    nodes: &[TNode],
    found: &mut Findings,
) -> Result<(), Oom>
    ensures does { OnOk result (found.new.first ≡ also found.old.first (in_order (map (part_of (home_of home.now)) nodes.now) g.old)) }
    ensures same { OnOk result (g.new ≡ g.old) }
{
    let depth = depth_of(g);
    let mut at = 0;
    for one in nodes {
        at += 1;
        node_rules(home, g, one, found)?;
        let goes = behind(home, g, one, &nodes[at..])?;
        if !goes {
            back(g, depth);
            return Ok(());
        }
    }
    back(g, depth);
    Ok(())
}

/// A body of a loop.
#[cycle(templates)]
fn turn(home: &Home<'_>, g: &mut Ground, body: &TNode, found: &mut Findings) -> Result<(), Oom>
    ensures does { OnOk result (found.new.first ≡ also found.old.first ((part_of (home_of home.now) body.now).rules (in_loop g.old))) }
    ensures same { OnOk result (g.new ≡ g.old) }
{
    let in_switch = mem::replace(&mut g.in_switch, false);
    node_rules(home, g, body, found)?;
    g.in_switch = in_switch;
    Ok(())
}

#[cycle(templates)]
#[tactic(auto, using(razor_rules::proofs::FirstLaws::also_nothing, crate::proofs::AlsoLemmas::also_alone))]
fn branch(
    home: &Home<'_>,
    g: &mut Ground,
    one: &Option<Boxed<TNode>>,
    found: &mut Findings,
) -> Result<(), Oom>
    ensures does { OnOk result (found.new.first ≡ also found.old.first
        (flat_map (λ it. it.rules g.old) (spec.option_list (option_map (part_of (home_of home.now)) one.now)))) }
    ensures same { OnOk result (g.new ≡ g.old) }
{
    match one {
        Some(one) => node_rules(home, g, one.get(), found),
        None => Ok(()),
    }
}

#[cycle(templates)]
#[tactic(auto, using(razor_rules::proofs::FirstLaws::also_append))]
fn if_rules(
    home: &Home<'_>,
    g: &mut Ground,
    yes: &TNode,
    no: &Option<Boxed<TNode>>,
    test: &Expr,
    found: &mut Findings,
) -> Result<(), Oom>
    ensures does { OnOk result (found.new.first ≡ also found.old.first (spec.test_rules test.now g.old ++ (part_of (home_of home.now) yes.now).rules g.old
        ++ flat_map (λ it. it.rules g.old) (spec.option_list (option_map (part_of (home_of home.now)) no.now)))) }
    ensures same { OnOk result (g.new ≡ g.old) }
{
    test_rules(home, g, test, found)?;
    node_rules(home, g, yes, found)?;
    branch(home, g, no, found)
}

#[cycle(templates)]
#[tactic(auto, using(razor_rules::proofs::FirstLaws::also_append))]
fn while_rules(
    home: &Home<'_>,
    g: &mut Ground,
    body: &TNode,
    test: &Expr,
    found: &mut Findings,
) -> Result<(), Oom>
    ensures does { OnOk result (found.new.first ≡ also found.old.first (spec.test_rules test.now g.old ++ (part_of (home_of home.now) body.now).rules (in_loop g.old))) }
    ensures same { OnOk result (g.new ≡ g.old) }
{
    test_rules(home, g, test, found)?;
    turn(home, g, body, found)
}

#[cycle(templates)]
fn for_rules(
    home: &Home<'_>,
    g: &mut Ground,
    body: &TNode,
    start: &Option<Stmt>,
    test: &Option<Expr>,
    step: &Option<Expr>,
    found: &mut Findings,
) -> Result<(), Oom>
    ensures does { OnOk result (found.new.first ≡ also found.old.first
        (spec.for_rules start.now test.now step.now (part_of (home_of home.now) body.now) g.old)) }
    ensures same { OnOk result (g.new ≡ g.old) }
{
    let depth = depth_of(g);
    let goes = start_rules(home, g, start, found)?;
    if !goes {
        return Ok(());
    }
    head_rules(home, g, test, step, found)?;
    turn(home, g, body, found)?;
    back(g, depth);
    Ok(())
}

#[cycle(templates)]
fn for_each_rules(
    home: &Home<'_>,
    g: &mut Ground,
    body: &TNode,
    name: &Ident,
    list: &Expr,
    found: &mut Findings,
) -> Result<(), Oom>
    ensures does { OnOk result (found.new.first ≡ also found.old.first
        (found_then (spec.item_ground name.now list.now (part_of (home_of home.now) body.now) g.old) (λ inner. (part_of (home_of home.now) body.now).rules (in_loop inner)))) }
    ensures same { OnOk result (g.new ≡ g.old) }
{
    let depth = depth_of(g);
    let goes = item_rules(home, g, body, name, list, found)?;
    if !goes {
        return Ok(());
    }
    turn(home, g, body, found)?;
    back(g, depth);
    Ok(())
}

#[cycle(templates)]
#[tactic(auto, using(razor_rules::proofs::TemplateLaws::section_law, razor_rules::proofs::FirstLaws::also_append))]
fn section_rules(
    home: &Home<'_>,
    g: &mut Ground,
    section: &TSection,
    given: &ExprType,
    found: &mut Findings,
) -> Result<(), Oom>
    ensures does { OnOk result (found.new.first ≡ also found.old.first ((part_of_section (home_of home.now) section.now).rules given.now g.old)) }
    ensures same { OnOk result (g.new ≡ g.old) }
{
    label_rules(home, section.labels.as_slice(), given, found)?;
    let in_switch = mem::replace(&mut g.in_switch, true);
    nodes_rules(home, g, section.items.as_slice(), found)?;
    g.in_switch = in_switch;
    Ok(())
}

#[cycle(templates)]
#[tactic(auto, using(razor_rules::proofs::FirstLaws::also_append, razor_rules::proofs::FirstLaws::also_nothing))]
fn sections_rules(
    home: &Home<'_>,
    g: &mut Ground,
    sections: &[TSection],
    given: &ExprType,
    found: &mut Findings,
) -> Result<(), Oom>
    ensures does { OnOk result (found.new.first ≡ also found.old.first
        (flat_map (λ one. one.rules given.now g.old) (map (part_of_section (home_of home.now)) sections.now))) }
    ensures same { OnOk result (g.new ≡ g.old) }
{
    for section in sections {
        section_rules(home, g, section, given, found)?;
    }
    Ok(())
}

#[cycle(templates)]
fn switch_rules(
    home: &Home<'_>,
    g: &mut Ground,
    sections: &[TSection],
    a: &Expr,
    found: &mut Findings,
) -> Result<(), Oom>
    ensures does { OnOk result (found.new.first ≡ also found.old.first
        (found_then (spec.decided a.now g.old) (λ given. flat_map (λ one. one.rules given g.old) (map (part_of_section (home_of home.now)) sections.now)))) }
    ensures same { OnOk result (g.new ≡ g.old) }
{
    match decided(home.alloc, g, a) {
        Ok(given) => sections_rules(home, g, sections, &given, found),
        Err(CheckFault::Broken { rule, place }) => {
            found.add(rule, place);
            Ok(())
        }
        Err(CheckFault::Oom) => Err(Oom),
    }
}

#[cycle(templates)]
#[tactic(auto, using(razor_rules::proofs::FirstLaws::also_append, razor_rules::proofs::FirstLaws::also_nothing))]
fn element(
    home: &Home<'_>,
    g: &mut Ground,
    nodes: &[TNode],
    name: &Txt,
    attributes: &[Attribute],
    found: &mut Findings,
) -> Result<(), Oom>
    ensures does { OnOk result (found.new.first ≡ also found.old.first
        (element_spec (home_of home.now) name.now attributes.now g.old ++ in_order (map (part_of (home_of home.now)) nodes.now) g.old)) }
    ensures same { OnOk result (g.new ≡ g.old) }
{
    element_rules(home, g, name, attributes, found)?;
    nodes_rules(home, g, nodes, found)
}

/// The rules of a node.
#[cycle(templates)]
#[tactic(auto, using(razor_rules::proofs::FirstLaws::also_append, razor_rules::proofs::FirstLaws::also_nothing, crate::proofs::RuleLaws::element_rules_law, crate::proofs::RuleLaws::child_rules_law, crate::proofs::RuleLaws::text_rules_law, crate::proofs::RuleLaws::raw_rules_law, crate::proofs::RuleLaws::content_rules_law, crate::proofs::RuleLaws::group_rules_law, crate::proofs::RuleLaws::statement_rules_law, crate::proofs::RuleLaws::block_rules_law, crate::proofs::RuleLaws::if_rules_law, crate::proofs::RuleLaws::switch_rules_law, crate::proofs::RuleLaws::for_rules_law, crate::proofs::RuleLaws::for_each_rules_law, crate::proofs::RuleLaws::while_rules_law))]
pub fn node_rules(
    home: &Home<'_>,
    g: &mut Ground,
    one: &TNode,
    found: &mut Findings,
) -> Result<(), Oom>
    ensures does { OnOk result (found.new.first ≡ also found.old.first ((part_of (home_of home.now) one.now).rules g.old)) }
    ensures same { OnOk result (g.new ≡ g.old) }
{
    match one {
        TNode::Element {
            name,
            attributes,
            children,
            ..
        } => element(
            home,
            g,
            children.as_slice(),
            &name.name,
            attributes.as_slice(),
            found,
        ),
        TNode::Child {
            place,
            name,
            attributes,
            children,
            ..
        } => component_rules(
            home,
            g,
            children.as_slice(),
            *place,
            name,
            attributes.as_slice(),
            found,
        ),
        TNode::Text { .. } => Ok(()),
        TNode::Raw { .. } => Ok(()),
        TNode::Content { value, .. } => content_rules(home, g, value, found),
        TNode::Group { items, .. } => nodes_rules(home, g, items.as_slice(), found),
        TNode::Statement(one) => statement_rules(home, g, one, found),
        TNode::Block { items, .. } => nodes_rules(home, g, items.as_slice(), found),
        TNode::If {
            condition,
            yes,
            no,
            ..
        } => if_rules(home, g, yes.get(), no, condition, found),
        TNode::Switch {
            value,
            sections,
            ..
        } => switch_rules(home, g, sections.as_slice(), value, found),
        TNode::For {
            start,
            condition,
            step,
            body,
            ..
        } => for_rules(home, g, body.get(), start, condition, step, found),
        TNode::ForEach {
            name,
            list,
            body,
            ..
        } => for_each_rules(home, g, body.get(), name, list, found),
        TNode::While {
            condition,
            body,
            ..
        } => while_rules(home, g, body.get(), condition, found),
    }
}
