// What an edit makes of the one node that it changes.
ghost use Rattle.std.specs.Prelude.{Result, Ok, Err};
ghost use Rattle.edit_meaning.specs.Edits.{with_attribute, without_attribute, with_text, with_markup};
ghost use Rattle.edit_meaning.specs.declared.browser_node.BrowserNode.TheViews.{out-BrowserNode};
ghost use Rattle.browser_tree.specs.Answers.{Gives};

use crate::names;
use edit_meaning::BrowserNode;
use frame_core::WireAttribute;
use page_core::ApplyFault;
use text_core::Txt;

/// With an attribute of this value.
pub fn set_attribute(
    node: BrowserNode,
    attribute: &WireAttribute,
) -> Result<BrowserNode, ApplyFault>
    ensures { Gives (λ made. made) result (with_attribute attribute.now (out-BrowserNode node)) }
{
    match node {
        BrowserNode::Element {
            born,
            name,
            names,
            children,
        } => Ok(BrowserNode::Element {
            born,
            name,
            names: names::set(names, attribute)?,
            children,
        }),
        BrowserNode::Text { .. } => Err(ApplyFault::NotElement),
        BrowserNode::Markup { .. } => Err(ApplyFault::NotElement),
        BrowserNode::Component(_) => Err(ApplyFault::NotElement),
    }
}

/// Without the attribute of a name.
pub fn unset_attribute(node: BrowserNode, name: &Txt) -> Result<BrowserNode, ApplyFault>
    ensures { Gives (λ made. made) result (without_attribute name.now (out-BrowserNode node)) }
{
    match node {
        BrowserNode::Element {
            born,
            name: tag,
            names,
            children,
        } => {
            if !names::has(&names, name) {
                return Err(ApplyFault::NoAttribute);
            }
            Ok(BrowserNode::Element {
                born,
                name: tag,
                names: names::unset(names, name),
                children,
            })
        }
        BrowserNode::Text { .. } => Err(ApplyFault::NotElement),
        BrowserNode::Markup { .. } => Err(ApplyFault::NotElement),
        BrowserNode::Component(_) => Err(ApplyFault::NotElement),
    }
}

/// With another text.
pub fn set_text(node: BrowserNode, text: &Txt) -> Result<BrowserNode, ApplyFault>
    ensures { Gives (λ made. made) result (with_text text.now (out-BrowserNode node)) }
{
    match node {
        BrowserNode::Text { born, .. } => Ok(BrowserNode::Text {
            born,
            text: text.clone()?,
        }),
        BrowserNode::Element { .. } => Err(ApplyFault::NotText),
        BrowserNode::Markup { .. } => Err(ApplyFault::NotText),
        BrowserNode::Component(_) => Err(ApplyFault::NotText),
    }
}

/// With other markup.
pub fn set_markup(node: BrowserNode, text: &Txt) -> Result<BrowserNode, ApplyFault>
    ensures { Gives (λ made. made) result (with_markup text.now (out-BrowserNode node)) }
{
    match node {
        BrowserNode::Markup { born, .. } => Ok(BrowserNode::Markup {
            born,
            text: text.clone()?,
        }),
        BrowserNode::Element { .. } => Err(ApplyFault::NotText),
        BrowserNode::Text { .. } => Err(ApplyFault::NotText),
        BrowserNode::Component(_) => Err(ApplyFault::NotText),
    }
}
