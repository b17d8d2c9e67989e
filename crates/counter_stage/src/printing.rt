// The page of a counter's screen, printed.
ghost use Rattle.std.specs.Prelude.{◌≡◌, codes, IfOk, IsTrue};
ghost use Rattle.text_core.specs.Ascii.{is_ascii};
ghost use Rattle.counter_stage.specs.Tree as spec;

use crate::{CounterScreen, CounterTree};
use hub_messages::PrintScreen;
use page_core::{Attributes, HandlerIds, Node, Page, print};
use sqlite_items::Items;
use std::alloc::Global;
use text_core::{Oom, Txt, show_i32};

fn word(alloc: Global, word: &str) -> Result<Txt, Oom>
    requires { IsTrue (is_ascii word.now) }
    ensures { IfOk result (λ text. text ≡ word.now) }
{
    let mut text = Txt::new(alloc);
    text.push_str(word)?;
    Ok(text)
}

fn text_of(alloc: Global, number: u8) -> Result<Items<Node>, Oom>
    ensures { IfOk result (λ nodes. nodes ≡ spec.text_of number) }
{
    let mut nodes = Items::new(alloc);
    let text = show_i32(alloc, i32::from(number))?;
    nodes.push(Node::Text { born: 1, text })?;
    Ok(nodes)
}

fn button(alloc: Global, number: u8) -> Result<Node, Oom>
    ensures { IfOk result (λ node. node ≡ spec.button number) }
{
    let mut handlers = HandlerIds::new(alloc);
    handlers.set(word(alloc, "onclick")?, 1)?;
    Ok(Node::Element {
        born: 1,
        name: word(alloc, "button")?,
        attributes: Attributes::new(alloc),
        handlers,
        children: text_of(alloc, number)?,
    })
}

fn page_of(alloc: Global, tree: CounterTree) -> Result<Page, Oom>
    ensures { IfOk result (λ page. page.nodes ≡ spec.page_of tree) }
{
    let mut nodes = Items::new(alloc);
    if let CounterTree::Shows(number) = tree {
        nodes.push(button(alloc, number)?)?;
    }
    Ok(Page { nodes })
}

impl PrintScreen for CounterScreen {
    fn print(&self, alloc: Global) -> Result<Txt, Oom> {
        print(alloc, &page_of(alloc, self.tree)?)
    }
}
