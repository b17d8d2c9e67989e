// The stage and the screen through their bounds, over a counter: a button that shows how often it was clicked.
ghost use Rattle.std.specs.Prelude.{◌≡◌, ◌+◌, ◌≤◌, IfOk, OnOk};
ghost use Rattle.hub_messages.specs.Stage.{made_after};
ghost use Rattle.cs_meaning.specs.FirstForms.{IsStatement};
ghost use Rattle.plain_page.specs.Runnable.{IsRunnable};
ghost use Rattle.first_click.specs.Weight.{weight};

use cs_ast::{Code, StepOp, Variable};
use first_click::{Component, Field, Item, Method};
use hub_messages::{Acted, At, Bytes, Made, Outcome, PrintScreen, Screen, ScreenFault, Stage};
use page_core::{ApplyFault, BatchFault, Counts};
use plain_page::{PlainScreen, PlainStage};
use sqlite_items::{Boxed, Items};
use std::alloc::Global;
use std::process::Abort;
use std::test::Fail;
use text_core::{Oom, Txt};

const NO_COUNTS: Counts = Counts {
    prepend: 0,
    remove: 0,
    set: 0,
    unset: 0,
    text: 0,
    step_in: 0,
    step_out: 0,
    markup: 0,
    moves: 0,
    ends: 0,
};

/// `Add() { n++; }`
fn adding(alloc: Global) -> Result<Method, Oom>
    ensures { IfOk result (λ method. IsStatement 1 method.body) }
{
    let name = Txt::from_str(alloc, "Add")?;
    let step = Boxed::new(alloc, Code::Step(Variable::Field(0), StepOp::Increment))?;
    Ok(Method {
        name,
        body: Code::Perform(step),
    })
}

/// `<button @onclick="Add">@n</button>`
fn button(alloc: Global) -> Result<Item, Oom>
    ensures { IfOk result (λ item. weight item ≤ 1000) }
{
    let mut name = Txt::new(alloc);
    name.push_str("button")?;
    let mut children = Items::new(alloc);
    children.push(Item::Shown {
        field: Txt::from_str(alloc, "n")?,
    })?;
    Ok(Item::Element {
        name,
        handler: Some(1),
        children,
    })
}

fn counter(alloc: Global) -> Result<Component, Oom>
    ensures { IfOk result IsRunnable }
{
    let mut fields = Items::new(alloc);
    fields.push(Field::new(Txt::from_str(alloc, "n")?, 0))?;
    let mut methods = Items::new(alloc);
    methods.push(adding(alloc)?)?;
    let mut handlers = Items::new(alloc);
    handlers.push(0)?;
    let mut items = Items::new(alloc);
    items.push(button(alloc)?)?;
    Ok(Component {
        fields,
        methods,
        handlers,
        items,
    })
}

fn act_through<S: Stage>(
    stage: &mut S,
    handler: u64,
    name: &Txt,
    text: Option<&Txt>,
) -> Result<Acted, Oom>
    requires { S.released stage.old ≡ 0 }
    ensures made { OnOk result (S.made stage.new ≡ S.made stage.old) }
    ensures released { OnOk result (S.released stage.new ≡ 0) }
{
    stage.act(handler, name, text, 0)
}

fn render_through<S: Stage>(stage: &mut S, number: u64) -> Result<Made, Oom>
    requires { number ≡ S.made stage.old + 1 }
    ensures made { IfOk result (λ answer. S.made stage.new ≡ made_after (S.made stage.old) answer) }
    ensures released { OnOk result (S.released stage.new ≡ S.released stage.old) }
{
    stage.render(number)
}

fn is_dirty_through<S: Stage>(stage: &S) -> bool {
    stage.is_dirty()
}

fn release_through<S: Stage>(stage: &mut S, acked: u64) {
    stage.release(acked);
}

fn apply_through<V: Screen>(
    screen: &mut V,
    number: u64,
    bytes: &[u8],
) -> Result<Counts, ScreenFault> {
    screen.apply(number, bytes)
}

fn handler_through<V: Screen>(screen: &V, path: &[u32], event: &Txt) -> At {
    screen.handler_at(path, event)
}

/// What a click on the counter comes to, or another event, behind the first batch.
fn acted_on(alloc: Global, handler: u64, name: &str, text: Option<&Txt>) -> Result<Acted, Oom> {
    let mut stage = PlainStage::new(alloc, counter(alloc)?)?;
    let Made::Batch(_) = render_through(&mut stage, 1)? else {
        return Err(Oom);
    };
    act_through(&mut stage, handler, &Txt::from_str(alloc, name)?, text)
}

#[test]
fn acts_on_its_handlers(rt: HostRuntime) -> Result<(), Fail> {
    let alloc = rt.alloc();
    let typed = Txt::from_str(alloc, "x")?;
    for (handler, name, text, expected) in [
        (1, "onclick", None, Outcome::Acted),
        (0, "onclick", None, Outcome::HandlerUnknown),
        (2, "onclick", None, Outcome::HandlerUnknown),
        (2, "oninput", Some(&typed), Outcome::HandlerUnknown),
        (1, "oninput", Some(&typed), Outcome::WrongEvent),
        (1, "onclick", Some(&typed), Outcome::BadArguments),
    ] {
        let acted = acted_on(alloc, handler, name, text)?;
        assert!(rt;
            acted == Acted::Outcome(expected),
            "handler {handler}, {name}"
        );
    }
    Ok(())
}

/// The page that the screen shows, as it prints.
fn printed<V: PrintScreen>(alloc: Global, screen: &V) -> Result<Txt, Oom> {
    screen.print(alloc)
}

/// The bytes of a batch.
fn bytes_of(rt: &impl Abort, made: Made) -> Bytes {
    match made {
        Made::Batch(bytes) => bytes,
        Made::Fault(_) => panic!(rt; "no batch"),
    }
}

#[test]
fn shows_each_click(rt: HostRuntime) -> Result<(), Fail> {
    let alloc = rt.alloc();
    let click = Txt::from_str(alloc, "onclick")?;
    let mut stage = PlainStage::new(alloc, counter(alloc)?)?;
    let mut screen = PlainScreen::new(alloc);
    let early = act_through(&mut stage, 1, &click, None)?;
    assert!(rt; early == Acted::Outcome(Outcome::HandlerUnknown));

    let made = render_through(&mut stage, 1)?;
    let Made::Batch(first) = made else {
        panic!(rt; "no batch");
    };
    let counts = apply_through(&mut screen, 1, first.as_slice());
    assert!(rt;
        counts
            == Ok(Counts {
                prepend: 1,
                ..NO_COUNTS
            })
    );
    assert_eq!(rt; printed(alloc, &screen)?.as_str(), "<button>0</button>");
    assert!(rt; !is_dirty_through(&stage));

    let acted = act_through(&mut stage, 1, &click, None)?;
    assert!(rt; acted == Acted::Outcome(Outcome::Acted));
    assert!(rt; is_dirty_through(&stage));
    let second = bytes_of(&rt, render_through(&mut stage, 2)?);
    let counts = apply_through(&mut screen, 2, second.as_slice());
    let changed = Counts {
        text: 1,
        step_in: 1,
        step_out: 1,
        ..NO_COUNTS
    };
    assert!(rt; counts == Ok(changed));
    assert_eq!(rt; printed(alloc, &screen)?.as_str(), "<button>1</button>");
    release_through(&mut stage, 2);
    Ok(())
}

/// A screen that shows the counter.
fn shown(rt: &impl Abort, alloc: Global) -> Result<PlainScreen, Oom> {
    let mut stage = PlainStage::new(alloc, counter(alloc)?)?;
    let mut screen = PlainScreen::new(alloc);
    let first = bytes_of(rt, render_through(&mut stage, 1)?);
    let counts = apply_through(&mut screen, 1, first.as_slice());
    assert!(rt; counts.is_ok());
    Ok(screen)
}

#[test]
fn finds_handlers(rt: HostRuntime) -> Result<(), Fail> {
    let alloc = rt.alloc();
    let screen = shown(&rt, alloc)?;
    for (path, event, expected) in [
        ([0].as_slice(), "onclick", At::Handler(1)),
        (&[0], "oninput", At::NoHandler),
        (&[1], "onclick", At::NoNode),
        (&[0, 0], "onclick", At::NoNode),
        (&[], "onclick", At::NoNode),
    ] {
        let found = handler_through(&screen, path, &Txt::from_str(alloc, event)?);
        assert!(rt; found == expected, "{event} at a path of {path:?}");
    }
    Ok(())
}

#[test]
fn refuses_bad_batches(rt: HostRuntime) -> Result<(), Fail> {
    let alloc = rt.alloc();
    let mut screen = shown(&rt, alloc)?;
    for (bytes, expected) in [
        (b"".as_slice(), ScreenFault::Read(BatchFault::BadSubtree)),
        (b"\x07", ScreenFault::Read(BatchFault::BadSubtree)),
        (b"\x00\x00", ScreenFault::Read(BatchFault::BadSubtree)),
        (b"\x00", ScreenFault::Apply(ApplyFault::NotText)),
    ] {
        let answer = apply_through(&mut screen, 2, bytes);
        assert!(rt; answer == Err(expected), "{bytes:?}");
        assert_eq!(rt; printed(alloc, &screen)?.as_str(), "<button>0</button>");
    }
    Ok(())
}
