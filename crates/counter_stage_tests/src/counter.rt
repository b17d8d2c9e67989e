// The stage and the screen, through their traits.
ghost use Rattle.std.specs.Prelude.{◌≡◌, ◌+◌, OnOk};

use counter_stage::{CounterScreen, CounterStage, CounterTree};
use hub_messages::{Acted, At, CircuitFault, Made, Outcome, Screen, ScreenFault, Stage};
use page_core::{BatchFault, Counts};
use std::alloc::Global;
use std::process::Abort;
use std::test::Fail;
use text_core::{Oom, Txt};

// An event: the handler's id, the event's name, and the text that it carries.
type Event = (u64, &'static str, Option<&'static str>);

fn acts<S: Stage>(
    rt: &impl Abort,
    alloc: Global,
    stage: &mut S,
    event: Event,
    want: Acted,
) -> Result<(), Oom>
    requires { S.released stage.old ≡ 0 }
    ensures made { OnOk result (S.made stage.new ≡ S.made stage.old) }
    ensures released { OnOk result (S.released stage.new ≡ 0) }
{
    let (handler, name, text) = event;
    let name = Txt::from_str(alloc, name)?;
    let acted = match text {
        Some(text) => stage.act(handler, &name, Some(&Txt::from_str(alloc, text)?), 0)?,
        None => stage.act(handler, &name, None, 0)?,
    };
    assert_eq!(rt; acted, want);
    Ok(())
}

fn draws<S: Stage>(rt: &impl Abort, stage: &mut S, number: u64, want: &[u8]) -> Result<(), Oom>
    requires { number ≡ S.made stage.old + 1 }
    ensures made { OnOk result (S.made stage.new ≡ number) }
    ensures released { OnOk result (S.released stage.new ≡ S.released stage.old) }
{
    match stage.render(number)? {
        Made::Batch(bytes) => {
            assert_eq!(rt; bytes.as_slice(), want);
            Ok(())
        }
        Made::Fault(_) => {
            assert!(rt; false, "batch {number}");
            Err(Oom)
        }
    }
}

#[test]
fn counts_clicks(rt: HostRuntime) -> Result<(), Fail> {
    let alloc = rt.alloc();
    let mut stage = CounterStage::new(alloc, 254);
    acts(
        &rt,
        alloc,
        &mut stage,
        (1, "onclick", None),
        Acted::Outcome(Outcome::HandlerUnknown),
    )?;
    draws(&rt, &mut stage, 1, &[254])?;
    acts(
        &rt,
        alloc,
        &mut stage,
        (2, "onclick", None),
        Acted::Outcome(Outcome::HandlerUnknown),
    )?;
    acts(
        &rt,
        alloc,
        &mut stage,
        (1, "onkeydown", None),
        Acted::Outcome(Outcome::WrongEvent),
    )?;
    acts(
        &rt,
        alloc,
        &mut stage,
        (1, "onclick", Some("a")),
        Acted::Outcome(Outcome::BadArguments),
    )?;
    assert!(rt; !stage.is_dirty());
    acts(
        &rt,
        alloc,
        &mut stage,
        (1, "onclick", None),
        Acted::Outcome(Outcome::Acted),
    )?;
    assert!(rt; stage.is_dirty());
    draws(&rt, &mut stage, 2, &[255])?;
    acts(
        &rt,
        alloc,
        &mut stage,
        (1, "onclick", None),
        Acted::Fault(CircuitFault::Overflow),
    )?;
    stage.release(2);
    assert_eq!(rt; stage.state.released, 2);
    Ok(())
}

fn takes<B: Screen>(
    rt: &impl Abort,
    screen: &mut B,
    number: u64,
    bytes: &[u8],
    want: Result<Counts, ScreenFault>,
) {
    assert_eq!(rt; screen.apply(number, bytes), want);
}

fn finds<B: Screen>(rt: &impl Abort, screen: &B, path: &[u32], event: &Txt, want: At) {
    assert_eq!(rt; screen.handler_at(path, event), want, "{path:?}");
}

const NONE: Counts = Counts {
    prepend: 0,
    remove: 0,
    set: 0,
    unset: 0,
    text: 0,
    step_in: 0,
    step_out: 0,
    markup: 0,
    moves: 0,
    ends: 0,
};

#[test]
fn shows_the_count(rt: HostRuntime) -> Result<(), Fail> {
    let alloc = rt.alloc();
    let click = Txt::from_str(alloc, "onclick")?;
    let key = Txt::from_str(alloc, "onkeydown")?;
    let mut screen = CounterScreen::new();
    finds(&rt, &screen, &[0], &click, At::NoNode);
    takes(&rt, &mut screen, 1, &[7], Ok(Counts { prepend: 1, ..NONE }));
    takes(
        &rt,
        &mut screen,
        2,
        &[8],
        Ok(Counts {
            text: 1,
            step_in: 1,
            step_out: 1,
            ..NONE
        }),
    );
    takes(
        &rt,
        &mut screen,
        3,
        &[],
        Err(ScreenFault::Read(BatchFault::Short)),
    );
    takes(
        &rt,
        &mut screen,
        3,
        &[1, 2],
        Err(ScreenFault::Read(BatchFault::Short)),
    );
    assert_eq!(rt; screen.tree, CounterTree::Shows(8));
    finds(&rt, &screen, &[0], &click, At::Handler(1));
    finds(&rt, &screen, &[0], &key, At::NoHandler);
    for path in [&[][..], &[1], &[0, 0], &[0, 0, 0]] {
        finds(&rt, &screen, path, &click, At::NoNode);
    }
    Ok(())
}
