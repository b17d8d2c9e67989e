// A circuit over a counter, through the bound.
ghost use Rattle.std.specs.Prelude.{◌≢◌, ◌≤◌, IfOk};
ghost use Rattle.hub_messages.specs.Stage.{IsFirst};

use circuit_core::{AckDone, Circuit};
use counter_stage::CounterStage;
use hub_messages::{CircuitFault, Down, Outcome, Refusal, Stage, Up};
use std::alloc::Global;
use std::process::Abort;
use std::test::Fail;
use text_core::{Oom, Txt};

// A reply in short; a batch by its number and the number that it shows.
#[derive(Clone, Copy, Debug, PartialEq, Eq)]
enum Said {
    Connected { sent: u64, last: u64 },
    Batch(u64, u8),
    Outcome(u64, Outcome),
    Refused(Refusal),
    Ended(CircuitFault),
    Other,
}

fn short_form(reply: &Down) -> Said {
    match reply {
        Down::Connected { sent, last } => Said::Connected {
            sent: *sent,
            last: *last,
        },
        Down::Batch { number, bytes } => match bytes.as_slice() {
            [shown] => Said::Batch(*number, *shown),
            _ => Said::Other,
        },
        Down::Outcome { event, outcome } => Said::Outcome(*event, *outcome),
        Down::Refused(refusal) => Said::Refused(*refusal),
        Down::Ended(fault) => Said::Ended(*fault),
        Down::Started { .. } => Said::Other,
    }
}

fn are(rt: &impl Abort, replies: &[Down], want: &[Said]) {
    assert_eq!(rt; replies.len(), want.len(), "{replies:?}");
    for (reply, want) in replies.iter().zip(want) {
        assert_eq!(rt; short_form(reply), *want, "{replies:?}");
    }
}

fn starts<S: Stage + Drop>(
    rt: &impl Abort,
    alloc: Global,
    stage: S,
    window: u32,
    want: &[Said],
) -> Result<Circuit<S>, Oom>
    requires from { 1 ≤ window }
    requires to { window ≤ 64 }
    requires first { IsFirst S.machine S.stands stage }
{
    let (circuit, replies) = Circuit::start(alloc, stage, window, 1)?;
    are(rt, &replies, want);
    Ok(circuit)
}

fn hears<S: Stage>(
    rt: &impl Abort,
    circuit: &mut Circuit<S>,
    connection: u64,
    message: &Up,
    want: &[Said],
) -> Result<(), Oom>
    requires { message.now ≢ Up.Start }
{
    let replies = circuit.step(connection, message)?;
    are(rt, &replies, want);
    Ok(())
}

fn click(alloc: Global, number: u64, got: u64) -> Result<Up, Oom>
    ensures { IfOk result (λ message. message ≢ Up.Start) }
{
    Ok(Up::Event {
        number,
        handler: 1,
        got,
        name: Txt::from_str(alloc, "onclick")?,
        text: None,
    })
}

fn ack(batch: u64) -> Up
    ensures { result ≢ Up.Start }
{
    Up::Ack { batch, got: 0 }
}

fn connect(applied: u64, got: u64) -> Up
    ensures { result ≢ Up.Start }
{
    Up::Connect {
        number: 1,
        secret: 7,
        applied,
        got,
    }
}

const ACTED: Outcome = Outcome::Acted;

#[test]
fn refuses_by_the_rules(rt: HostRuntime) -> Result<(), Fail> {
    let alloc = rt.alloc();
    let mut circuit = starts(
        &rt,
        alloc,
        CounterStage::new(alloc, 0),
        64,
        &[Said::Batch(1, 0)],
    )?;
    hears(
        &rt,
        &mut circuit,
        1,
        &click(alloc, 1, 0)?,
        &[Said::Outcome(1, ACTED), Said::Batch(2, 1)],
    )?;
    hears(
        &rt,
        &mut circuit,
        1,
        &click(alloc, 2, 0)?,
        &[Said::Outcome(2, ACTED), Said::Batch(3, 2)],
    )?;
    hears(&rt, &mut circuit, 1, &ack(1), &[])?;
    hears(
        &rt,
        &mut circuit,
        1,
        &ack(9),
        &[Said::Refused(Refusal::AckAhead { sent: 3 })],
    )?;
    hears(
        &rt,
        &mut circuit,
        1,
        &click(alloc, 5, 0)?,
        &[Said::Refused(Refusal::Early { next: 3 })],
    )?;
    hears(
        &rt,
        &mut circuit,
        2,
        &connect(4, 0),
        &[Said::Refused(Refusal::AppliedAhead { sent: 3 })],
    )?;
    hears(
        &rt,
        &mut circuit,
        2,
        &connect(1, 3),
        &[Said::Refused(Refusal::GotAhead { last: 2 })],
    )?;
    assert_eq!(rt;
        (circuit.sent(), circuit.acked(), circuit.last()),
        (3, 1, 2)
    );
    assert_eq!(rt; circuit.ended(), None);
    hears(&rt, &mut circuit, 1, &ack(2), &[])?;
    hears(
        &rt,
        &mut circuit,
        2,
        &connect(1, 0),
        &[Said::Refused(Refusal::BatchesGone { acked: 2 })],
    )?;
    assert_eq!(rt; circuit.ack(9), AckDone::Ahead { sent: 3 });
    assert_eq!(rt; circuit.ack(3), AckDone::Moved);
    assert_eq!(rt; circuit.ack(2), AckDone::Old);
    assert_eq!(rt; circuit.acked(), 3);
    Ok(())
}

#[test]
fn acts_once(rt: HostRuntime) -> Result<(), Fail> {
    let alloc = rt.alloc();
    let mut circuit = starts(
        &rt,
        alloc,
        CounterStage::new(alloc, 0),
        8,
        &[Said::Batch(1, 0)],
    )?;
    hears(
        &rt,
        &mut circuit,
        1,
        &click(alloc, 1, 0)?,
        &[Said::Outcome(1, ACTED), Said::Batch(2, 1)],
    )?;
    for _ in 0..2 {
        hears(
            &rt,
            &mut circuit,
            1,
            &click(alloc, 1, 0)?,
            &[Said::Outcome(1, ACTED)],
        )?;
    }
    let missed = [
        Said::Connected { sent: 2, last: 1 },
        Said::Outcome(1, ACTED),
        Said::Batch(2, 1),
    ];
    hears(&rt, &mut circuit, 2, &connect(1, 0), &missed)?;
    hears(
        &rt,
        &mut circuit,
        2,
        &click(alloc, 1, 0)?,
        &[Said::Outcome(1, ACTED)],
    )?;
    hears(&rt, &mut circuit, 1, &click(alloc, 2, 0)?, &[])?;
    hears(
        &rt,
        &mut circuit,
        2,
        &click(alloc, 2, 1)?,
        &[Said::Outcome(2, ACTED), Said::Batch(3, 2)],
    )?;
    hears(&rt, &mut circuit, 2, &click(alloc, 1, 0)?, &[])?;
    assert!(rt; !circuit.closed(1));
    assert!(rt; circuit.closed(2));
    hears(&rt, &mut circuit, 2, &ack(3), &[])?;
    assert_eq!(rt; circuit.acked(), 1);
    Ok(())
}

#[test]
fn keeps_to_its_limits(rt: HostRuntime) -> Result<(), Fail> {
    let alloc = rt.alloc();
    let mut circuit = starts(
        &rt,
        alloc,
        CounterStage::new(alloc, 0),
        1,
        &[Said::Batch(1, 0)],
    )?;
    for number in 1..65 {
        hears(
            &rt,
            &mut circuit,
            1,
            &click(alloc, number, 0)?,
            &[Said::Outcome(number, ACTED)],
        )?;
    }
    hears(
        &rt,
        &mut circuit,
        1,
        &click(alloc, 65, 0)?,
        &[Said::Refused(Refusal::OutcomesFull { oldest: 1 })],
    )?;
    hears(&rt, &mut circuit, 1, &ack(1), &[Said::Batch(2, 64)])?;
    hears(
        &rt,
        &mut circuit,
        1,
        &click(alloc, 65, 1)?,
        &[Said::Outcome(65, ACTED)],
    )?;
    Ok(())
}

#[test]
fn ends_with_a_fault(rt: HostRuntime) -> Result<(), Fail> {
    let alloc = rt.alloc();
    let over = [Said::Ended(CircuitFault::Overflow)];
    let mut circuit = starts(
        &rt,
        alloc,
        CounterStage::new(alloc, 255),
        8,
        &[Said::Batch(1, 255)],
    )?;
    hears(&rt, &mut circuit, 1, &click(alloc, 1, 0)?, &over)?;
    hears(&rt, &mut circuit, 1, &click(alloc, 2, 0)?, &over)?;
    hears(&rt, &mut circuit, 2, &connect(1, 0), &over)?;
    hears(&rt, &mut circuit, 2, &ack(1), &[])?;
    assert_eq!(rt; circuit.ack(1), AckDone::Old);
    assert_eq!(rt; circuit.ended(), Some(CircuitFault::Overflow));
    Ok(())
}
