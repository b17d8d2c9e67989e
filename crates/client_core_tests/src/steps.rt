// A client of the smallest screen: what it answers, and which bytes it sends.
use client_core::{Client, Ups};
use counter_stage::{CounterScreen, CounterTree};
use hub_messages::{Asked, CircuitFault, Got, Outcome, Refusal, Screen, ScreenFault};
use page_core::{BatchFault, Counts};
use std::alloc::Global;
use std::process::Abort;
use std::test::Fail;
use text_core::{Oom, Txt};

// Circuit 7 with the secret 9.
const STARTED: &[u8] = b"\x81\x07\0\0\0\0\0\0\0\x09\0\0\0\0\0\0\0";
// Batch 1, event 0.
const CONNECTED: &[u8] = b"\x82\x01\0\0\0\0\0\0\0\0\0\0\0\0\0\0\0";
// The numbers 5 and 6 on the button.
const BATCH_1: &[u8] = b"\x83\x01\0\0\0\0\0\0\0\x01\0\0\0\x05";

const BATCH_2: &[u8] = b"\x83\x02\0\0\0\0\0\0\0\x01\0\0\0\x06";

const BATCH_3: &[u8] = b"\x83\x03\0\0\0\0\0\0\0\x01\0\0\0\x07";

const LONG_BATCH_2: &[u8] = b"\x83\x02\0\0\0\0\0\0\0\x02\0\0\0\x06\x06";
// Events 1 and 2 acted.
const ACTED_1: &[u8] = b"\x84\x01\0\0\0\0\0\0\0\x01";

const ACTED_2: &[u8] = b"\x84\x02\0\0\0\0\0\0\0\x01";

const REFUSED_MALFORMED: &[u8] = b"\x85\x01";

const CIRCUIT_UNKNOWN: &[u8] = b"\x85\x04";

const DIVIDED_BY_ZERO: &[u8] = b"\x86\x01";

const START: &[u8] = b"\x01\x01";
// Circuit 7 with the secret 9; batch 1 is applied, no event answered.
const CONNECT: &[u8] =
    b"\x02\x01\x07\0\0\0\0\0\0\0\x09\0\0\0\0\0\0\0\x01\0\0\0\0\0\0\0\0\0\0\0\0\0\0\0";
// Batches up to 1 and 2, no event answered.
const ACK_1: &[u8] = b"\x04\x01\0\0\0\0\0\0\0\0\0\0\0\0\0\0\0";

const ACK_2: &[u8] = b"\x04\x02\0\0\0\0\0\0\0\0\0\0\0\0\0\0\0";
// Events on the handler 1, none answered. The second carries the text "a".
const CLICK_1: &[u8] = b"\x03\x01\0\0\0\0\0\0\0\x01\0\0\0\0\0\0\0\0\0\0\0\0\0\0\0\x07onclick\0";

const CLICK_2: &[u8] =
    b"\x03\x02\0\0\0\0\0\0\0\x01\0\0\0\0\0\0\0\0\0\0\0\0\0\0\0\x07onclick\x01\x01a";

const FIRST: Counts = Counts {
    prepend: 1,
    remove: 0,
    set: 0,
    unset: 0,
    text: 0,
    step_in: 0,
    step_out: 0,
    markup: 0,
    moves: 0,
    ends: 0,
};

const LATER: Counts = Counts {
    prepend: 0,
    text: 1,
    step_in: 1,
    step_out: 1,
    ..FIRST
};

fn are_sent(rt: &impl Abort, ups: &Ups, want: &[&[u8]]) {
    assert_eq!(rt; ups.len(), want.len());
    for (up, want) in ups.iter().zip(want) {
        assert_eq!(rt; up.as_slice(), *want);
    }
}

fn hears<B: Screen>(
    rt: &impl Abort,
    client: &mut Client<B>,
    bytes: &[u8],
    want: Got,
    sent: &[&[u8]],
) -> Result<(), Oom> {
    let (got, ups) = client.receive(1, bytes)?;
    assert_eq!(rt; got, want);
    are_sent(rt, &ups, sent);
    Ok(())
}

fn clicks<B: Screen>(
    rt: &impl Abort,
    client: &mut Client<B>,
    path: &[u32],
    event: &Txt,
    want: Asked,
    sent: &[&[u8]],
) -> Result<(), Oom> {
    assert!(rt; event.as_str().len() <= 100);
    let (asked, ups) = client.user(path, event, None)?;
    assert_eq!(rt; asked, want, "{path:?}");
    are_sent(rt, &ups, sent);
    Ok(())
}

fn sends_text<B: Screen>(
    rt: &impl Abort,
    client: &mut Client<B>,
    event: &Txt,
    text: &Txt,
    want: Asked,
    sent: &[&[u8]],
) -> Result<(), Oom> {
    assert!(rt; event.as_str().len() <= 100);
    assert!(rt; text.as_str().len() <= 100);
    let (asked, ups) = client.user(&[0], event, Some(text))?;
    assert_eq!(rt; asked, want);
    are_sent(rt, &ups, sent);
    Ok(())
}

// A client whose connection 1 is open and that has applied batch 1.
fn open_client(rt: &impl Abort, alloc: Global) -> Result<Client<CounterScreen>, Oom> {
    let mut client = Client::new(alloc, CounterScreen::new());
    are_sent(rt, &client.connect(1)?, &[START]);
    hears(rt, &mut client, STARTED, Got::Opened, &[])?;
    hears(
        rt,
        &mut client,
        BATCH_1,
        Got::Applied {
            number: 1,
            counts: FIRST,
        },
        &[ACK_1],
    )?;
    Ok(client)
}

#[test]
fn nothing_before_it_is_open(rt: HostRuntime) -> Result<(), Fail> {
    let mut client = Client::new(rt.alloc(), CounterScreen::new());
    let event = Txt::from_str(rt.alloc(), "onclick")?;
    clicks(&rt, &mut client, &[0], &event, Asked::NoNode, &[])?;
    assert!(rt; !client.cut());
    are_sent(&rt, &client.retry()?, &[]);
    hears(&rt, &mut client, STARTED, Got::OldConnection, &[])?;
    are_sent(&rt, &client.connect(2)?, &[START]);
    hears(&rt, &mut client, STARTED, Got::OldConnection, &[])?;
    are_sent(&rt, &client.connect(1)?, &[START]);
    are_sent(&rt, &client.retry()?, &[START]);
    for bytes in [BATCH_1, ACTED_1] {
        hears(&rt, &mut client, bytes, Got::NotOpen, &[])?;
    }
    hears(&rt, &mut client, STARTED, Got::Opened, &[])?;
    hears(
        &rt,
        &mut client,
        CONNECTED,
        Got::AnsweredAgain { event: 0 },
        &[],
    )?;
    Ok(())
}

#[test]
fn takes_batches_in_order(rt: HostRuntime) -> Result<(), Fail> {
    let mut client = open_client(&rt, rt.alloc())?;
    for bytes in [&[][..], &[0x83], START, ACK_1] {
        hears(&rt, &mut client, bytes, Got::Malformed, &[])?;
    }
    hears(
        &rt,
        &mut client,
        BATCH_1,
        Got::AgainAcked { number: 1 },
        &[ACK_1],
    )?;
    hears(&rt, &mut client, BATCH_3, Got::NotNext { next: 2 }, &[])?;
    let bad = Got::BadBatch {
        fault: ScreenFault::Read(BatchFault::Short),
    };
    hears(&rt, &mut client, LONG_BATCH_2, bad, &[])?;
    assert_eq!(rt; client.screen().tree, CounterTree::Shows(5));
    let applied = Got::Applied {
        number: 2,
        counts: LATER,
    };
    hears(&rt, &mut client, BATCH_2, applied, &[ACK_2])?;
    assert_eq!(rt; client.screen().tree, CounterTree::Shows(6));
    Ok(())
}

#[test]
fn keeps_events_until_they_are_answered(rt: HostRuntime) -> Result<(), Fail> {
    let mut client = open_client(&rt, rt.alloc())?;
    let event = Txt::from_str(rt.alloc(), "onclick")?;
    hears(&rt, &mut client, ACTED_1, Got::Stray, &[])?;
    clicks(
        &rt,
        &mut client,
        &[0],
        &event,
        Asked::Asked { number: 1 },
        &[CLICK_1],
    )?;
    assert!(rt; client.cut());
    let text = Txt::from_str(rt.alloc(), "a")?;
    sends_text(
        &rt,
        &mut client,
        &event,
        &text,
        Asked::Asked { number: 2 },
        &[],
    )?;
    are_sent(&rt, &client.connect(1)?, &[CONNECT]);
    hears(
        &rt,
        &mut client,
        CONNECTED,
        Got::Opened,
        &[CLICK_1, CLICK_2],
    )?;
    are_sent(&rt, &client.retry()?, &[ACK_1, CLICK_1, CLICK_2]);
    let outcome = Outcome::Acted;
    hears(
        &rt,
        &mut client,
        ACTED_2,
        Got::Answered { event: 2, outcome },
        &[],
    )?;
    are_sent(&rt, &client.retry()?, &[ACK_1, CLICK_1]);
    hears(
        &rt,
        &mut client,
        ACTED_1,
        Got::Answered { event: 1, outcome },
        &[],
    )?;
    hears(
        &rt,
        &mut client,
        ACTED_1,
        Got::AnsweredAgain { event: 1 },
        &[],
    )?;
    Ok(())
}

#[test]
fn refuses_events_by_name(rt: HostRuntime) -> Result<(), Fail> {
    let mut client = open_client(&rt, rt.alloc())?;
    let event = Txt::from_str(rt.alloc(), "onclick")?;
    let other = Txt::from_str(rt.alloc(), "onkeydown")?;
    for path in [&[][..], &[1], &[0, 0]] {
        clicks(&rt, &mut client, path, &event, Asked::NoNode, &[])?;
    }
    clicks(&rt, &mut client, &[0], &other, Asked::NoHandler, &[])?;
    assert!(rt; client.cut());
    for number in 1..65 {
        clicks(&rt, &mut client, &[0], &event, Asked::Asked { number }, &[])?;
    }
    clicks(&rt, &mut client, &[0], &event, Asked::EventsFull, &[])?;
    clicks(&rt, &mut client, &[1], &event, Asked::NoNode, &[])?;
    Ok(())
}

#[test]
fn ends(rt: HostRuntime) -> Result<(), Fail> {
    let event = Txt::from_str(rt.alloc(), "onclick")?;
    let fault = CircuitFault::DivideByZero;
    for (bytes, got) in [
        (CIRCUIT_UNKNOWN, Got::Refused(Refusal::CircuitUnknown)),
        (DIVIDED_BY_ZERO, Got::Ended(fault)),
    ] {
        let mut client = open_client(&rt, rt.alloc())?;
        hears(
            &rt,
            &mut client,
            REFUSED_MALFORMED,
            Got::Refused(Refusal::Malformed),
            &[],
        )?;
        clicks(
            &rt,
            &mut client,
            &[0],
            &event,
            Asked::Asked { number: 1 },
            &[CLICK_1],
        )?;
        hears(&rt, &mut client, bytes, got, &[])?;
        clicks(&rt, &mut client, &[0], &event, Asked::Over, &[])?;
    }
    Ok(())
}
