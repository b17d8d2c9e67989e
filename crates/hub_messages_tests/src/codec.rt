// Bytes of messages, by hand, both ways.
ghost use Rattle.std.specs.Prelude.{◌≤◌, length, IsTrue};
ghost use Rattle.hub_messages.specs.Spelling.Messages.{up_bytes, down_bytes};

use hub_messages::{
    Bytes, CircuitFault, Down, HubFault, Outcome, Refusal, Up, decode_down, decode_up, encode_down,
    encode_up,
};
use std::alloc::Global;
use std::process::Abort;
use std::test::Fail;
use text_core::Txt;

// Whether the message is short enough to be spelled.
#[tactic(auto, using(hub_messages::proofs::SizeLemmas::up_short))]
fn is_short_up(message: &Up) -> bool
    ensures { IsTrue result → length (up_bytes message.now) ≤ 33554432 }
{
    match message {
        Up::Event { name, text, .. } => {
            let carried = match text {
                None => 0,
                Some(text) => text.as_str().len(),
            };
            name.as_str().len() < 100 && carried < 100
        }
        Up::Start => true,
        Up::Connect { .. } => true,
        Up::Ack { .. } => true,
    }
}

#[tactic(auto, using(hub_messages::proofs::SizeLemmas::down_short))]
fn is_short_down(message: &Down) -> bool
    ensures { IsTrue result → length (down_bytes message.now) ≤ 33554432 }
{
    match message {
        Down::Batch { bytes, .. } => bytes.as_slice().len() < 100,
        Down::Started { .. } => true,
        Down::Connected { .. } => true,
        Down::Outcome { .. } => true,
        Down::Refused(_) => true,
        Down::Ended(_) => true,
    }
}

// Numbers 1 and 2 in bytes.
const ONE: [u8; 8] = [1, 0, 0, 0, 0, 0, 0, 0];

const TWO: [u8; 8] = [2, 0, 0, 0, 0, 0, 0, 0];

fn joined(alloc: Global, parts: &[&[u8]]) -> Result<Vec<u8>, Fail> {
    let mut all = Vec::new(alloc);
    for part in parts {
        all.extend_from_slice(part)?;
    }
    Ok(all)
}

fn event(alloc: Global, text: Option<&str>) -> Result<Up, Fail> {
    let text = match text {
        None => None,
        Some(text) => Some(Txt::from_str(alloc, text)?),
    };
    Ok(Up::Event {
        number: 1,
        handler: 1,
        got: 0,
        name: Txt::from_str(alloc, "onclick")?,
        text,
    })
}

const ONCLICK: [u8; 8] = [7, 0x6F, 0x6E, 0x63, 0x6C, 0x69, 0x63, 0x6B];

// Encodes and decodes a message of the browser.
fn goes_up(rt: &impl Abort, alloc: Global, message: &Up, parts: &[&[u8]]) -> Result<(), Fail> {
    let bytes = joined(alloc, parts)?;
    assert!(rt; is_short_up(message));
    assert_eq!(rt; encode_up(alloc, message)?.as_slice(), bytes.as_slice());
    let decoded = decode_up(alloc, &bytes)?;
    assert!(rt; is_short_up(&decoded));
    assert_eq!(rt; encode_up(alloc, &decoded)?.as_slice(), bytes.as_slice());
    Ok(())
}

#[test]
fn messages_of_a_browser(rt: HostRuntime) -> Result<(), Fail> {
    let alloc = rt.alloc();
    goes_up(&rt, alloc, &Up::Start, &[&[1, 1]])?;
    let connect = Up::Connect {
        number: 1,
        secret: 2,
        applied: 0,
        got: 0xFFFF_FFFF_FFFF_FFFF,
    };
    goes_up(
        &rt,
        alloc,
        &connect,
        &[&[2, 1], &ONE, &TWO, &[0; 8], &[0xFF; 8]],
    )?;
    let parts = [[3].as_slice(), &ONE, &ONE, &[0; 8], &ONCLICK];
    let bytes = joined(alloc, &parts)?;
    goes_up(&rt, alloc, &event(alloc, None)?, &[&bytes, &[0]])?;
    goes_up(
        &rt,
        alloc,
        &event(alloc, Some("é"))?,
        &[&bytes, &[1, 2, 0xC3, 0xA9]],
    )?;
    goes_up(
        &rt,
        alloc,
        &Up::Ack { batch: 2, got: 1 },
        &[&[4], &TWO, &ONE],
    )
}

// Encodes and decodes a message of the server.
fn goes_both_ways(
    rt: &impl Abort,
    alloc: Global,
    message: &Down,
    parts: &[&[u8]],
) -> Result<(), Fail> {
    let bytes = joined(alloc, parts)?;
    assert!(rt; is_short_down(message));
    assert_eq!(rt; encode_down(alloc, message)?.as_slice(), bytes.as_slice());
    let decoded = decode_down(alloc, &bytes)?;
    assert!(rt; is_short_down(&decoded));
    assert_eq!(rt; encode_down(alloc, &decoded)?.as_slice(), bytes.as_slice());
    Ok(())
}

#[test]
fn messages_of_the_server(rt: HostRuntime) -> Result<(), Fail> {
    let alloc = rt.alloc();
    let started = Down::Started {
        number: 1,
        secret: 2,
    };
    goes_both_ways(&rt, alloc, &started, &[&[0x81], &ONE, &TWO])?;
    let connected = Down::Connected { sent: 2, last: 1 };
    goes_both_ways(&rt, alloc, &connected, &[&[0x82], &TWO, &ONE])?;
    let batch = Down::Batch {
        number: 2,
        bytes: Bytes::new([7, 8, 9].to_vec(alloc)?),
    };
    goes_both_ways(&rt, alloc, &batch, &[&[0x83], &TWO, &[3, 0, 0, 0, 7, 8, 9]])?;
    Ok(())
}

const OUTCOMES: &[(Outcome, &[u8])] = &[
    (Outcome::Acted, &[1]),
    (Outcome::HandlerUnknown, &[2]),
    (
        Outcome::HandlerGone { batch: 1 },
        &[3, 1, 0, 0, 0, 0, 0, 0, 0],
    ),
    (Outcome::ComponentGone, &[4]),
    (Outcome::WrongEvent, &[5]),
    (Outcome::BadArguments, &[6]),
];

#[test]
fn outcomes(rt: HostRuntime) -> Result<(), Fail> {
    let alloc = rt.alloc();
    for (outcome, bytes) in OUTCOMES {
        let message = Down::Outcome {
            event: 2,
            outcome: *outcome,
        };
        goes_both_ways(&rt, alloc, &message, &[&[0x84], &TWO, bytes])?;
    }
    Ok(())
}

const PLAIN_REFUSALS: &[(Refusal, u8)] = &[
    (Refusal::Malformed, 1),
    (Refusal::NotConnected, 2),
    (Refusal::AlreadyConnected, 3),
    (Refusal::CircuitUnknown, 4),
];

const NUMBERED_REFUSALS: &[(Refusal, u8)] = &[
    (Refusal::AppliedAhead { sent: 2 }, 5),
    (Refusal::AckAhead { sent: 2 }, 6),
    (Refusal::GotAhead { last: 2 }, 7),
    (Refusal::BatchesGone { acked: 2 }, 8),
    (Refusal::Early { next: 2 }, 9),
    (Refusal::OutcomesFull { oldest: 2 }, 10),
];

#[test]
fn refusals(rt: HostRuntime) -> Result<(), Fail> {
    let alloc = rt.alloc();
    for (refusal, code) in PLAIN_REFUSALS {
        goes_both_ways(&rt, alloc, &Down::Refused(*refusal), &[&[0x85, *code]])?;
    }
    for (refusal, code) in NUMBERED_REFUSALS {
        goes_both_ways(
            &rt,
            alloc,
            &Down::Refused(*refusal),
            &[&[0x85, *code], &TWO],
        )?;
    }
    Ok(())
}

const FAULTS: &[(CircuitFault, u8)] = &[
    (CircuitFault::DivideByZero, 1),
    (CircuitFault::Overflow, 2),
    (CircuitFault::NullUse, 3),
    (CircuitFault::IndexOutOfRange, 4),
    (CircuitFault::FuelSpent, 5),
    (CircuitFault::CallDepth, 6),
    (CircuitFault::ValueTooLarge, 7),
    (CircuitFault::DuplicateKey, 8),
    (CircuitFault::PageTooLarge, 9),
    (CircuitFault::TooManyComponents, 10),
    (CircuitFault::TooDeepTree, 11),
    (CircuitFault::Memory, 12),
    (CircuitFault::NumbersSpent, 13),
];

#[test]
fn faults(rt: HostRuntime) -> Result<(), Fail> {
    let alloc = rt.alloc();
    for (fault, code) in FAULTS {
        goes_both_ways(&rt, alloc, &Down::Ended(*fault), &[&[0x86, *code]])?;
    }
    Ok(())
}

const NO_MESSAGES_UP: &[&[u8]] = &[
    &[],
    &[0],
    &[1],
    &[1, 2],
    &[1, 1, 0],
    &[4, 1, 0, 0, 0, 0, 0, 0, 0, 1, 0, 0, 0, 0, 0, 0],
    &[5, 1],
    &[0x81, 1],
];

const NO_MESSAGES_DOWN: &[&[u8]] = &[
    &[],
    &[0x80],
    &[0x85, 0],
    &[0x85, 5],
    &[0x85, 1, 1, 0, 0, 0, 0, 0, 0, 0],
    &[0x86, 14],
    &[0x86, 13, 0],
    &[0x83, 1, 0, 0, 0, 0, 0, 0, 0, 2, 0, 0, 0, 7],
];

#[test]
fn bytes_of_no_message(rt: HostRuntime) -> Result<(), Fail> {
    let alloc = rt.alloc();
    for bytes in NO_MESSAGES_UP {
        let fault = decode_up(alloc, bytes).err();
        assert_eq!(rt; fault, Some(HubFault::Malformed), "{bytes:?}");
    }
    for bytes in NO_MESSAGES_DOWN {
        let fault = decode_down(alloc, bytes).err();
        assert_eq!(rt; fault, Some(HubFault::Malformed), "{bytes:?}");
    }
    Ok(())
}

#[test]
fn tells_of_faults(rt: HostRuntime) -> Result<(), Fail> {
    let alloc = rt.alloc();
    assert_eq!(rt;
        HubFault::Malformed.to_string(alloc)?.as_str(),
        "the bytes spell no message"
    );
    assert_eq!(rt; HubFault::Oom.to_string(alloc)?.as_str(), "out of memory");
    Ok(())
}
