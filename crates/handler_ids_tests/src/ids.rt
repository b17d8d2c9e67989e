// Ids of a few handlers, by hand.
use cs_ast::Value;
use handler_ids::{Found, HandlerValue, Handlers};
use sqlite_items::Items;
use std::alloc::Global;
use std::process::Abort;
use std::test::Fail;
use text_core::{Oom, Txt};

/// A handler with one number as its captures.
fn handler(
    alloc: Global,
    who: u32,
    place: u32,
    event: &str,
    number: i32,
) -> Result<HandlerValue, Oom> {
    let mut captures = Items::new(alloc);
    captures.push(Value::Int(number))?;
    Ok(HandlerValue {
        who,
        place,
        event: Txt::from_str(alloc, event)?,
        captures,
    })
}

/// The id that a value gets from batch 2, where the old one is live.
fn named(handlers: &mut Handlers, old: Option<u64>, value: HandlerValue) -> Result<u64, Fail> {
    let Some(id) = old else {
        return Ok(handlers.keep_or_give(None, value, 2)?);
    };
    let Found::Live { .. } = handlers.find(id) else {
        return Err(Fail::from("the id is not live"));
    };
    Ok(handlers.keep_or_give(Some(id), value, 2)?)
}

/// The old id, a handler, and the id that it gets.
type Row = (Option<u64>, u32, u32, &'static str, i32, u64);

fn is_named(
    rt: &impl Abort,
    alloc: Global,
    handlers: &mut Handlers,
    row: &Row,
) -> Result<(), Fail> {
    let (old, who, place, event, number, expected) = *row;
    let value = handler(alloc, who, place, event, number)?;
    let id = named(handlers, old, value)?;
    assert_eq!(rt; id, expected, "{who} {place} {event} {number}");
    Ok(())
}

// Each next id, where something differs.
const NAMED: &[Row] = &[
    (None, 1, 2, "onclick", 3, 2),
    (Some(1), 1, 2, "onclick", 3, 1),
    (Some(1), 2, 2, "onclick", 3, 3),
    (Some(1), 1, 3, "onclick", 3, 4),
    (Some(1), 1, 2, "onchange", 3, 5),
    (Some(1), 1, 2, "onclick", 4, 6),
    (Some(1), 1, 2, "onclick", 3, 1),
];

#[test]
fn keeps_an_id_where_its_value_is_equal(rt: HostRuntime) -> Result<(), Fail> {
    let alloc = rt.alloc();
    let mut handlers = Handlers::new(alloc);
    let first = handlers.keep_or_give(None, handler(alloc, 1, 2, "onclick", 3)?, 1)?;
    assert_eq!(rt; first, 1);
    for row in NAMED {
        is_named(&rt, alloc, &mut handlers, row)?;
    }
    Ok(())
}

#[test]
fn an_id_is_held_until_its_batch_is_released(rt: HostRuntime) -> Result<(), Fail> {
    let alloc = rt.alloc();
    let mut handlers = Handlers::new(alloc);
    for number in 1..4 {
        handlers.keep_or_give(None, handler(alloc, 1, 2, "onclick", number)?, 1)?;
    }
    assert!(rt; matches!(handlers.find(2), Found::Live { value } if value.place == 2));
    if let Found::Live { .. } = handlers.find(2) {
        handlers.dispose(2, 5);
    }
    for (acked, is_held) in [(0, true), (4, true), (3, true), (5, false), (1, false)] {
        handlers.release(acked);
        let (held, gone) = match handlers.find(2) {
            Found::Held { value, batch } => (value.who == 1 && batch == 5, false),
            Found::Gone { batch } => (false, batch == 5),
            _ => (false, false),
        };
        assert_eq!(rt; (held, gone), (is_held, !is_held), "{acked}");
    }
    for (id, is_live) in [(0, false), (1, true), (3, true), (4, false)] {
        let (live, unknown) = match handlers.find(id) {
            Found::Live { .. } => (true, false),
            Found::Unknown => (false, true),
            _ => (false, false),
        };
        assert_eq!(rt; (live, unknown), (is_live, !is_live), "{id}");
    }
    assert_eq!(rt;
        handlers.keep_or_give(None, handler(alloc, 1, 2, "onclick", 9)?, 6)?,
        4
    );
    Ok(())
}
