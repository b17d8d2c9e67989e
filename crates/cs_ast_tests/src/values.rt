// Values at examples: their sizes by hand, and that each call can succeed.
use cs_ast::{Bodies, Code, Value, same, show, size};
use sqlite_items::Items;
use std::alloc::Global;
use std::process::Abort;
use std::test::Fail;
use text_core::{Oom, Txt};

fn text(alloc: Global, text: &str) -> Result<Value, Oom> {
    Ok(Value::Text(Txt::from_str(alloc, text)?))
}

fn listed(alloc: Global, first: Value, second: Value) -> Result<Items<Value>, Oom> {
    let mut items = Items::new(alloc);
    items.push(first)?;
    items.push(second)?;
    Ok(items)
}

/// A record, a list, a fragment and a callback of an int and a text.
fn compounds(alloc: Global, number: i32, word: &str) -> Result<[Value; 4], Oom> {
    Ok([
        Value::Rec {
            kind: 1,
            parts: listed(alloc, Value::Int(number), text(alloc, word)?)?,
        },
        Value::List(listed(alloc, Value::Int(number), text(alloc, word)?)?),
        Value::Fragment {
            who: 1,
            place: 2,
            captures: listed(alloc, Value::Int(number), text(alloc, word)?)?,
        },
        Value::Callback {
            who: 1,
            place: 2,
            captures: listed(alloc, Value::Int(number), text(alloc, word)?)?,
        },
    ])
}

fn compares(rt: &impl Abort, a: &Value, b: &Value, expected: bool) {
    assert_eq!(rt; same(a, b), expected, "{a:?}, {b:?}");
}

#[test]
fn compares_by_content(rt: HostRuntime) -> Result<(), Fail> {
    let alloc = rt.alloc();
    let ones = compounds(alloc, 1, "é")?;
    let equals = compounds(alloc, 1, "é")?;
    let others = compounds(alloc, 1, "e")?;
    for (i, one) in ones.iter().enumerate() {
        for (j, equal) in equals.iter().enumerate() {
            assert_eq!(rt; same(one, equal), i == j);
        }
        for other in others.iter() {
            assert!(rt; !same(one, other));
        }
    }
    let empty = text(alloc, "")?;
    let one = text(alloc, "a")?;
    let longer = text(alloc, "ab")?;
    compares(&rt, &Value::Int(1), &Value::Int(1), true);
    compares(&rt, &Value::Int(1), &Value::Int(-1), false);
    compares(&rt, &Value::Bool(true), &Value::Bool(true), true);
    compares(&rt, &Value::Bool(true), &Value::Int(1), false);
    compares(&rt, &Value::Null, &Value::Null, true);
    compares(&rt, &Value::Null, &empty, false);
    compares(&rt, &one, &one, true);
    compares(&rt, &one, &longer, false);
    Ok(())
}

#[test]
fn shows_values(rt: HostRuntime) -> Result<(), Fail> {
    let alloc = rt.alloc();
    assert_eq!(rt; show(alloc, &Value::Int(-12))?.as_str(), "-12");
    assert_eq!(rt; show(alloc, &Value::Bool(true))?.as_str(), "True");
    assert_eq!(rt; show(alloc, &Value::Bool(false))?.as_str(), "False");
    assert_eq!(rt;
        show(alloc, &Value::Text(Txt::from_str(alloc, "a<é")?))?.as_str(),
        "a<é"
    );
    assert_eq!(rt; show(alloc, &Value::Null)?.as_str(), "");
    Ok(())
}

fn measures(rt: &impl Abort, value: &Value, expected: u64) {
    assert_eq!(rt; size(value), expected, "{value:?}");
}

#[test]
fn measures_values(rt: HostRuntime) -> Result<(), Fail> {
    let alloc = rt.alloc();
    measures(&rt, &Value::Int(-1), 4);
    measures(&rt, &Value::Bool(false), 1);
    measures(&rt, &Value::Null, 1);
    measures(&rt, &text(alloc, "")?, 1);
    measures(&rt, &text(alloc, "aé")?, 4);
    measures(&rt, &Value::List(Items::new(alloc)), 1);
    for (value, expected) in compounds(alloc, 5, "aé")?.iter().zip([9, 9, 1, 1]) {
        measures(&rt, value, expected);
    }
    Ok(())
}

#[test]
fn keeps_bodies(rt: HostRuntime) -> Result<(), Fail> {
    let alloc = rt.alloc();
    let mut bodies = Bodies::new(alloc);
    bodies.set(7, Code::Int(1))?;
    bodies.set(3, Code::Empty)?;
    bodies.set(7, Code::Int(2))?;
    for (number, expected) in [(3, false), (5, false), (7, true)] {
        let is_two = matches!(bodies.get(number), Some(Code::Int(2)));
        assert_eq!(rt; is_two, expected, "{number}");
    }
    Ok(())
}
