// An arena of two slots, by hand: what its handles find, and which slots it uses.
use gen_arena::{Arena, Full, Handle};
use std::process::Abort;
use std::test::Fail;

/// Puts each item in, which there is room for.
fn put<T>(rt: &impl Abort, arena: &mut Arena<T>, item: T) -> Handle
where
    T: Drop,
{
    arena
        .insert(item)
        .map_err(|failed| failed.1)
        .expect(rt, "there is room")
}

#[test]
fn a_freed_slot_is_used_again_on_another_turn(rt: HostRuntime) -> Result<(), Fail> {
    let mut arena = Arena::new(rt.alloc(), 2);
    assert_eq!(rt; arena.slots(), 0);
    let first = put(&rt, &mut arena, 10u8);
    let second = put(&rt, &mut arena, 20u8);
    assert_ne!(rt; first, second);
    assert_eq!(rt; arena.insert(30), Err((30, Full::Spent)));
    assert_eq!(rt; arena.get(first).copied(), Some(10));
    assert_eq!(rt; arena.remove(first), Some(10));
    assert_eq!(rt; arena.remove(first), None);
    assert_eq!(rt; arena.get(first).copied(), None);
    let third = put(&rt, &mut arena, 30u8);
    assert_eq!(rt; third.slot, first.slot);
    assert_ne!(rt; third.turn, first.turn);
    assert_eq!(rt; arena.get(first).copied(), None);
    assert!(rt; arena.get_mut(first).is_none());
    if let Some(item) = arena.get_mut(third) {
        *item = 31;
    }
    for (handle, expected) in [(first, None), (second, Some(20)), (third, Some(31))] {
        assert_eq!(rt; arena.get(handle).copied(), expected, "{handle:?}");
    }
    assert_eq!(rt; arena.slots(), 2);
    Ok(())
}

#[test]
fn items_are_owned(rt: HostRuntime) -> Result<(), Fail> {
    let mut arena = Arena::new(rt.alloc(), 1);
    let one = put(&rt, &mut arena, vec![in rt.alloc(); 1u8, 2]?);
    if let Some(item) = arena.get_mut(one) {
        item.push(3)?;
    }
    let Err((back, full)) = arena.insert(vec![in rt.alloc(); 4]?) else {
        return Err(Fail::from("no room is left"));
    };
    assert_eq!(rt; full, Full::Spent);
    assert_eq!(rt; back.as_slice(), [4].as_slice());
    assert!(rt; arena.remove(one).is_some_and(|item| item.len() == 3));
    let none = Arena::<u8>::new(rt.alloc(), 0).insert(1);
    assert_eq!(rt; none, Err((1, Full::Spent)));
    Ok(())
}
