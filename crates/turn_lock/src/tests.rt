//! That the calls return, with one worker and with many, and that one holder finds what another
//! wrote.

use crate::roll::{Roll, written_by_all};
use crate::{Kept, Turn};
use std::alloc::AllocError;

#[test]
fn each_item_is_written_once(rt: HostRuntime) -> Result<(), AllocError> {
    for workers in [1, 2, 8, 64] {
        let mut items = Vec::new(rt.alloc());
        for item in 0..workers {
            items.push(item)?;
        }
        assert!(rt; items.len() <= 64);
        let mut roll = written_by_all(&rt, rt.alloc(), &items)?;
        roll.items.sort()?;
        assert_eq!(rt; roll.items, items);
    }
    Ok(())
}

#[test]
fn a_seat_finds_what_another_wrote(rt: HostRuntime) -> Result<(), AllocError> {
    let roll = Roll {
        items: Vec::new(rt.alloc()),
    };
    let (turn, mut one) = Turn::new(rt.alloc(), roll, 2)?;
    assert_eq!(rt; one.shares(), 2);
    let mut other = turn.split(&mut one, 1);
    let mut held = turn.take(&rt, &mut one);
    assert!(rt; held.value_mut().write(7));
    turn.give(&mut one, held);
    let held = turn.take(&rt, &mut other);
    assert_eq!(rt; held.value().items.as_slice(), [7].as_slice());
    turn.give(&mut other, held);
    turn.join(&mut one, other);
    let roll = turn.close(one);
    assert_eq!(rt; roll.entries(), 1);
    Ok(())
}
