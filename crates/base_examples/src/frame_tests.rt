// Each call, with ample memory.
ghost use Rattle.std.specs.Prelude.{◌≡◌, ◌+◌, length, IsTrue};

use call_frames::{MOST_WAITING, Values};
use std::test::Fail;

// Whether these operands are pushed.
fn are_pushed(values: &mut Values, operands: &[u64]) -> bool {
    for operand in operands {
        if !values.push(*operand) {
            return false;
        }
    }
    true
}

// Of four operands the last and the first one, the last three and none.
fn seen(values: &Values) -> Option<(u64, u64, &[u64], &[u64])> {
    if values.operand_count() != 4 {
        return None;
    }
    Some((
        values.operand(0),
        values.operand(3),
        values.operands(3),
        values.operands(0),
    ))
}

#[test]
fn operands_are_pushed_and_read(rt: HostRuntime) -> Result<(), Fail> {
    let mut values = Values::new(rt.alloc())?;
    assert!(rt; values.size() == 0);
    assert!(rt; are_pushed(&mut values, &[5, 6, 7, 8]));
    let (three, none) = ([6, 7, 8].as_slice(), [].as_slice());
    assert!(rt; seen(&values) == Some((8, 5, three, none)));
    Ok(())
}

#[test]
fn operands_are_replaced_and_cut(rt: HostRuntime) -> Result<(), Fail> {
    let mut values = Values::new(rt.alloc())?;
    assert!(rt; are_pushed(&mut values, &[5, 6, 7, 8]));
    assert!(rt; values.operand_count() == 4);
    values.replace(2, 15);
    assert!(rt; values.operands(3) == [5, 6, 15].as_slice());
    values.discard(1);
    assert!(rt; values.operands(2) == [5, 6].as_slice());
    assert!(rt; values.push(9));
    values.cut(1, 1);
    assert!(rt; values.operands(2) == [5, 9].as_slice());
    values.cut(1, 0);
    assert!(rt; (values.operand_count(), values.size()) == (1, 1));
    Ok(())
}

/// Calls a function where the frames allow it.
fn calls(values: &mut Values, params: usize, more: usize) -> bool
    ensures { IsTrue result → length values.new.locals ≡ params + more }
{
    if values.operand_count() < params || values.waiting_count() >= MOST_WAITING {
        return false;
    }
    values.enter(params, more)
}

#[test]
fn locals_begin_as_params_and_zeros(rt: HostRuntime) -> Result<(), Fail> {
    let mut values = Values::new(rt.alloc())?;
    assert!(rt; are_pushed(&mut values, &[7, 8]));
    assert!(rt; calls(&mut values, 1, 65_000));
    assert!(rt; (values.local(0), values.local(65_000)) == (8, 0));
    values.set_local(65_000, 5);
    assert!(rt; values.local(65_000) == 5);
    assert!(rt; values.waiting_count() == 1);
    values.leave(0);
    assert!(rt; calls(&mut values, 1, 65_000));
    assert!(rt; (values.local(0), values.local(65_000)) == (7, 0));
    Ok(())
}

#[test]
fn a_result_is_handed_back(rt: HostRuntime) -> Result<(), Fail> {
    let mut values = Values::new(rt.alloc())?;
    assert!(rt; are_pushed(&mut values, &[1, 2]) && calls(&mut values, 1, 100));
    assert!(rt; are_pushed(&mut values, &[6, 7]));
    assert!(rt; values.operand_count() == 2 && values.waiting_count() == 1);
    values.leave(1);
    assert!(rt; values.operand_count() == 2 && values.size() == 2);
    assert!(rt; values.operands(2) == [1, 7].as_slice());
    Ok(())
}

// The first operand below 65,536 that is not pushed.
fn unpushed(values: &mut Values) -> Option<u64> {
    for operand in 0..65_536 {
        if !values.push(operand) {
            return Some(operand);
        }
    }
    None
}

// The first of 1,000 calls of 65 locals that is not made.
fn uncalled(values: &mut Values) -> Option<u32> {
    for count in 0..1_000 {
        if !calls(values, 0, 65) {
            return Some(count);
        }
    }
    None
}

#[test]
fn room_ends_at_its_limits(rt: HostRuntime) -> Result<(), Fail> {
    let mut values = Values::new(rt.alloc())?;
    assert_eq!(rt; unpushed(&mut values), None);
    assert!(rt; !values.push(0) && !calls(&mut values, 1, 1));
    assert!(rt; values.operand_count() == 65_536);
    assert!(rt; values.operand(0) == 65_535);
    values.discard(65_535);
    assert!(rt; !calls(&mut values, 0, 65_536));
    assert!(rt; calls(&mut values, 1, 65_535));
    assert!(rt; values.local(65_535) == 0);
    assert!(rt; !values.push(0));
    assert!(rt; values.waiting_count() == 1);
    values.leave(0);
    assert_eq!(rt; uncalled(&mut values), None);
    assert!(rt; (values.waiting_count(), values.size()) == (1_000, 65_000));
    Ok(())
}
