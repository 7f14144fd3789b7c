// Numbers that are drawn from a board.
use claim_board::Board;
use std::test::*;

#[test]
fn one_seat_draws_all(rt: HostRuntime) -> Result<(), Fail> {
    let (board, mut seats) = Board::new(rt.alloc(), 3, 1)?;
    assert_eq!(rt; board.seats(), 1);
    let Some(mut seat) = seats.pop() else {
        return Err("no seat".into());
    };
    assert_eq!(rt; board.draw(&mut seat), Some(0));
    assert_eq!(rt; board.draw(&mut seat), Some(1));
    assert_eq!(rt; board.draw(&mut seat), Some(2));
    assert_eq!(rt; board.draw(&mut seat), None);
    assert_eq!(rt; board.draw(&mut seat), None);
    let all = vec![in rt.alloc(); seat]?;
    assert!(rt; board.finish(all).is_some());
    Ok(())
}

#[test]
fn no_number_is_drawn_twice(rt: HostRuntime) -> Result<(), Fail> {
    let (board, mut seats) = Board::new(rt.alloc(), 3, 2)?;
    let Some(mut one) = seats.pop() else {
        return Err("no seat".into());
    };
    let Some(mut other) = seats.pop() else {
        return Err("no other seat".into());
    };
    assert_eq!(rt; board.draw(&mut one), Some(0));
    assert_eq!(rt; board.draw(&mut other), Some(1));
    assert_eq!(rt; board.draw(&mut other), Some(2));
    assert_eq!(rt; board.draw(&mut one), None);
    assert_eq!(rt; board.draw(&mut other), None);
    let all = vec![in rt.alloc(); one, other]?;
    assert!(rt; board.finish(all).is_some());
    Ok(())
}

#[test]
fn a_seat_that_found_no_end_finishes_nothing(rt: HostRuntime) -> Result<(), Fail> {
    let (board, mut seats) = Board::new(rt.alloc(), 1, 2)?;
    let Some(mut one) = seats.pop() else {
        return Err("no seat".into());
    };
    let Some(other) = seats.pop() else {
        return Err("no other seat".into());
    };
    assert_eq!(rt; board.draw(&mut one), Some(0));
    assert_eq!(rt; board.draw(&mut one), None);
    let all = vec![in rt.alloc(); one, other]?;
    assert!(rt; board.finish(all).is_none());
    Ok(())
}

#[test]
fn a_board_may_have_no_numbers(rt: HostRuntime) -> Result<(), Fail> {
    let (board, mut seats) = Board::new(rt.alloc(), 0, 16)?;
    assert_eq!(rt; (board.seats(), seats.len()), (16, 16));
    let Some(mut seat) = seats.pop() else {
        return Err("no seat".into());
    };
    assert_eq!(rt; board.draw(&mut seat), None);
    Ok(())
}
