//! Two seats that take turns, and two that draw in two threads.
ghost use Rattle.std.specs.Prelude.{◌≡◌, ◌<◌, [], All, IfSome};
ghost use Rattle.qh_draw.specs.Seats.{seat_of};

use crate::{Draw, Seat};
use std::test::Fail;
use std::thread::{Threads, join_mut};

// The last of the seats, each of which may draw three numbers.
fn last_seat(draw: &Draw, seats: &mut Vec<Seat>) -> Option<Seat>
    requires { All (λ s. s ≡ seat_of draw.now 3 3 []) seats.old.items }
    ensures seat { IfSome result (λ s. s ≡ seat_of draw.now 3 3 []) }
    ensures others { All (λ s. s ≡ seat_of draw.now 3 3 []) seats.new.items }
{
    seats.pop()
}

// Draws where the seat may.
fn draw_by(draw: &Draw, seat: &mut Seat) -> Option<u64>
    requires { seat.old.of ≡ draw.now }
    ensures { seat.new.of ≡ seat.old.of }
{
    if seat.left() == 0 {
        return None;
    }
    Some(draw.draw(seat))
}

#[test]
fn seats_take_turns(rt: HostRuntime) -> Result<(), Fail> {
    let (draw, mut seats) = Draw::new(rt.alloc(), 2, 3)?;
    let mut first = last_seat(&draw, &mut seats).ok_or("no first seat")?;
    let mut second = last_seat(&draw, &mut seats).ok_or("no second seat")?;
    assert_eq!(rt; draw_by(&draw, &mut first), Some(0));
    assert_eq!(rt; draw_by(&draw, &mut second), Some(1));
    assert_eq!(rt; draw_by(&draw, &mut first), Some(2));
    assert_eq!(rt; draw.look(&mut first), 3);
    assert_eq!(rt; (first.left(), second.left()), (1, 2));
    Ok(())
}

// Each of two threads draws by its seat.
fn draw_in_threads<R: Threads + Sync>(
    rt: &R,
    draw: &Draw,
    first: &mut Seat,
    second: &mut Seat,
) -> (u64, u64)
    requires first { first.old.of ≡ draw.now }
    requires first_left { 0 < first.old.left }
    requires second { second.old.of ≡ draw.now }
    requires second_left { 0 < second.old.left }
{
    join_mut(rt, &mut || draw.draw(first), &mut || draw.draw(second))
}

#[test]
fn threads_draw_different_numbers(rt: HostRuntime) -> Result<(), Fail> {
    let (draw, mut seats) = Draw::new(rt.alloc(), 2, 3)?;
    let mut first = last_seat(&draw, &mut seats).ok_or("no first seat")?;
    let mut second = last_seat(&draw, &mut seats).ok_or("no second seat")?;
    let (one, two) = draw_in_threads(&rt, &draw, &mut first, &mut second);
    assert_eq!(rt; one.max(two), 1);
    assert_eq!(rt; one.min(two), 0);
    Ok(())
}
