ghost use Rattle.std.specs.Prelude.{◌≡◌, ◌+◌, ◌^◌, ◌≤◌, IfOk, length};
ghost use Rattle.std.specs.Thread.{IsSync};
ghost use Rattle.faust_ticket.specs.Holders.{first_seat};

use crate::{Blank, Counter, Seat, start};
use faust_types::OutOfMemory;
use std::marker::Brand;
use std::sync::{Mutex, Wait};
use std::test::Fail;
use std::thread;
use std::thread::Threads;

fn after_draws<T: Counter>(mut seat: Seat<T>, count: u32) -> Seat<T>
    requires { count ≤ seat.spare }
    ensures { length result.drawn ≡ length seat.drawn + count }
{
    for _i in 0..count {
        seat.draw();
    }
    seat
}

/// One seat draws one number and another two, each in a thread of its own.
fn drawn_by_two<T: Counter + Send + Sync, R: Threads + Sync>(
    rt: &R,
    first: Seat<T>,
    second: Seat<T>,
) -> (Seat<T>, Seat<T>)
    requires { (first ≡ first_seat) × (second ≡ first_seat) }
    ensures { (length result.0.drawn ≡ 1) × (length result.1.drawn ≡ 2) }
{
    let draw_one = move || -> Seat<T>
        requires { first ≡ first_seat }
        ensures { length result.drawn ≡ 1 }
    { after_draws(first, 1) };
    let draw_two = move || -> Seat<T>
        requires { second ≡ first_seat }
        ensures { length result.drawn ≡ 2 }
    { after_draws(second, 2) };
    thread::join(rt, draw_one, draw_two)
}

/// Three seats draw 2, 1 and 2 numbers, each in a thread of its own.
fn count_of_three_threads<T: Counter + Send + Sync, R: Threads + Sync>(
    rt: &R,
    blank: Blank,
) -> Result<u64, OutOfMemory>
    requires { blank ≡ T.counter }
    ensures { IfOk result (λ count. count ≡ 5) }
{
    let mut root = blank.open::<T>();
    let first = root.split()?;
    let second = root.split()?;
    let third = root.split()?;
    let draw_two = move || -> Seat<T>
        requires { first ≡ first_seat }
        ensures { length result.drawn ≡ 2 }
    { after_draws(first, 2) };
    let others = move || -> (Seat<T>, Seat<T>)
        requires { IsSync R.row × (second ≡ first_seat) × (third ≡ first_seat) }
        ensures { (length result.0.drawn ≡ 1) × (length result.1.drawn ≡ 2) }
    { drawn_by_two(rt, second, third) };
    let (first, (second, third)) = thread::join(rt, draw_two, others);
    root.join(first);
    root.join(second);
    root.join(third);
    Ok(root.finish())
}

/// What lies under a lock: a seat, and how often it drew.
#[derive(Drop)]
struct Cell<T: Counter> {
    seat: Seat<T>,
    draws: u32,
    ghost counted: { draws + seat.spare ≡ 2 ^ 32 },
}

impl<T: Counter> Cell<T> {
    fn draw(&mut self) -> Option<u64> {
        if self.draws == u32::MAX {
            return None;
        }
        self.draws += 1;
        Some(self.seat.draw())
    }
}

/// Two threads draw a number each, from one seat under a lock.
fn count_through_a_lock<T: Counter + Send + Sync, R: Threads + Wait + Sync>(
    rt: &R,
    blank: Blank,
) -> Result<u64, OutOfMemory>
    requires { blank ≡ T.counter }
{
    let mut root = blank.open::<T>();
    let cell = Mutex::new(Cell {
        seat: root.split()?,
        draws: 0,
    });
    let shared = &cell;
    thread::join(
        rt,
        move || shared.lock(rt).draw(),
        move || shared.lock(rt).draw(),
    );
    root.join(cell.into_inner().seat);
    Ok(root.finish())
}

/// Which numbers two seats of one thread draw in turn, and how many there are.
fn drawn_in_turn<T: Counter>(blank: Blank) -> Result<([u64; 3], u64), OutOfMemory>
    requires { blank ≡ T.counter }
{
    let mut root = blank.open::<T>();
    let mut first = root.split()?;
    let mut second = root.split()?;
    let numbers = [first.draw(), second.draw(), first.draw()];
    root.join(second);
    root.join(first);
    Ok((numbers, root.finish()))
}

#[test]
fn seats_draw_the_numbers_in_order(rt: HostRuntime) -> Result<(), Fail> {
    let drawn = drawn_in_turn::<Brand>(start(rt.alloc())?)?;
    assert_eq!(rt; drawn, ([0, 1, 2], 3));
    Ok(())
}

#[test]
fn three_seats_draw_five_numbers_from_three_threads(rt: HostRuntime) -> Result<(), Fail> {
    let blank = start(rt.alloc())?;
    let count = count_of_three_threads::<Brand, HostRuntime>(&rt, blank)?;
    assert_eq!(rt; count, 5);
    Ok(())
}

#[test]
fn a_seat_comes_back_out_of_a_lock(rt: HostRuntime) -> Result<(), Fail> {
    let blank = start(rt.alloc())?;
    let count = count_through_a_lock::<Brand, HostRuntime>(&rt, blank)?;
    assert_eq!(rt; count, 2);
    Ok(())
}
