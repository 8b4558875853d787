//! A client of the lock, for tests: workers in threads of their own write items into one list.

ghost use Rattle.std.specs.Prelude.{ℕ, ◌≡◌, ◌+◌, ◌-◌, ◌<◌, ◌≤◌, ◌^◌, ◌++◌, ◌∷◌, []};
ghost use Rattle.std.specs.Prelude.{length, slice_index_or, sum_by, vec_len, IsTrue};
ghost use Rattle.std.specs.Prelude.{All, IfOk, IfSome};
ghost use Rattle.std.specs.Bool.{MatchBool};
ghost use Rattle.std.specs.Vec.{vec_capacity};
ghost use Rattle.turn_lock.specs.Seats.{all_shares, own, IsSeated};
ghost use Rattle.turn_lock.specs.Rolls.{Adds, HasEach, IsDone, IsReady};

use crate::{Kept, Seat, Turn};
use std::alloc::{AllocError, Global};
use std::sync::Wait;
use std::thread;
use std::thread::Threads;

/// The list under the lock.
#[derive(Drop)]
pub(crate) struct Roll {
    pub(crate) items: Vec<u32>,
}

impl Kept for Roll {
    ghost use Rattle.std.proofs.Common.{arith};

    type Name = ();

    type Entry = u32;

    ghost name = { λ _. tt };

    ghost history = { λ roll. roll.items.items };

    ghost may_become = { λ old new. length old.items.items ≤ length new.items.items };

    fn entries(&self) -> u64 {
        self.items.len() as u64
    }

    ghost may_stay = { λ roll. Prim.omega arith };

    ghost may_go_on = { λ first next last earlier later. Prim.omega (arith, earlier, later) };
}

impl Roll {
    /// Writes an item, and says whether there was memory for it.
    pub(crate) fn write(&mut self, item: u32) -> bool
        ensures { MatchBool result (self.new.items.items ≡ self.old.items.items ++ item ∷ [])
            (self.new.items.items ≡ self.old.items.items) }
    {
        self.items.push(item).is_ok()
    }
}

/// A worker: its seat, the item that it is to write, and whether it has.
struct Worker {
    seat: Seat<Roll>,
    item: u32,
    written: bool,
}

/// Takes the list, writes the item, and gives the list back.
fn visit<R: Wait>(rt: &R, turn: &Turn<Roll>, worker: &mut Worker)
    requires { IsReady turn.now worker.old.seat }
    ensures done { IsDone turn.now worker.new.item worker.new.written worker.new.seat }
    ensures item { worker.new.item ≡ worker.old.item }
{
    let mut held = turn.take(rt, &mut worker.seat);
    worker.written = held.value_mut().write(worker.item);
    turn.give(&mut worker.seat, held);
}

/// Each worker visits in a thread of its own, where one can be made.
fn visit_all<R: Threads + Wait + Sync>(rt: &R, turn: &Turn<Roll>, workers: &mut [Worker])
    requires { All (λ worker. IsReady turn.now worker.seat) workers.old }
    ensures len { length workers.new ≡ length workers.old }
    ensures done { All (λ worker. IsDone turn.now worker.item worker.written worker.seat)
        workers.new }
    ensures items { (k : ℕ) (d : Worker) → k < length workers.old →
        (slice_index_or workers.new k d).item ≡ (slice_index_or workers.old k d).item }
{
    let visit_one = |_: usize, worker: &mut Worker|
        requires { IsReady turn.now worker.now.seat }
        ensures { IsDone turn.entry.now worker.exit.now.item worker.exit.now.written
            worker.exit.now.seat × (worker.exit.now.item ≡ worker.entry.now.item) }
    { visit(rt, turn, worker) };
    thread::for_each_mut(rt, workers, 64, &visit_one);
}

/// A worker for each item, with a share of the seat's.
fn seat_all(turn: &Turn<Roll>, seat: &mut Seat<Roll>, items: &[u32], workers: &mut Vec<Worker>)
    requires seated { IsSeated turn.now (length items.now + 1) seat.old }
    requires none { own seat.old ≡ [] }
    requires room { (workers.old.items ≡ []) × (length items.now ≤ vec_capacity workers.old) }
    ensures seated { IsSeated turn.now 1 seat.new }
    ensures none { own seat.new ≡ [] }
    ensures ready { All (λ worker. IsReady turn.now worker.seat) workers.new.items }
    ensures items { (weight : ℕ → ℕ) →
        sum_by (λ worker. weight worker.item) workers.new.items ≡ sum_by weight items.now }
    ensures len { vec_len workers.new ≡ length items.now }
{
    for item in items {
        workers.push_reserved(Worker {
            seat: turn.split(seat, 1),
            item: *item,
            written: false,
        });
    }
}

/// Takes in the seats of all workers, and says whether each has written its item.
fn gather(turn: &Turn<Roll>, seat: &mut Seat<Roll>, mut workers: Vec<Worker>) -> bool
    requires seated { IsSeated turn.now 1 seat.old }
    requires none { own seat.old ≡ [] }
    requires done { All (λ worker. IsDone turn.now worker.item worker.written worker.seat)
        workers.items }
    ensures seated { IsSeated turn.now (vec_len workers + 1) seat.new }
    ensures added { IsTrue result →
        Adds (λ weight. sum_by (λ worker. weight worker.item) workers.items) seat.new }
{
    let mut all = true;
    while let Some(worker) = workers.pop() {
        let Worker {
            seat: other,
            item: _,
            written,
        } = worker;
        turn.join(seat, other);
        all = all && written;
    }
    workers.destroy_empty();
    all
}

fn run<R: Threads + Wait + Sync>(
    rt: &R,
    turn: Turn<Roll>,
    mut seat: Seat<Roll>,
    mut workers: Vec<Worker>,
    items: &[u32],
) -> Option<Roll>
    requires seated { IsSeated turn (length items.now + 1) seat }
    requires all_shares { all_shares turn ≡ length items.now + 1 }
    requires none { own seat ≡ [] }
    requires room { (workers.items ≡ []) × (length items.now ≤ vec_capacity workers) }
    ensures { IfSome result (λ roll. HasEach items.now roll.items.items) }
{
    seat_all(&turn, &mut seat, items, &mut workers);
    visit_all(rt, &turn, workers.as_mut_slice());
    let all = gather(&turn, &mut seat, workers);
    let roll = turn.close(seat);
    if all { Some(roll) } else { None }
}

/// The items in one list, each written by a worker of its own, however the threads are run.
pub(crate) fn written_by_all<R: Threads + Wait + Sync>(
    rt: &R,
    alloc: Global,
    items: &[u32],
) -> Result<Roll, AllocError>
    requires { length items.now < 2 ^ 32 - 1 }
    ensures { IfOk result (λ roll. HasEach items.now roll.items.items) }
{
    let workers = Vec::with_capacity(alloc, items.len())?;
    let roll = Roll {
        items: Vec::new(alloc),
    };
    match Turn::new(alloc, roll, items.len() as u32 + 1) {
        Ok((turn, seat)) => run(rt, turn, seat, workers, items).ok_or(AllocError),
        Err(error) => {
            workers.destroy_empty();
            Err(error)
        }
    }
}
