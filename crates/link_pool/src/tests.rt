// A pool of numbers, between two threads.
ghost use Rattle.std.specs.Prelude.{◌≡◌, ◌<◌, true};
ghost use Rattle.crossbeam_queue.specs.Passes.{view, IsPassOf};

use crate::{Pool, PoolPass};
use std::sync::Wait;
use std::test::Fail;
use std::thread;
use std::thread::join;

// Takes twice.
fn take_two<R: Wait>(
    rt: &R,
    pool: &Pool<u32>,
    worker: &mut PoolPass<u32>,
) -> (Option<u32>, Option<u32>)
    requires { IsPassOf pool.now.queue worker.old × (0 < (view worker.old).parts) }
    ensures { IsPassOf pool.now.queue worker.new × ((view worker.new).parts ≡ (view worker.old).parts) × ((view worker.new).door ≡ (view worker.old).door) }
{
    let first = pool.take(rt, worker);
    let second = pool.take(rt, worker);
    (first, second)
}

// A full pool gives a link back, and takes one again after a take.
#[test]
fn full_pool_gives_back(rt: HostRuntime) -> Result<(), Fail> {
    let (pool, mut door) = Pool::new(rt.alloc(), 1)?;
    assert_eq!(rt; pool.offer(&rt, &mut door, 7u32), Ok(()));
    assert_eq!(rt; pool.offer(&rt, &mut door, 8), Err(8));
    let mut worker = pool.split(&mut door);
    let (first, worker) = join(
        &rt,
        || {
            let two = take_two(&rt, &pool, &mut worker);
            (two, worker)
        },
        || (),
    )
    .0;
    assert_eq!(rt; first, (Some(7), None));
    assert_eq!(rt; pool.offer(&rt, &mut door, 9), Ok(()));
    pool.join(&mut door, worker);
    assert_eq!(rt; pool.take(&rt, &mut door), Some(9));
    assert_eq!(rt; pool.take(&rt, &mut door), None);
    Ok(())
}

// How many numbers go through.
const MANY: u32 = 2000;

// Offers the numbers from 0 in turn, each until it is taken in.
fn offer_all<R: Wait>(rt: &R, pool: &Pool<u32>, door: &mut PoolPass<u32>)
    requires { IsPassOf pool.now.queue door.old × ((view door.old).door ≡ true) }
    ensures { IsPassOf pool.now.queue door.new }
{
    let mut next = 0;
    for _ in rt.forever() {
        if next >= MANY {
            return;
        }
        match pool.offer(rt, door, next) {
            Ok(()) => next += 1,
            Err(_) => thread::yield_now(),
        }
    }
}

// Takes as many numbers as are offered, and says whether they came in turn.
fn take_all<R: Wait>(rt: &R, pool: &Pool<u32>, worker: &mut PoolPass<u32>) -> bool
    requires { IsPassOf pool.now.queue worker.old × (0 < (view worker.old).parts) }
    ensures { IsPassOf pool.now.queue worker.new }
{
    let mut next = 0;
    let mut in_turn = true;
    for _ in rt.forever() {
        if next >= MANY {
            break;
        }
        match pool.take(rt, worker) {
            Some(number) => {
                in_turn = in_turn && number == next;
                next += 1;
            }
            None => thread::yield_now(),
        }
    }
    in_turn
}

#[test]
fn numbers_come_out_in_turn(rt: HostRuntime) -> Result<(), Fail> {
    let (pool, mut door) = Pool::new(rt.alloc(), 3)?;
    let mut worker = pool.split(&mut door);
    let ((), in_turn) = join(
        &rt,
        || offer_all(&rt, &pool, &mut door),
        || take_all(&rt, &pool, &mut worker),
    );
    assert!(rt; in_turn);
    Ok(())
}
