use crate::{OddTicket, doubled, squares_of_even};
use layer_tiles::Tally;
use map_outside::Counts;
use std::alloc::Global;
use std::sync::atomic::{AtomicU64, Ordering};
use std::test::Fail;
use tile_workers::{Board, Gate, NoGate};

// Every job is done, also beside jobs that have no answer, and the tally has each job's looks and picks.
#[test]
fn each_number_of_workers_gives_the_same(rt: HostRuntime) -> Result<(), Fail> {
    let alloc: Global = rt.alloc();
    for count in [0u64, 1, 2, 7, 100] {
        for workers in [1u32, 2, 3, 64] {
            assert!(rt; count < 1000 && workers > 0 && workers <= 64);
            let mut tally = Counts::new();
            let list = squares_of_even(&rt, alloc, count, workers, &NoGate, &mut tally)?;
            assert_eq!(rt; list.len() as u64, count);
            let mut place = 0u64;
            for square in list.iter() {
                assert!(rt; place < 1000);
                if place % 2 == 0 {
                    assert_eq!(rt; *square, Ok(place * place));
                } else {
                    assert_eq!(rt; *square, Err(OddTicket));
                }
                place += 1;
            }
            assert_eq!(rt; tally.looks(), count * 2);
            assert_eq!(rt; tally.picks(), count);
        }
    }
    Ok(())
}

#[test]
fn a_borrowed_list_is_doubled(rt: HostRuntime) -> Result<(), Fail> {
    let alloc: Global = rt.alloc();
    for workers in [1u32, 4] {
        assert!(rt; workers > 0 && workers <= 64);
        let mut tally = Counts::new();
        let lists = doubled(
            &rt,
            alloc,
            &[5, 0, 4_294_967_295],
            workers,
            &NoGate,
            &mut tally,
        )?;
        let mut sum = 0u64;
        for list in lists {
            for value in list? {
                sum = sum.wrapping_mul(10).wrapping_add(value);
            }
        }
        // 10 * 100 + 0 * 10 + 8589934590
        assert_eq!(rt; sum, 8_589_935_590);
        assert_eq!(rt; tally.looks(), 3);
    }
    Ok(())
}

// One worker alone takes a tally that can't be forked.
#[test]
fn one_worker_forks_nothing(rt: HostRuntime) -> Result<(), Fail> {
    let mut whole = Counts::new();
    let mut part = whole.fork();
    let list = squares_of_even(&rt, rt.alloc(), 3, 1, &NoGate, &mut part)?;
    assert_eq!(rt; list.as_slice(), [Ok(0), Err(OddTicket), Ok(4)].as_slice());
    assert_eq!(rt; part.looks(), 6);
    whole.absorb(part);
    assert_eq!(rt; whole.looks(), 6);
    Ok(())
}

/// Each draw, by whichever seat, gives how many numbers were drawn before.
#[test]
fn seats_draw_from_one_board(rt: HostRuntime) -> Result<(), Fail> {
    let (board, mut seat) = Board::new(rt.alloc())?;
    let first = board.draw(&mut seat);
    let mut other = board.split(&mut seat);
    let second = board.draw(&mut other);
    let third = board.draw(&mut seat);
    board.join(&mut seat, other);
    let fourth = board.draw(&mut seat);
    let count = board.close(seat);
    assert_eq!(rt; [first, second, third, fourth, count], [0, 1, 2, 3, 4]);
    Ok(())
}

/// Holds job 0 until job 1 has entered, for so many turns at most, and counts the entries.
#[derive(Drop)]
struct Meeting {
    first: AtomicU64,
    second: AtomicU64,
    late: AtomicU64,
}

impl Gate for Meeting {
    fn enter(&self, ticket: u64) {
        if ticket == 1 {
            self.second.fetch_add(1, Ordering::SeqCst);
        }
        if ticket == 0 {
            self.first.fetch_add(1, Ordering::SeqCst);
            for _turn in 0..100_000_000u64 {
                if self.second.load(Ordering::SeqCst) > 0 {
                    return;
                }
            }
            self.late.fetch_add(1, Ordering::SeqCst);
        }
    }
}

#[test]
fn two_workers_are_at_work_at_once(rt: HostRuntime) -> Result<(), Fail> {
    let gate = Meeting {
        first: AtomicU64::new(0),
        second: AtomicU64::new(0),
        late: AtomicU64::new(0),
    };
    let mut tally = Counts::new();
    let list = squares_of_even(&rt, rt.alloc(), 2, 2, &gate, &mut tally)?;
    assert_eq!(rt; list.as_slice(), [Ok(0), Err(OddTicket)].as_slice());
    assert_eq!(rt; gate.late.load(Ordering::SeqCst), 0);
    assert_eq!(rt; gate.first.load(Ordering::SeqCst), 1);
    assert_eq!(rt; gate.second.load(Ordering::SeqCst), 1);
    Ok(())
}
