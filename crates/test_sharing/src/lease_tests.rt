ghost use Rattle.std.specs.Prelude.{◌≡◌, IfOk};

use linked_list_allocator::LocalHeap;
use lun_lease::{Claimed, LeaseSeat, LeaseTable};
use std::alloc::{AllocError, Global};
use std::process::Abort;
use std::test::*;
use std::thread;

// Two seats of a new table.
fn two_seats(alloc: Global) -> Result<(LeaseSeat, LeaseSeat), Fail>
    ensures { IfOk result (λ s. s.0.table ≡ s.1.table) }
{
    let mut seats = LeaseTable::new(alloc)?;
    let first = seats.pop().flatten().ok_or("a seat")?;
    let second = seats.pop().flatten().ok_or("a seat")?;
    Ok((first, second))
}

#[test]
fn a_held_lun_is_refused_until_it_is_released(rt: HostRuntime) -> Result<(), Fail> {
    let (first, second) = two_seats(rt.alloc())?;
    let Claimed::Got(lease) = first.claim(1) else {
        panic!(rt; "nobody held LUN 1")
    };
    let Claimed::Held(second) = second.claim(1) else {
        panic!(rt; "the first seat holds LUN 1")
    };
    let _first = lease.loaded().idle().release();
    let Claimed::Got(lease) = second.claim(1) else {
        panic!(rt; "LUN 1 was released")
    };
    assert_eq!(rt; lease.lun(), 1);
    Ok(())
}

#[test]
fn each_seat_holds_a_lun_of_its_own(rt: HostRuntime) -> Result<(), Fail> {
    let mut seats = LeaseTable::new(rt.alloc())?;
    for lun in 0..16u32 {
        let seat = seats.pop().flatten().ok_or("a seat")?;
        let Claimed::Got(lease) = seat.claim(lun) else {
            panic!(rt; "nobody held LUN {lun}")
        };
        assert_eq!(rt; lease.lun(), lun);
    }
    assert!(rt; seats.pop().is_none());
    Ok(())
}

#[test]
fn two_leases_are_told_apart_and_stay(rt: HostRuntime) -> Result<(), Fail> {
    let (first, second) = two_seats(rt.alloc())?;
    let Claimed::Got(mut third_lun) = first.claim(3) else {
        panic!(rt; "nobody held LUN 3")
    };
    let Claimed::Got(fourth_lun) = second.claim(4) else {
        panic!(rt; "nobody held LUN 4")
    };
    let mut fourth_lun = fourth_lun.loaded();
    third_lun.tell_apart(&mut fourth_lun);
    assert_eq!(rt; (third_lun.lun(), fourth_lun.lun()), (3, 4));
    let first = third_lun.release();
    let second = fourth_lun.idle().release();
    assert!(rt; matches!(first.claim(4), Claimed::Got(_)));
    assert!(rt; matches!(second.claim(3), Claimed::Got(_)));
    Ok(())
}

#[test]
fn a_dropped_lease_leaves_its_lun_claimed(rt: HostRuntime) -> Result<(), Fail> {
    let (first, second) = two_seats(rt.alloc())?;
    drop(first.claim(15));
    assert!(rt; matches!(second.claim(15), Claimed::Held(_)));
    Ok(())
}

// Claims and releases LUN 0 a thousand times, and counts how often it was given.
fn claim_and_release(mut seat: LeaseSeat) -> (LeaseSeat, u32) {
    let mut given: u32 = 0;
    for _ in 0..1000 {
        seat = match seat.claim(0) {
            Claimed::Got(lease) => {
                given = given.saturating_add(1);
                lease.release()
            }
            Claimed::Held(seat) => seat,
        };
    }
    (seat, given)
}

#[test]
fn two_threads_claim_and_release_one_lun(rt: HostRuntime) -> Result<(), Fail> {
    let (first, second) = two_seats(rt.alloc())?;
    let ((first, by_first), (_second, by_second)) = thread::join(
        &rt,
        move || claim_and_release(first),
        move || claim_and_release(second),
    );
    assert!(rt; 0 < by_first || 0 < by_second);
    assert!(rt; matches!(first.claim(0), Claimed::Got(_)));
    Ok(())
}

#[test]
fn refused_memory(rt: HostRuntime) -> Result<(), Fail> {
    let mut refused: usize = 0;
    let mut made: usize = 0;
    for size in 0..64usize {
        let heap = LocalHeap::new(rt.alloc(), 16 * size)?;
        match LeaseTable::new(&heap) {
            Ok(mut seats) => {
                let seat = seats.pop().flatten().ok_or("a seat")?;
                assert!(rt; matches!(seat.claim(0), Claimed::Got(_)));
                made = size + 1;
            }
            Err(AllocError) => refused = size + 1,
        }
    }
    // Small heaps refuse, and the larger ones don't.
    assert!(rt; 0 < refused && refused < made);
    Ok(())
}
