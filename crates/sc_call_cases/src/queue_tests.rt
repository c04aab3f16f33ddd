//! Long lists and queues, with ample memory.

use sc_queue::{LongList, Queue};
use sc_value::{CloneIn, NoMemory, SessId};
use std::alloc::Global;
use std::test::Fail;

/// The numbers below this one, in their order.
fn numbers(alloc: Global, count: u32) -> Result<LongList<SessId>, NoMemory> {
    let mut list = LongList::new(alloc);
    for number in 0..count {
        list.push(SessId(number))?;
    }
    Ok(list)
}

/// The same, as they wait.
fn waiting(alloc: Global, count: u32) -> Result<Queue<SessId>, NoMemory> {
    let mut queue = Queue::new(alloc);
    for number in 0..count {
        queue.push(SessId(number))?;
    }
    Ok(queue)
}

fn pop_times(alloc: Global, queue: &mut Queue<SessId>, times: u32) -> Result<(), NoMemory> {
    for _ in 0..times {
        queue.pop(alloc)?;
    }
    Ok(())
}

fn number_of(found: Option<&SessId>) -> Option<u32> {
    match found {
        Some(found) => Some(found.0),
        None => None,
    }
}

/// How many items go next, which is the first that waits then, and how many wait. Once half of them
/// are gone, those that wait get a list of their own.
const GOINGS: [(u32, Option<u32>, usize); 6] = [
    (0, Some(0), 100),
    (49, Some(49), 51),
    (2, Some(51), 49),
    (48, Some(99), 1),
    (1, None, 0),
    (1, None, 0),
];

// The 32 newest items stand for themselves, the others in parts.
#[test]
fn each_item_keeps_its_place(rt: HostRuntime) -> Result<(), Fail> {
    let list = numbers(rt.alloc(), 1_000)?;
    for at in [0, 31, 32, 33, 967, 968, 999] {
        assert_eq!(rt; number_of(list.get(at)), Some(at as u32), "at {at}");
    }
    assert_eq!(rt; number_of(list.get(1_000)), None);
    Ok(())
}

#[test]
fn a_copy_of_a_list_stays_as_it_was(rt: HostRuntime) -> Result<(), Fail> {
    let mut list = numbers(rt.alloc(), 40)?;
    let copy = list.clone_in(rt.alloc())?;
    list.push(SessId(7))?;
    assert_eq!(rt; number_of(copy.get(40)), None);
    assert_eq!(rt; number_of(list.get(40)), Some(7));
    Ok(())
}

#[test]
fn what_stands_behind_a_place(rt: HostRuntime) -> Result<(), Fail> {
    let list = numbers(rt.alloc(), 100)?;
    for (from, count) in [(0, 100), (97, 3), (100, 0), (101, 0)] {
        assert_eq!(rt; list.behind(from)?.len(), count, "behind {from}");
    }
    Ok(())
}

#[test]
fn items_go_in_their_order(rt: HostRuntime) -> Result<(), Fail> {
    let mut queue = waiting(rt.alloc(), 100)?;
    for (times, first, left) in GOINGS {
        pop_times(rt.alloc(), &mut queue, times)?;
        assert_eq!(rt;
            (number_of(queue.first()), queue.len()),
            (first, left),
            "{times} more"
        );
    }
    Ok(())
}

#[test]
fn a_copy_of_a_queue_keeps_what_waits(rt: HostRuntime) -> Result<(), Fail> {
    let mut queue = waiting(rt.alloc(), 70)?;
    pop_times(rt.alloc(), &mut queue, 3)?;
    let copy = queue.clone_in(rt.alloc())?;
    pop_times(rt.alloc(), &mut queue, 67)?;
    assert!(rt; queue.is_empty());
    assert_eq!(rt;
        (number_of(copy.first()), copy.to_list()?.len()),
        (Some(3), 67)
    );
    Ok(())
}
