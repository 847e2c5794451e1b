//! What a node costs, that its memory is used again and given back, and a list that two threads use.
use fi_parts::{LinkedList, NoRoom};
use std::alloc::Global;
use std::sync::{Mutex, Wait};
use std::test::Fail;
use std::{fs, thread};

// A list of so many live slots of 24 bytes each.
fn small_nodes(alloc: Global, count: u64) -> Result<LinkedList<[u64; 3]>, NoRoom<[u64; 3]>> {
    let mut list = LinkedList::new(alloc);
    for i in 0..count {
        list.claim([i; 3])?;
    }
    Ok(list)
}

// A node of 24 bytes takes a block of 56, with the allocator's own 8 and its pointer in the slab, and the slab has room for more
// while it grows: some 80 to 100 bytes as the program is built. The interpreter's values take 180.
#[test]
fn a_node_and_its_entry_are_small(rt: HostRuntime) -> Result<(), Fail> {
    let before = pages(&rt)?;
    let list = small_nodes(rt.alloc(), 200_000).ok().ok_or("room")?;
    let after = pages(&rt)?;
    assert!(rt; list.is_empty(), "none of them was linked");
    assert!(rt;
        after.saturating_sub(before) < 200_000 * 200 / 4096,
        "{before} pages before, {after} after"
    );
    Ok(())
}

// A list of so many live slots, half of them linked, some freed and claimed again, comes to its end.
fn make_and_end(alloc: Global, count: u64) -> Result<(), NoRoom<[u64; 512]>> {
    let mut list = LinkedList::new(alloc);
    for i in 0..count {
        let slot = list.claim([i; 512])?;
        if i % 2 == 0 {
            list.add_front(slot);
        }
        if i % 4 == 0 {
            if let Some(oldest) = list.remove_last() {
                list.free(oldest);
            }
        }
    }
    Ok(())
}

// The pages of memory that this process holds, as Linux counts them.
fn pages(rt: &HostRuntime) -> Result<u64, Fail> {
    let counts = fs::read_to_string(rt, "/proc/self/statm")?;
    let resident = counts.split_whitespace().nth(1).ok_or("a second number")?;
    Ok(resident.parse().ok().ok_or("a number")?)
}

fn make_and_end_often(alloc: Global) -> Result<(), NoRoom<[u64; 512]>> {
    for _ in 0..40 {
        make_and_end(alloc, 2_000)?;
    }
    Ok(())
}

// The blocks of these lists take some 80,000 pages in all, if they aren't given back. The first forty lists have the
// allocator take what it keeps for itself.
#[test]
fn all_memory_is_given_back(rt: HostRuntime) -> Result<(), Fail> {
    make_and_end_often(rt.alloc()).ok().ok_or("room")?;
    let before = pages(&rt)?;
    make_and_end_often(rt.alloc()).ok().ok_or("room")?;
    let after = pages(&rt)?;
    assert!(rt;
        after.saturating_sub(before) < 20_000,
        "{before} pages before, {after} after"
    );
    Ok(())
}

// Claims and frees a node, so many times, while another one lives.
fn claim_and_free(list: &mut LinkedList<[u64; 512]>, count: u64) -> Result<(), NoRoom<[u64; 512]>> {
    let kept = list.claim([1; 512])?;
    for i in 0..count {
        let slot = list.claim([i; 512])?;
        if list.get(slot).is_some() && slot != kept {
            list.free(slot);
        }
    }
    Ok(())
}

// While one node of a list lives, the memory of those that are freed serves the next ones: 20,000 nodes of a page each take a
// few pages.
#[test]
fn freed_memory_is_used_again(rt: HostRuntime) -> Result<(), Fail> {
    let mut list = LinkedList::new(rt.alloc());
    let before = pages(&rt)?;
    claim_and_free(&mut list, 20_000).ok().ok_or("room")?;
    let after = pages(&rt)?;
    assert!(rt;
        after.saturating_sub(before) < 5_000,
        "{before} pages before, {after} after"
    );
    Ok(())
}

// Puts so many numbers in front of the list, and takes the oldest one out after every second; answers what came out.
fn put_and_take<R: Wait>(rt: &R, list: &Mutex<LinkedList<u64>>, count: u64) -> u64 {
    let mut taken = 0u64;
    for i in 0..count {
        let mut list = list.lock(rt);
        if let Ok(slot) = list.claim(1) {
            list.add_front(slot);
        }
        if i % 2 == 0 {
            if let Some(oldest) = list.remove_last() {
                taken = taken.wrapping_add(list.free(oldest));
            }
        }
    }
    taken
}

#[test]
fn two_threads_use_a_list(rt: HostRuntime) {
    let list = Mutex::new(LinkedList::new(rt.alloc()));
    let shared = &list;
    let host = &rt;
    let (one, other) = thread::join(
        host,
        move || put_and_take(host, shared, 1_000),
        move || put_and_take(host, shared, 1_000),
    );
    let mut left = 0u64;
    let mut list = list.lock(host);
    for _ in 0..2_000 {
        if let Some(oldest) = list.remove_last() {
            left = left.wrapping_add(list.free(oldest));
        }
    }
    assert_eq!(rt; (one.wrapping_add(other), left), (1_000, 1_000));
}
