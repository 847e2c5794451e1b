//! The calls of the worker pool that take memory: a submit for which the queue has to grow, at first and later, and a wait.
use fi_desk::PoolState;
use std::test::Fail;
use tests_driver::refusals::scene_rows::{SceneRow, plain_tries_of_rows};
use tests_help::hoard::Hoard;

const CALLS: [SceneRow; 4] = [
    "wait a; poll a 1; submit 5 -> no-memory 5; start; start; finish; shutdown; start; finish; poll a 3",
    "wait a; poll a 1; submit 1; submit 2; submit 3; submit 4; submit 5 -> no-memory 5; \
        start; start; finish; shutdown; start; finish; poll a 3",
    "wait a; wait b; wait c; wait d; poll a 1; submit 5; wait e -> no-memory; \
        poll e 2; start; shutdown; finish; poll e 2",
    "wait a; wait b; wait c; wait d; poll a 1; shutdown; wait e -> no-memory; poll e 2; poll a 2; submit 5",
];

#[test]
fn calls_of_a_pool(rt: HostRuntime) -> Result<(), Fail> {
    let mut hoard = Hoard::new(rt.alloc())?;
    let tried = plain_tries_of_rows::<PoolState<u64>>(rt.alloc(), &mut hoard, (1, 100), &CALLS);
    assert!(rt; tried.is_right(1), "{tried:?}");
    Ok(())
}
