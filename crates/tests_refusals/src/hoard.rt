//! That memory really runs out.

use std::test::Fail;
use tests_help::hoard::runs_out;

#[test]
fn memory_runs_out(rt: HostRuntime) -> Result<(), Fail> {
    assert!(rt; runs_out(rt.alloc())?, "this process is refused no memory");
    Ok(())
}
