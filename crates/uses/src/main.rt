//! What the primitives are for: seven programs as their users would write them. What they print does not depend on which thread runs when.
#![tactic(auto)]

mod connection_pool;
mod database;
mod limiter;
mod pool_service;
mod replay;
mod runtime;
mod scheduler;
mod watcher;

use std::io;
use std::marker::Brand;
use std::sync::ledger::Blank;

fn main(rt: HostRuntime) -> io::Result<()> {
    pool_service::serve::<HostRuntime, Brand, Brand>(rt, Blank::new(u64::MAX), Blank::new(1))?;
    limiter::limit::<HostRuntime, Brand>(rt, Blank::new(u64::MAX))?;
    watcher::watch(rt)?;
    scheduler::schedule(rt)?;
    connection_pool::share(rt)?;
    database::connect::<HostRuntime, Brand>(rt, Blank::new(u64::MAX))?;
    replay::record::<HostRuntime, Brand>(rt, Blank::new(3))
}
