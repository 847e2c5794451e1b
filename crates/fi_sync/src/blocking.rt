//! Calls that block their thread until a future is ready.
ghost use Rattle.std.specs.Prelude.{◌≡◌, IfOk, IfErr};
ghost use Rattle.fi_parts.specs.declared.errors.Fault.{Fault};

use fi_parts::Fault;
use fi_parts::memory::block_until;
use futures::Future;
use std::alloc::AllocGlobal;
use std::random::RandomSource;
use std::sync::Wait;

/// A runtime by which a thread can block until a future is ready: it waits, gives the executor its random number, and takes memory.
///
/// # Examples
///
/// ```
/// use futures_intrusive::blocking::Blocking;
/// use futures_intrusive::channel::UnbufferedChannel;
///
/// fn send_and_close<R: Blocking>(channel: &UnbufferedChannel<u64, R>) {
///     let _ = channel.send_blocking(1);
///     channel.close();
/// }
/// ```
pub trait Blocking: Wait + RandomSource + AllocGlobal {}

impl<R: Wait + RandomSource + AllocGlobal> Blocking for R {}

/// Blocks this thread until the future is ready, and answers its output.
///
/// Refused with `NoMemory` where the executor that polls it can't be made; then the future is dropped.
pub fn wait_for<R: Blocking, F: Future>(rt: &R, future: F) -> Result<F::Output, Fault>
    requires { F.can_poll future }
    ensures given { IfOk result (F.gives future) }
    ensures fault { IfErr result (λ fault. fault ≡ Fault.NoMemory) }
{
    match block_until(rt, future) {
        Ok(output) => Ok(output),
        Err(refused) => Err(Fault::from(refused)),
    }
}
