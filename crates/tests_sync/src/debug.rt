//! The texts of `Debug`: those of the Rust crate, where it has the type.
ghost use Rattle.fi_sync.specs.Blanks.{IsLockBlank, IsPermitBlank};

use fi_parts::MockClock;
use fi_sync::{
    AutoResetEvent, AutoResetWait, Channel, ChannelReceive, ChannelSend, FutureKind,
    ManualResetEvent, Mutex, OneshotBroadcastChannel, OneshotChannel, Semaphore, SharedSemaphore,
    StateBroadcastChannel, TimedWait, TimerService,
};
use std::alloc::AllocGlobal;
use std::marker::Brand;
use std::sync::Wait;
use std::sync::ledger::{Blank, Ledger};
use tests_help::texts::shows;

// The text of every future of such a kind is the kind's name.
fn an_event_shows<R: Wait + AllocGlobal + Copy>(rt: R) -> Option<bool> {
    let event = ManualResetEvent::new(rt.alloc(), rt, false);
    let wait = event.wait().ok()?;
    let is_event = shows(rt.alloc(), &event, "ManualResetEvent");
    Some(is_event && shows(rt.alloc(), &wait, "GenericWaitForEventFuture"))
}

fn an_auto_reset_event_shows<R: Wait + AllocGlobal + Copy>(rt: R) -> bool {
    let event = AutoResetEvent::new(rt.alloc(), rt, false, true);
    let is_wait = AutoResetWait::name() == "WaitForAutoResetEventFuture";
    is_wait && shows(rt.alloc(), &event, "AutoResetEvent")
}

fn a_timer_shows<R: Wait + AllocGlobal + Copy>(rt: R) -> bool {
    let timer = TimerService::new(rt.alloc(), rt, MockClock::new());
    TimedWait::name() == "TimerFuture" && shows(rt.alloc(), &timer, "TimerService")
}

#[test]
fn an_event_and_a_timer_show_their_names(rt: HostRuntime) {
    let show = an_auto_reset_event_shows(rt) && a_timer_shows(rt);
    assert!(rt; show && an_event_shows(rt) == Some(true));
}

fn states_show<R: Wait + AllocGlobal + Copy>(rt: R) -> bool {
    let states = StateBroadcastChannel::<u64, R>::new(rt.alloc(), rt);
    shows(rt.alloc(), &states, "GenericStateBroadcastChannel")
}

#[test]
fn channels_of_one_value_show_their_names(rt: HostRuntime) {
    let oneshot = OneshotChannel::<u64, _>::new(rt.alloc(), rt);
    let is_oneshot = shows(rt.alloc(), &oneshot, "GenericOneshotChannel");
    let broadcast = OneshotBroadcastChannel::<u64, _>::new(rt.alloc(), rt);
    let is_broadcast = shows(rt.alloc(), &broadcast, "GenericOneshotBroadcastChannel");
    assert!(rt; is_oneshot && is_broadcast && states_show(rt));
}

fn a_channel_shows<R: Wait + AllocGlobal + Copy>(rt: R) -> Option<bool> {
    let channel = Channel::<u64, 2, R>::new(rt.alloc(), rt);
    let stream = channel.stream().ok()?;
    let is_channel = shows(rt.alloc(), &channel, "Channel");
    Some(is_channel && shows(rt.alloc(), &stream, "ChannelStream"))
}

#[test]
fn a_channel_and_its_futures_show_their_names(rt: HostRuntime) {
    let is_send = ChannelSend::name() == "ChannelSendFuture";
    let is_receive = ChannelReceive::name() == "ChannelReceiveFuture";
    assert!(rt; is_send && is_receive && a_channel_shows(rt) == Some(true));
}

fn mutex_shows<R: Wait + AllocGlobal + Copy, L: Ledger>(rt: R, blank: Blank) -> Option<bool>
    requires blank { IsLockBlank L.Ledger blank }
{
    let alloc = rt.alloc();
    let mutex = Mutex::<u64, R, L>::new(alloc, rt, blank, 7, true);
    let free = shows(alloc, &mutex, "Mutex { is_locked: false }");
    let lock = mutex.lock().ok()?;
    let guard = mutex.try_lock()?;
    let locked = shows(alloc, &mutex, "Mutex { is_locked: true }");
    let names = shows(alloc, &guard, "GenericMutexGuard")
        && shows(alloc, &lock, "GenericMutexLockFuture");
    Some(free && locked && names)
}

#[test]
fn a_mutex_shows_whether_it_is_locked(rt: HostRuntime) {
    assert_eq!(rt;
        mutex_shows::<HostRuntime, Brand>(rt, Blank::new(1)),
        Some(true)
    );
}

fn semaphore_shows<R: Wait + AllocGlobal + Copy, L: Ledger>(rt: R, blank: Blank) -> Option<bool>
    requires blank { IsPermitBlank L.Ledger blank }
{
    let alloc = rt.alloc();
    let semaphore = Semaphore::<R, L>::new(alloc, rt, blank, true, 5);
    let releaser = semaphore.try_acquire(2)?;
    let acquire = semaphore.acquire(1).ok()?;
    let names = shows(alloc, &releaser, "GenericSemaphoreReleaser")
        && shows(alloc, &acquire, "GenericSemaphoreAcquireFuture");
    Some(names && shows(alloc, &semaphore, "Semaphore { permits: 3 }"))
}

#[test]
fn a_semaphore_shows_its_permits(rt: HostRuntime) {
    let blank = Blank::new(18446744073709551615);
    assert_eq!(rt;
        semaphore_shows::<HostRuntime, Brand>(rt, blank),
        Some(true)
    );
}

fn shared_semaphore_shows<R, L: Ledger>(rt: R, blank: Blank) -> Option<bool>
where
    R: Wait + AllocGlobal + Copy + Drop,
    requires blank { IsPermitBlank L.Ledger blank }
{
    let alloc = rt.alloc();
    let semaphore = SharedSemaphore::<R, L>::new(alloc, rt, blank, true, 5).ok()?;
    let releaser = semaphore.try_acquire(2).ok()??;
    let acquire = semaphore.acquire(1).ok()?;
    let names = shows(alloc, &releaser, "GenericSharedSemaphoreReleaser")
        && shows(alloc, &acquire, "GenericSharedSemaphoreAcquireFuture");
    Some(names && shows(alloc, &semaphore, "Semaphore { permits: 3 }"))
}

#[test]
fn a_shared_semaphore_shows_its_permits(rt: HostRuntime) {
    let blank = Blank::new(18446744073709551615);
    assert_eq!(rt;
        shared_semaphore_shows::<HostRuntime, Brand>(rt, blank),
        Some(true)
    );
}
