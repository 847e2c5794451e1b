//! Worked rows played on what threads share with no memory left, but for the makings: all other calls are answered, and wake, as ever.
use fi_channels::{
    ChannelState, EventState, OneshotBroadcastState, OneshotState, StateBroadcastState,
};
use fi_locks::{MutexState, SemaphoreState, TimerState};
use fi_parts::buffer::ArrayBuf;
use fi_run::{Answer, ChannelCall};
use std::alloc::AllocGlobal;
use std::random::RandomSource;
use std::sync::Wait;
use tests_driver::channel::ChannelOver;
use tests_driver::entries::{AnsweredCall, entries_of};
use tests_driver::event::Event;
use tests_driver::mutex::MutexOf;
use tests_driver::one_value::{BROADCAST, ONESHOT};
use tests_driver::refusals::rows::play_starved;
use tests_driver::semaphore::{ByOwners, ByReference, Opening};
use tests_driver::state::StateBroadcast;
use tests_driver::tasks::Tasks;
use tests_driver::timer::Timer;
use tests_driver::{Flavour, Opened, Play, Played, agrees};
use tests_help::hoard::Hoard;
use tests_help::refusals::no_memory;
use tests_rows::{channel, event, mutex, one_value, semaphore, state, text_of, timer};

// The row of this name, on an event that is reset.
fn on_event<R: Wait + Copy + RandomSource + AllocGlobal>(rt: &R, name: &str) -> Played {
    let row = text_of(&event::ROWS, name);
    play_starved::<R, EventState<u64>, _>(rt, &Event { is_set: false }, false, row)
}

#[test]
fn calls_on_an_event_take_no_memory(rt: HostRuntime) {
    let played = on_event(&rt, "event_set_and_reset").and(on_event(&rt, "event_cancels"));
    assert!(rt; played == Played::AsListed, "{played:?}");
}

#[test]
fn calls_on_channels_of_one_value_take_no_memory(rt: HostRuntime) {
    let row = text_of(&one_value::ONESHOT, "oneshot_one_value");
    let oneshot = play_starved::<_, OneshotState<u64, u64>, _>(&rt, &ONESHOT, (), row);
    let row = text_of(&one_value::BROADCAST, "broadcast_clones");
    let broadcast = play_starved::<_, OneshotBroadcastState<u64, u64>, _>(&rt, &BROADCAST, (), row);
    let played = oneshot.and(broadcast);
    assert!(rt; played == Played::AsListed, "{played:?}");
}

#[test]
fn calls_on_a_state_broadcast_take_no_memory(rt: HostRuntime) {
    let row = text_of(&state::ROWS, "state_broadcast_numbers");
    let played = play_starved::<_, StateBroadcastState<u64, u64>, _>(&rt, &StateBroadcast, (), row);
    assert!(rt; played == Played::AsListed, "{played:?}");
}

// The row of this name, on a channel over an array of this length. (A buffer that grows takes memory only if it has room.)
fn on_array<R, const N: usize>(rt: &R, name: &str) -> Played
where
    R: Wait + Copy + Drop + RandomSource + AllocGlobal,
{
    let row = text_of(&channel::ROWS, name);
    let flavour = &ChannelOver::<ArrayBuf<u64, N>>::new(N);
    play_starved::<R, ChannelState<u64, ArrayBuf<u64, N>, u64>, _>(rt, flavour, N, row)
}

#[test]
fn calls_on_channels_take_no_memory(rt: HostRuntime) {
    let places = on_array::<_, 2>(&rt, "channel_two_places");
    let closed = on_array::<_, 1>(&rt, "channel_close");
    let cancelled = on_array::<_, 0>(&rt, "channel_cancels_held");
    let streamed = on_array::<_, 1>(&rt, "stream_ends");
    let played = places.and(closed).and(cancelled).and(streamed);
    assert!(rt; played == Played::AsListed, "{played:?}");
}

// The row of this name, on a mutex of a seven.
fn on_mutex<R: Wait + Copy + RandomSource + AllocGlobal>(
    rt: &R,
    is_fair: bool,
    name: &str,
) -> Played {
    let row = text_of(&mutex::ROWS, name);
    let flavour = &MutexOf { value: 7, is_fair };
    play_starved::<R, MutexState<u64, u64>, _>(rt, flavour, (7, is_fair), row)
}

#[test]
fn calls_on_a_mutex_take_no_memory(rt: HostRuntime) {
    let played = on_mutex(&rt, true, "mutex_fair").and(on_mutex(&rt, false, "mutex_unfair"));
    assert!(rt; played == Played::AsListed, "{played:?}");
}

#[test]
fn calls_on_a_semaphore_take_no_memory(rt: HostRuntime) {
    let opening = Opening {
        is_fair: true,
        permits: 0,
    };
    let row = text_of(&semaphore::ROWS, "semaphore_tells_several");
    let borrowed = play_starved::<_, SemaphoreState<u64>, _>(
        &rt,
        &ByReference(opening),
        (0, true),
        row,
    );
    let owned = play_starved::<_, SemaphoreState<u64>, _>(&rt, &ByOwners(opening), (0, true), row);
    let played = borrowed.and(owned);
    assert!(rt; played == Played::AsListed, "{played:?}");
}

// The row of this name, on a timer.
fn on_timer<R: Wait + Copy + RandomSource + AllocGlobal>(rt: &R, name: &str) -> Played {
    let row = text_of(&timer::ROWS, name);
    play_starved::<R, TimerState<u64>, _>(rt, &Timer, (), row)
}

#[test]
fn calls_on_a_timer_take_no_memory(rt: HostRuntime) {
    let played = on_timer(&rt, "timer_expirations").and(on_timer(&rt, "timer_cancel"));
    assert!(rt; played == Played::AsListed, "{played:?}");
}

/// Plays a row where a making was refused memory before.
#[derive(Drop)]
struct AfterRefusal<'a, C> {
    entries: &'a [AnsweredCall<C>],
    hoard: Hoard,
    making: C,
    refusal: Answer<u64, u64>,
}

impl<C: Copy> AfterRefusal<'_, C> {
    // Whether the making is refused, and wakes nobody. Where memory has no end, none is made.
    fn is_refused<R: Wait, O: Opened<R, C>>(
        &mut self,
        rt: &R,
        tasks: &mut Tasks,
        opened: &mut O,
    ) -> bool {
        if !self.hoard.has_end() {
            return true;
        }
        let is_used_up = self.hoard.leave(0);
        let seen = opened.apply(rt, tasks, self.making);
        self.hoard.let_go();
        is_used_up && seen.agrees(rt, tasks, self.refusal, &[])
    }
}

impl<R: Wait, C: Copy> Play<R, C> for AfterRefusal<'_, C> {
    fn play<O: Opened<R, C>>(&mut self, rt: &R, tasks: &mut Tasks, opened: &mut O) -> Played {
        if !self.is_refused(rt, tasks, opened) {
            return Played::DiffersAt(0);
        }
        for (place, entry) in self.entries.iter().enumerate() {
            if !agrees(rt, tasks, opened, entry.line()) {
                return Played::DiffersAt(place);
            }
        }
        Played::AsListed
    }
}

type Rendezvous = ChannelState<u64, ArrayBuf<u64, 0>, u64>;

// How the rendezvous row goes after a receive that was refused.
fn after_refusal<R>(rt: &R) -> Option<Played>
where
    R: Wait + Copy + Drop + RandomSource + AllocGlobal,
{
    let mut tasks = Tasks::new(rt)?;
    let row = text_of(&channel::ROWS, "channel_rendezvous");
    let entries = entries_of::<R, Rendezvous>(rt, 0, row)?;
    let mut list = AfterRefusal {
        entries: entries.as_slice(),
        hoard: Hoard::new(rt.alloc()).ok()?,
        making: ChannelCall::Receive,
        refusal: Answer::Refused(no_memory(rt.alloc())?),
    };
    Some(ChannelOver::<ArrayBuf<u64, 0>>::new(0).play(rt, &mut tasks, &mut list))
}

#[test]
fn refused_growth(rt: HostRuntime) {
    let played = after_refusal(&rt);
    assert!(rt; played == Some(Played::AsListed), "{played:?}");
}
