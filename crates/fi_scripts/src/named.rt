//! The primitives that a script may name.
ghost use Rattle.std.specs.Prelude.{◌≡◌, MatchOption};
ghost use Rattle.fi_scripts.specs.Primitives.{known, IsNoName};

/// A primitive of scripts.
#[derive(Clone, Copy, Debug, PartialEq, Eq)]
pub enum Named {
    Channel,
    Event,
    Oneshot,
    OneshotBroadcast,
    StateBroadcast,
    Timer,
    Mutex,
    Semaphore,
    Pool,
}

impl Named {
    /// Parses a primitive's name.
    pub fn by(word: &[u8]) -> Option<Named>
        ensures { MatchOption result (IsNoName word.now) (λ named. word.now ≡ (known named).name) }
    {
        if word == b"channel".as_slice() {
            Some(Named::Channel)
        } else if word == b"event".as_slice() {
            Some(Named::Event)
        } else if word == b"oneshot".as_slice() {
            Some(Named::Oneshot)
        } else if word == b"oneshot-broadcast".as_slice() {
            Some(Named::OneshotBroadcast)
        } else if word == b"state-broadcast".as_slice() {
            Some(Named::StateBroadcast)
        } else if word == b"timer".as_slice() {
            Some(Named::Timer)
        } else if word == b"mutex".as_slice() {
            Some(Named::Mutex)
        } else if word == b"semaphore".as_slice() {
            Some(Named::Semaphore)
        } else if word == b"pool".as_slice() {
            Some(Named::Pool)
        } else {
            None
        }
    }
}
