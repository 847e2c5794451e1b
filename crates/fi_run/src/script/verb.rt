//! The verbs of script lines.
ghost use Rattle.std.specs.Prelude.{◌≡◌, ◌≤◌, MatchOption, length};
ghost use Rattle.fi_run.specs.Verbs.{verb_text, IsNoVerb};

/// What a line asks for.
#[derive(Clone, Copy, Debug, PartialEq, Eq)]
pub enum Verb {
    Acquire,
    Cancel,
    Check,
    Close,
    Deadline,
    Delay,
    Disarm,
    Finish,
    GiveBack,
    Held,
    IsLocked,
    IsSet,
    Lock,
    Next,
    Permits,
    Poll,
    Receive,
    Release,
    Reset,
    Send,
    Set,
    Shutdown,
    Start,
    Stream,
    Submit,
    TryAcquire,
    TryLock,
    TryReceive,
    TrySend,
    Unlock,
    Wait,
}

impl Verb {
    /// The word that spells it.
    pub fn text(self) -> &'static str
        ensures { result.now ≡ verb_text self }
    {
        match self {
            Verb::Acquire => "acquire",
            Verb::Cancel => "cancel",
            Verb::Check => "check",
            Verb::Close => "close",
            Verb::Deadline => "deadline",
            Verb::Delay => "delay",
            Verb::Disarm => "disarm",
            Verb::Finish => "finish",
            Verb::GiveBack => "give-back",
            Verb::Held => "held",
            Verb::IsLocked => "is-locked",
            Verb::IsSet => "is-set",
            Verb::Lock => "lock",
            Verb::Next => "next",
            Verb::Permits => "permits",
            Verb::Poll => "poll",
            Verb::Receive => "receive",
            Verb::Release => "release",
            Verb::Reset => "reset",
            Verb::Send => "send",
            Verb::Set => "set",
            Verb::Shutdown => "shutdown",
            Verb::Start => "start",
            Verb::Stream => "stream",
            Verb::Submit => "submit",
            Verb::TryAcquire => "try-acquire",
            Verb::TryLock => "try-lock",
            Verb::TryReceive => "try-receive",
            Verb::TrySend => "try-send",
            Verb::Unlock => "unlock",
            Verb::Wait => "wait",
        }
    }

    /// The letter of the labels that a history's script gives to the futures which it makes.
    pub(crate) fn letter(self) -> char {
        match self {
            Verb::Acquire => 'a',
            Verb::Lock => 'l',
            Verb::Send => 's',
            Verb::Deadline | Verb::Delay => 't',
            Verb::Wait => 'w',
            // Receives and streams, which share their slots.
            _ => 'r',
        }
    }

    /// The verb that a word spells, if it spells one.
    #[inline(always)]
    pub fn by(word: &[u8]) -> Option<Verb>
        ensures { MatchOption result (IsNoVerb word.now) (λ verb. word.now ≡ verb_text verb) }
    {
        // By its length first, so that a word is compared with few texts.
        if word.len() <= 4 {
            Verb::short(word)
        } else if word.len() <= 6 {
            Verb::middling(word)
        } else {
            Verb::long(word)
        }
    }

    /// The verb that a word of up to four characters spells.
    #[inline(always)]
    fn short(word: &[u8]) -> Option<Verb>
        requires { length word.now ≤ 4 }
        ensures { MatchOption result (IsNoVerb word.now) (λ verb. word.now ≡ verb_text verb) }
    {
        match word {
            b"poll" => Some(Verb::Poll),
            b"wait" => Some(Verb::Wait),
            b"lock" => Some(Verb::Lock),
            b"send" => Some(Verb::Send),
            b"set" => Some(Verb::Set),
            b"next" => Some(Verb::Next),
            b"held" => Some(Verb::Held),
            _ => None,
        }
    }

    /// The verb that a word of five or six characters spells.
    #[inline(always)]
    fn middling(word: &[u8]) -> Option<Verb>
        requires { (5 ≤ length word.now) × (length word.now ≤ 6) }
        ensures { MatchOption result (IsNoVerb word.now) (λ verb. word.now ≡ verb_text verb) }
    {
        match word {
            b"cancel" => Some(Verb::Cancel),
            b"unlock" => Some(Verb::Unlock),
            b"submit" => Some(Verb::Submit),
            b"finish" => Some(Verb::Finish),
            b"stream" => Some(Verb::Stream),
            b"is-set" => Some(Verb::IsSet),
            b"disarm" => Some(Verb::Disarm),
            b"check" => Some(Verb::Check),
            b"start" => Some(Verb::Start),
            b"reset" => Some(Verb::Reset),
            b"close" => Some(Verb::Close),
            b"delay" => Some(Verb::Delay),
            _ => None,
        }
    }

    /// The verb that a word of seven or more characters spells.
    #[inline(always)]
    fn long(word: &[u8]) -> Option<Verb>
        requires { 7 ≤ length word.now }
        ensures { MatchOption result (IsNoVerb word.now) (λ verb. word.now ≡ verb_text verb) }
    {
        // One more arm that begins with `try-` would take the proof past the prover's limits.
        if word == b"try-acquire".as_slice() {
            return Some(Verb::TryAcquire);
        }
        match word {
            b"receive" => Some(Verb::Receive),
            b"acquire" => Some(Verb::Acquire),
            b"release" => Some(Verb::Release),
            b"permits" => Some(Verb::Permits),
            b"deadline" => Some(Verb::Deadline),
            b"try-send" => Some(Verb::TrySend),
            b"try-lock" => Some(Verb::TryLock),
            b"shutdown" => Some(Verb::Shutdown),
            b"give-back" => Some(Verb::GiveBack),
            b"is-locked" => Some(Verb::IsLocked),
            b"try-receive" => Some(Verb::TryReceive),
            _ => None,
        }
    }
}
