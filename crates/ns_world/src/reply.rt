//! What the calls of a world answer.

ghost use Rattle.std.specs.Prelude.{◌≡◌};
ghost use Rattle.ns_world.specs.Replies.{env_told, object_told, told};

use ns_counters::reply::ObjectReply;
use ns_env::reply::EnvReply;
use ns_model::counter::CounterFault;
use ns_model::event::Answer;

/// The answer of a call.
///
/// It is one flat type, and not the machine's answer, the notes' and the objects' inside one: whoever prints
/// it writes one `match`.
#[derive(Clone, Copy, Debug, PartialEq, Eq)]
pub enum Reply {
    /// Done, or acquired.
    Succeeded,
    /// Not acquired.
    Busy,
    /// Not released, since the section isn't quiet.
    Noisy,
    /// A cell's value, the number of a note that was made, the value of a counter, or which of several
    /// objects was ready, or has woken the call.
    Number(u64),
    /// No note was made, since 64 numbers are taken.
    NotesFull,
    /// Whether a note is notified, or a function has run.
    Is(bool),
    /// The expiry of a note, in ticks, if it has one.
    Expiry(Option<u64>),
    /// How a wait came back.
    Answered(Answer),
    /// The call's need was not met as it began. It made no step.
    Misuse,
    /// The change of a counter was refused.
    Refused(CounterFault),
    /// The function of a once cell ran in this call.
    Ran,
    /// Another call has run a function of the once cell, to its end.
    Already,
}

/// What a walk on the lock answers, as the answer of its call. A wait for any of a set of condition variables
/// is a part of a call, to which it answers the number of the variable that has woken it, or that it is done
/// where none has.
pub(crate) fn told(reply: ns_word::walk::Reply) -> Reply
    ensures { result ≡ told reply }
{
    match reply {
        ns_word::walk::Reply::Succeeded => Reply::Succeeded,
        ns_word::walk::Reply::Busy => Reply::Busy,
        ns_word::walk::Reply::Noisy => Reply::Noisy,
        ns_word::walk::Reply::Number(number) => Reply::Number(number),
        ns_word::walk::Reply::Is(so) => Reply::Is(so),
        ns_word::walk::Reply::Answered(answer) => Reply::Answered(answer),
        ns_word::walk::Reply::WokenBy(Some(k)) => Reply::Number(k as u64),
        ns_word::walk::Reply::WokenBy(None) => Reply::Succeeded,
    }
}

/// What a walk on the clock and the notes answers, likewise.
pub(crate) fn env_told(reply: EnvReply) -> Reply
    ensures { result ≡ env_told reply }
{
    match reply {
        EnvReply::Succeeded => Reply::Succeeded,
        EnvReply::Number(note) => Reply::Number(note),
        EnvReply::NotesFull => Reply::NotesFull,
        EnvReply::Is(answer) => Reply::Is(answer),
        EnvReply::Expiry(moment) => Reply::Expiry(moment),
    }
}

/// What a walk on counters and once cells answers, likewise.
pub(crate) fn object_told(reply: ObjectReply) -> Reply
    ensures { result ≡ object_told reply }
{
    match reply {
        ObjectReply::Number(number) => Reply::Number(number),
        ObjectReply::Refused(fault) => Reply::Refused(fault),
        ObjectReply::Is(answer) => Reply::Is(answer),
        ObjectReply::Ran => Reply::Ran,
        ObjectReply::Already => Reply::Already,
    }
}
