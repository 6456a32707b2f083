//! What calls on counters and once cells answer.

use ns_model::counter::CounterFault;

/// The answer of a call on counters and once cells.
#[derive(Clone, Copy, Debug, PartialEq, Eq)]
pub enum ObjectReply {
    /// The value of a counter; or which of several objects was ready, counted from 0, or how many there are.
    Number(u64),
    /// The change of a counter was refused.
    Refused(CounterFault),
    /// Whether a function of a once cell has run.
    Is(bool),
    /// The function of a once cell ran in this call.
    Ran,
    /// Another call has run a function of the once cell, to its end.
    Already,
}
