//! The lock between threads: one atomic step at a time on shared words, under the law of the machine.
//!
//! A [`gate::Gate`] is a table of atomic words: the lock word, the row's cells, and a flag for each
//! seat; its slot leads to the waiter queues. The rule of the table says that these make up a state of
//! ns_word's machine that is lawful with one history, and that each seat was told what ns_word says
//! that a seat is told. So each step of a seat is a step of the machine, and what holds between any
//! two of those holds between any two steps of any threads.
//!
//! A call makes its steps by its seat bound to the gate, a [`bound::Bound`]: ns_monitor's calls are made
//! of these steps. The steps, the law and what a seat is told are ns_word's, the waiter queues ns_queue's,
//! the table the kit's atomic_table, and how its seats meet ns_seats'.
#![tactic(auto)]

pub mod bound;
pub mod boxed;
mod cells;
pub mod closed;
mod flags;
pub mod gate;
pub mod perform;
pub mod plays;
pub mod queues;
pub mod showing;
pub mod view;
pub mod waking;
