//! Counters and once cells, shared between threads, and waits for any of several, condition variables
//! of a monitor among them.
//!
//! A counter counts up and down in 32 bits, and who waits for it waits for 0. A once cell has a
//! function run once: by the first that calls, while the others wait for its end.
//!
//! A counter of 2 as a wait group, with a seat for the one who waits and for each of the two whom it waits for:
//!
//! ```rust
//! let (objects, seats) = Objects::new(alloc, &[2], 0, 3).ok()?;
//! let mut sharers = objects.sharers(seats);
//! let waiter = sharers.next()?;
//! let (one, two) = sharers.pair()?;
//! ```
//!
//! In their threads each of the two counts its part off, and the waiter comes back once both have:
//!
//! ```rust
//! let _ = sharer.counter_add(rt, 0, -1);
//! ```
//!
//! ```rust
//! sharer.counter_wait(rt, 0, None, &mut watcher)
//! ```
//!
//! A value that is made once, whoever comes first:
//!
//! ```rust
//! match sharer.run_once(rt, 0, || 7) {
//!     Once::Ran(_) => true,
//!     Once::Already => false, // another has made it, and is done
//! }
//! ```
//!
//! The whole of both is in ns_cookbook, `sharing.rt`.
//!
//! A [`sharer::Sharer`] is a seat together with the objects that it is of. Its calls are those of
//! [`objects::Objects`], by the same names and with the same promises; `watcher` is a
//! [`Watcher`](ns_note::watcher::Watcher), the same for an environment. That the seat is of these objects is an
//! invariant of its type, so no clause and no loop of a program says it.
//!
//! The behaviour is that of nsync's headers `nsync_counter.h`, `nsync_once.h` and `nsync_waiter.h`.
//! An [`objects::Objects`] is a table of 32 atomic words, one for each counter and each cell; only
//! its making takes memory. Deadlines are moments in ticks of the clock of an
//! [`Env`](ns_note::env::Env), which only callers move.
//!
//! What is promised: there is one history of all objects of a table, legal by the definitions of
//! `ns_model`, that begins with what each [`seat::ObjSeat`] has seen, and in which each seat's own
//! events are just those that its calls have added. Each call says which events it adds, and at
//! which point of the history its answer is right. Two callers compare their histories by
//! [`objects::Objects::meet`]; between callers that never met, nothing is said of the order.
//!
//! Programs call it. The steps and the law are ns_counters', the variables are those of a monitor
//! of ns_monitor, the clock and the notes ns_note's, and how its seats meet is proved by ns_seats.
#![tactic(auto)]

mod adding;
pub mod any;
pub mod held;
pub mod objects;
mod plays;
pub mod running;
pub mod seat;
pub mod sharer;
mod sleeping;
mod view;
mod waiting;

pub use ns_model::counter::CounterFault;
