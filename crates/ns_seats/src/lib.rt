//! Tables of atomic words whose seats see one history, for the crates between threads: who a view
//! stands for, how seats are joined and cut, what two that meet know of each other, and how a new
//! table's seats stand. These are definitions and proofs, over any view and any event. The code here is
//! why no table is made ([`fault`]), and what a load is told by its caller, over any table ([`saying`]).
//!
//! A table shows that its rule reads the views by sums over a key of each seat, and by what holds
//! of each view (`IsBySums`); joining, cutting and learning are then proved of it. In ns_gate the
//! key is the seat's number, in ns_note that and what the seat makes. What a joining, a cutting and
//! a learning load tell (`Together`, `FirstOut`, `Learn`) is a type in each table's crate, since a
//! kind of step is a type of its own table.
//!
//! The tables of ns_gate, ns_note and ns_objects are proved by it. It rests on ns_model, whose
//! events the histories are of, and on the kit's atomic_table.
#![tactic(auto)]

pub mod fault;
pub mod saying;
