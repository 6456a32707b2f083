//! A load, or a compare-exchange, that is told a value by its caller, which is for the proof alone.
//!
//! A caller picks ghost members only at a call whose signature has no const parameter, so these
//! are over any table.

ghost use Rattle.std.specs.Prelude.{◌≡◌, ◌<◌, ◌==◌, ℕ, List, [], ◌∷◌};
ghost use mathlib.Core.Option.{none};
ghost use prog.Atomic.{either};
ghost use Rattle.atomic_table.specs.Table.{Me, Allows, Step, step};

use atomic_table::{Play, Seat, Shared, TableRule};
use std::marker::{Brand, PhantomData};

/// What is said.
pub trait Says<A> {
    ghost says: { List A };
}

impl<A> Says<A> for Brand {
    ghost says = { [] };
}

/// What a step tells its caller that was told something.
pub trait Telling<S, V, A> {
    ghost after: { List A → Step S → Me S V → ℕ → Me S V → Type 0 };
}

/// A step that is told something.
pub struct Said<A, M, J> {
    of: PhantomData<(A, M, J)>,
}

impl<S, V, A, M: Telling<S, V, A>, J: Says<A>> Play<S, V> for Said<A, M, J> {
    ghost then = { λ st me found now. M.after J.says st me found now };
}

/// A load by a step that says this.
#[inline(always)]
fn load_said<S, V, K, P: TableRule<S, V, K>, A, M: Telling<S, V, A>, J: Says<A>>(
    shared: &Shared<S, V, K, P>,
    seat: &mut Seat<S, V>,
    word: usize,
    _said: &A,
) -> u64
    requires said { J.says ≡ _said.now ∷ [] }
    requires of { seat.old.table_id ≡ shared.now.table_id }
    requires word { word < shared.now.table_id.words }
    requires allows { Allows (P.holds shared.now.key) shared.now.table_id.slots seat.old.id seat.old.me word (λ n. n) (M.after (_said.now ∷ []) (step shared.now.table_id.slots word 0 0 none) seat.old.me) }
    ensures { (seat.new.table_id ≡ seat.old.table_id) × (seat.new.id ≡ seat.old.id) × M.after (_said.now ∷ []) (step shared.now.table_id.slots word 0 0 none) seat.old.me result seat.new.me }
{
    shared.load::<Said<A, M, J>>(seat, word)
}

/// A load that is told this.
#[inline(always)]
pub fn load_saying<S, V, K, P: TableRule<S, V, K>, A, M: Telling<S, V, A>>(
    shared: &Shared<S, V, K, P>,
    seat: &mut Seat<S, V>,
    word: usize,
    said: &A,
) -> u64
    requires of { seat.old.table_id ≡ shared.now.table_id }
    requires word { word < shared.now.table_id.words }
    requires allows { Allows (P.holds shared.now.key) shared.now.table_id.slots seat.old.id seat.old.me word (λ n. n) (M.after (said.now ∷ []) (step shared.now.table_id.slots word 0 0 none) seat.old.me) }
    ensures { (seat.new.table_id ≡ seat.old.table_id) × (seat.new.id ≡ seat.old.id) × M.after (said.now ∷ []) (step shared.now.table_id.slots word 0 0 none) seat.old.me result seat.new.me }
{
    load_said::<S, V, K, P, A, M, Brand>(shared, seat, word, said)
}

/// A compare-exchange by a step that says this.
#[inline(always)]
fn exchange_said<S, V, K, P: TableRule<S, V, K>, A, M: Telling<S, V, A>, J: Says<A>>(
    shared: &Shared<S, V, K, P>,
    seat: &mut Seat<S, V>,
    word: usize,
    content: u64,
    new: u64,
    _said: &A,
) -> u64
    requires said { J.says ≡ _said.now ∷ [] }
    requires of { seat.old.table_id ≡ shared.now.table_id }
    requires word { word < shared.now.table_id.words }
    requires allows { Allows (P.holds shared.now.key) shared.now.table_id.slots seat.old.id seat.old.me word (λ n. either (n == content) new n) (M.after (_said.now ∷ []) (step shared.now.table_id.slots word content new none) seat.old.me) }
    ensures { (seat.new.table_id ≡ seat.old.table_id) × (seat.new.id ≡ seat.old.id) × M.after (_said.now ∷ []) (step shared.now.table_id.slots word content new none) seat.old.me result seat.new.me }
{
    shared.compare_exchange::<Said<A, M, J>>(seat, word, content, new)
}

/// A compare-exchange that is told this.
#[inline(always)]
pub fn exchange_saying<S, V, K, P: TableRule<S, V, K>, A, M: Telling<S, V, A>>(
    shared: &Shared<S, V, K, P>,
    seat: &mut Seat<S, V>,
    word: usize,
    content: u64,
    new: u64,
    said: &A,
) -> u64
    requires of { seat.old.table_id ≡ shared.now.table_id }
    requires word { word < shared.now.table_id.words }
    requires allows { Allows (P.holds shared.now.key) shared.now.table_id.slots seat.old.id seat.old.me word (λ n. either (n == content) new n) (M.after (said.now ∷ []) (step shared.now.table_id.slots word content new none) seat.old.me) }
    ensures { (seat.new.table_id ≡ seat.old.table_id) × (seat.new.id ≡ seat.old.id) × M.after (said.now ∷ []) (step shared.now.table_id.slots word content new none) seat.old.me result seat.new.me }
{
    exchange_said::<S, V, K, P, A, M, Brand>(shared, seat, word, content, new, said)
}
