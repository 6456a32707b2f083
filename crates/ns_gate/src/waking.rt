//! What a signal or a broadcast does to the waiter queues in a hand.
//!
//! Those whom it takes leave the lists of all variables. They go to the back of the lock list where the
//! lock word is held, and are owed a wake where it is free. The queues are put back by an exchange
//! of the lock word, which fails where another step came between, and the word that is found may
//! differ in whether it is held. So they are kept apart, and the queues in hand are turned then.

ghost use Rattle.std.specs.Prelude.{◌≡◌, ℕ, ◌<◌, ◌≤◌, ◌&&◌, not, true, false, IfNone, OnSome};
ghost use Rattle.ns_gate.specs.Prelude.{Carries, Cv, HasUnchangedQueues, HasWorked, HaveSeats, IsOrderly, bits_of, has_some, lists_woken, moved_to, taken_from, the, times, times_in, turned_to, turned_woken, waiters_of, without_each, woken_nobody, woken_sole};

use crate::bound::Bound;
use crate::queues::Turned;
use arrayvec::ArrayVec;
use ns_model::condition::Condition;
use ns_queue::queues::Queues;
use ns_queue::room::Queueable;
use ns_queue::waiter::Waiter;
use ns_word::act::Waking;
use ns_word::hand::bits;

/// Takes those out of the lists of the variables whom the call wakes, and answers them in order.
///
/// Needs a number below 4.
fn take_waiters<C: Queueable<N>, const N: usize>(
    queues: &mut Queues<C, N>,
    waking: Waking,
    k: u8,
) -> ArrayVec<Waiter<C>, 64>
    requires { k < 4 }
    ensures taken { result.items ≡ taken_from waking k queues.old }
    ensures left { queues.new ≡ lists_woken waking k false queues.old }
    ensures orderly { IsOrderly queues.old }
{
    match waking {
        Waking::Signaling => queues.take_signal(k),
        Waking::Broadcasting => queues.take_all(k),
    }
}

/// Puts those who were taken at the back of the lock list, if the lock is held.
///
/// Needs each of their seats to be below 64 and to stand in no list, and none to stand twice among
/// them.
fn move_if<C: Queueable<N>, const N: usize>(
    queues: &mut Queues<C, N>,
    taken: &[Waiter<C>],
    held: bool,
)
    requires below { HaveSeats taken.now }
    requires once { (seat : ℕ) → times_in seat taken.now ≤ 1 }
    requires free { (seat : ℕ) → 1 ≤ times_in seat taken.now → times seat queues.old ≡ 0 }
    ensures { queues.new ≡ moved_to held taken.now queues.old }
{
    if held {
        queues.append(taken);
    }
}

/// Takes those who were moved out of the lists again.
fn take_back<C: Queueable<N>, const N: usize>(queues: &mut Queues<C, N>, taken: &[Waiter<C>])
    ensures { queues.new ≡ without_each taken.now queues.old }
{
    for waiter in taken {
        let _ = queues.remove(waiter.seat);
    }
}

/// Puts those who were taken at the back of the lock list, if the lock is held now, and else takes
/// them out of it again.
///
/// Needs each of their seats to be below 64, and, where it puts them there, to stand in no list, and
/// none to stand twice among them.
fn turn<C: Queueable<N>, const N: usize>(queues: &mut Queues<C, N>, taken: &[Waiter<C>], held: bool)
    requires below { HaveSeats taken.now }
    requires once { held ≡ true → (seat : ℕ) → times_in seat taken.now ≤ 1 }
    requires free { held ≡ true → (seat : ℕ) → 1 ≤ times_in seat taken.now → times seat queues.old ≡ 0 }
    ensures { queues.new ≡ turned_to held taken.now queues.old }
{
    if held {
        queues.append(taken);
    } else {
        take_back(queues, taken);
    }
}

/// What the hand has made of these queues, where these were taken.
fn turned_by<C: Queueable<N>, const N: usize>(
    queues: &Queues<C, N>,
    taken: &[Waiter<C>],
    held: bool,
) -> Turned
    ensures { result ≡ record { some = held && has_some taken.now; bits = bits_of queues.now.lock } }
{
    Turned {
        some: held && !taken.is_empty(),
        bits: bits(queues),
    }
}

/// Does what a call does that wakes, where just one waits for the variable, and tells what
/// [`Bound::wake_sole_in_hand`] does.
///
/// Needs a number below 4.
#[inline(always)]
fn wake_sole<C: Queueable<N>, const N: usize>(
    queues: &mut Queues<C, N>,
    _waking: Waking,
    k: u8,
    held: bool,
) -> Option<(Waiter<C>, Turned)>
    requires { k < 4 }
    ensures orderly { IsOrderly queues.old }
    ensures sole { result ≡ woken_sole _waking k held queues.old }
    ensures lists { OnSome result (queues.new ≡ lists_woken _waking k held queues.old) }
    ensures same { IfNone result (queues.new ≡ queues.old) }
{
    let waiter = queues.take_sole(k)?;
    let taken = [waiter];
    move_if(queues, &taken, held);
    Some((waiter, turned_by(queues, &taken, held)))
}

impl<C: Condition<N>, const N: usize> Bound<'_, C, N> {
    /// What the hand has made of the queues for a call that wakes, where nobody waits for its variable:
    /// it takes nobody, and they stay as they stood. Where somebody waits, answers nothing.
    ///
    /// Needs a seat that has the queues in hand as they stood, and a number below 4.
    pub fn wake_nobody_in_hand(&mut self, k: u8) -> Option<Turned>
        requires has { HasUnchangedQueues self.old.me }
        requires variable { k < 4 }
        ensures worked { HasWorked self.old self.new }
        ensures has { HasUnchangedQueues self.new.me }
        ensures nobody { result ≡ woken_nobody k (the self.old.me.0).stood }
    {
        let gate = self.gate;
        let queues = self.seat.slot_mut(&gate.table.shared, 0).lists();
        if queues.has_waiters(k) {
            return None;
        }
        Some(Turned {
            some: false,
            bits: bits(queues),
        })
    }

    /// Does what [`Bound::wake_in_hand`] does, where just one waits for the variable: whom a signal takes
    /// then, a broadcast takes too. Answers that one and what the hand has made of the queues. It makes
    /// no list. Where nobody waits, or several do, answers nothing, and the queues stay as they stood.
    ///
    /// Needs a seat that has the queues in hand as they stood, and a number below 4. The
    /// call is for the proof alone.
    pub fn wake_sole_in_hand(
        &mut self,
        _waking: Waking,
        k: u8,
        held: bool,
    ) -> Option<(Waiter<C>, Turned)>
        requires has { HasUnchangedQueues self.old.me }
        requires variable { k < 4 }
        ensures worked { HasWorked self.old self.new }
        ensures orderly { IsOrderly (the self.old.me.0).stood }
        ensures sole { result ≡ woken_sole _waking k held (the self.old.me.0).stood }
        ensures lists { OnSome result (Carries (lists_woken _waking k held (the self.old.me.0).stood) self.new.me) }
        ensures same { IfNone result (HasUnchangedQueues self.new.me) }
    {
        let gate = self.gate;
        let queues = self.seat.slot_mut(&gate.table.shared, 0).lists();
        wake_sole(queues, _waking, k, held)
    }

    /// Takes those out of the lists of the variables whom the call wakes, and puts them at the back of
    /// the lock list if the lock is held. Answers them in order, to be kept until the queues are
    /// back, and what the hand has made of the queues.
    ///
    /// Needs a seat that has the queues in hand as they stood, and a number below 4.
    pub fn wake_in_hand(
        &mut self,
        waking: Waking,
        k: u8,
        held: bool,
    ) -> (ArrayVec<Waiter<C>, 64>, Turned)
        requires has { HasUnchangedQueues self.old.me }
        requires variable { k < 4 }
        ensures worked { HasWorked self.old self.new }
        ensures orderly { IsOrderly (the self.old.me.0).stood }
        ensures taken { result.0.items ≡ taken_from waking k (the self.old.me.0).stood }
        ensures lists { Carries (lists_woken waking k held (the self.old.me.0).stood) self.new.me }
        ensures turned { result.1 ≡ turned_woken waking k held (the self.old.me.0).stood }
    {
        let gate = self.gate;
        let queues = self.seat.slot_mut(&gate.table.shared, 0).lists();
        let taken = take_waiters(queues, waking, k);
        move_if(queues, taken.as_slice(), held);
        let turned = turned_by(queues, taken.as_slice(), held);
        (taken, turned)
    }

    /// Turns what the same call has in hand, where the word found differs from the one last seen in
    /// whether the lock is held: those who were taken go to the back of the lock list if it is held
    /// now, and else out of it again. Answers what the hand has made of the queues then.
    ///
    /// Needs a seat that has the queues in hand as [`Bound::wake_in_hand`] makes them
    /// for the other truth of `held`; those who were taken; and that the lists stood orderly, as that
    /// told. The call and the number of its variable are for the proof alone.
    pub fn turn_in_hand(
        &mut self,
        taken: &[Waiter<C>],
        _waking: Waking,
        _k: u8,
        held: bool,
    ) -> Turned
        requires variable { _k < 4 }
        requires orderly { IsOrderly (the self.old.me.0).stood }
        requires taken { taken.now ≡ taken_from _waking _k (the self.old.me.0).stood }
        requires lists { Carries (lists_woken _waking _k (not held) (the self.old.me.0).stood) self.old.me }
        ensures worked { HasWorked self.old self.new }
        ensures lists { Carries (lists_woken _waking _k held (the self.old.me.0).stood) self.new.me }
        ensures turned { result ≡ turned_woken _waking _k held (the self.old.me.0).stood }
    {
        let gate = self.gate;
        let queues = self.seat.slot_mut(&gate.table.shared, 0).lists();
        turn(queues, taken, held);
        turned_by(queues, taken, held)
    }
}
