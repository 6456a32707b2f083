//! The steps on the waiter queues, and what is done to the queues in a hand between them.
//!
//! Who sets the spinlock bit takes the queues in the same step, and who clears it puts them back.
//! In between they are changed in place (`slot_mut`), and nothing of their ten kilobytes is copied.
//! Each step that puts them back asks that what is in hand is what its place makes of the lists at
//! home (`Carries`), so the rule needs nothing more.

ghost use Rattle.std.specs.Prelude.{◌≡◌, ⊤, map, IfErr, IfOk, None};
ghost use Rattle.ns_gate.specs.Prelude.{CanStep, Carries, HasTried, HasTurned, HasUnchangedQueues, HasWorked, IsInRange, IsPackable, StandsNowhere, act_returning, bits_of, changed, found_back, lists_scanned, meets_at, scanned_writer, seats_of, sought_at, stands_at, tests_of, the, times, waits_at};
ghost use Rattle.ns_gate.specs.Prelude.{woken_of, word_returning};

use crate::bound::Bound;
use ns_model::condition::Condition;
use ns_model::event::Mode;
use ns_queue::queues::Queues;
use ns_queue::room::Queueable;
use ns_queue::scan::{Foremost, Scan, Sought};
use ns_word::act::{Act, Change, Found};
use ns_word::hand::{bits, enter, leave_self, queue_self};
use ns_word::number::LockWord;
use ns_word::owed::{Owed, called_one};
use ns_word::wait::{Home, Wait};
use ns_word::word::{Arrival, Bits, Releasing, Taking};
use std::alloc::AllocError;

/// What the queues are put back for.
#[derive(Copy)]
pub enum Returning<C> {
    /// The lists are changed so, and nothing is released.
    Changed(Change),
    /// The section in hand is released, after a scan.
    Released(Releasing),
    /// A wait has put itself into its list after a scan, and leaves its section. The flag tells whether
    /// it queues again.
    Waited(Wait<C>, bool),
}

impl<C: Copy> Clone for Returning<C> {
    ghost is_clone = { λ one other. other ≡ one };

    ghost is_infallible = { λ _. ⊤ };

    fn clone(&self) -> Result<Self, AllocError> {
        Ok(*self)
    }
}

/// What the hand has made of the queues.
#[derive(Clone, Copy, Debug, PartialEq, Eq)]
pub struct Turned {
    /// Whether it moved somebody to the lock list, or the scan took somebody from it.
    pub some: bool,
    /// What the lock list holds.
    pub bits: Bits,
}

impl<C> Returning<C> {
    /// The word after the queues were put back for this.
    #[inline(always)]
    fn word(&self, last: LockWord, turned: Turned) -> LockWord
        ensures { result ≡ word_returning self.now turned.some turned.bits last }
    {
        match self {
            Returning::Changed(_) => last.returned(turned.some, turned.bits),
            Returning::Released(releasing) => {
                last.released_returning(*releasing, turned.some, turned.bits)
            }
            Returning::Waited(wait, _) => {
                last.released_returning(Releasing::of(wait.mode), turned.some, turned.bits)
            }
        }
    }
}

/// What the hand has made of these queues, where it took somebody, or nobody.
fn turned_with<C: Queueable<N>, const N: usize>(queues: &Queues<C, N>, some: bool) -> Turned
    ensures { result ≡ record { some = some; bits = bits_of queues.now.lock } }
{
    Turned {
        some,
        bits: bits(queues),
    }
}

/// Takes out of the lock list the writer whom a scan at this row wakes, if it wakes one; tells what
/// [`Bound::scan_writer_in_hand`] does.
#[inline(always)]
fn scan_writer<C: Queueable<N>, const N: usize>(
    queues: &mut Queues<C, N>,
    row: &[u64; N],
) -> Result<(Option<Owed>, Turned), Sought>
    ensures told { result ≡ scanned_writer C.means row.now queues.old }
    ensures lists { IfOk result (λ _. queues.new ≡ lists_scanned C.means row.now queues.old) }
    ensures still { IfErr result (λ _. queues.new ≡ queues.old) }
{
    match queues.take_writer(row) {
        Foremost::Reader(sought) => Err(sought),
        Foremost::Nobody => Ok((None, turned_with(queues, false))),
        Foremost::Writer(number, via) => {
            let wake = called_one(number, via);
            Ok((Some(wake), turned_with(queues, true)))
        }
    }
}

impl<C: Condition<N>, const N: usize> Bound<'_, C, N> {
    /// Sets the spinlock bit and takes the queues, where the lock word is still the one last seen; else
    /// tells the word.
    ///
    /// Needs a call that wants that next, and a word that has a number, as each has that a load or an
    /// exchange has told.
    pub fn exchange_to_take(&mut self, taking: Taking, last: LockWord) -> Result<(), LockWord>
        requires last { IsPackable last }
        requires can { CanStep C.means None (Act.TakeQueues taking last) self.old.me }
        ensures { HasTried C.means (Act.TakeQueues taking last) Found.Made result self.old self.new }
    {
        self.exchange(last, last.taken(taking))
    }

    /// Puts the queues back as they are in hand, and clears the spinlock bit, where the lock word is
    /// still the one last seen; else tells the word. Where a section is released with that, the seat
    /// then owes the wakes of those whom the scan took.
    ///
    /// Needs a call that wants that next; a word that has a number; the queues in hand, changed so, or
    /// scanned at the section's row; and what the hand has made of them.
    #[inline(always)]
    pub fn exchange_to_return(
        &mut self,
        returning: Returning<C>,
        last: LockWord,
        turned: Turned,
    ) -> Result<(), LockWord>
        requires last { IsPackable last }
        requires can { CanStep C.means None (act_returning returning last) self.old.me }
        requires hand { HasTurned C.means returning last turned self.old.me }
        ensures { HasTried C.means (act_returning returning last) (found_back C.means returning last self.old.me) result self.old self.new }
    {
        self.exchange(last, returning.word(last, turned))
    }

    /// Puts the seat into the lock list in hand, without condition: at the back, or at the front if it was
    /// woken. Tells what the lock list holds then.
    ///
    /// Needs a seat that has the queues in hand as they stood, and stands in no list.
    pub fn queue_in_hand(&mut self, mode: Mode, arrival: Arrival) -> Bits
        requires has { HasUnchangedQueues self.old.me }
        requires free { times (the self.old.me.0).at.seat (the self.old.me.0).stood ≡ 0 }
        ensures worked { HasWorked self.old self.new }
        ensures lists { (last : _) → Carries (changed (the self.old.me.0).at.seat (Change.QueueSelf mode arrival) last (the self.old.me.0).stood) self.new.me }
        ensures bits { (last : _) → result ≡ bits_of (changed (the self.old.me.0).at.seat (Change.QueueSelf mode arrival) last (the self.old.me.0).stood).lock }
    {
        let gate = self.gate;
        let number = self.number;
        let queues = self.seat.slot_mut(&gate.table.shared, 0).lists();
        queue_self(queues, number, mode, arrival);
        bits(queues)
    }

    /// Takes the seat out of all lists in hand, if it stands where a wait of this home does. Tells whether it
    /// stood there, and what the lock list holds then.
    ///
    /// Needs a seat that has the queues in hand as they stood.
    pub fn leave_in_hand(&mut self, home: Home) -> (bool, Bits)
        requires { HasUnchangedQueues self.old.me }
        ensures worked { HasWorked self.old self.new }
        ensures stood { result.0 ≡ stands_at (the self.old.me.0).at.seat home (the self.old.me.0).stood }
        ensures lists { (last : _) → Carries (changed (the self.old.me.0).at.seat (Change.LeaveSelf home) last (the self.old.me.0).stood) self.new.me }
        ensures bits { (last : _) → result.1 ≡ bits_of (changed (the self.old.me.0).at.seat (Change.LeaveSelf home) last (the self.old.me.0).stood).lock }
    {
        let gate = self.gate;
        let number = self.number;
        let queues = self.seat.slot_mut(&gate.table.shared, 0).lists();
        let stood = leave_self(queues, number, home);
        (stood, bits(queues))
    }

    /// Takes out of the lock list in hand the writer whom a scan at this row wakes, if it wakes one, who
    /// then goes alone. Tells the wake that is owed to that one, and what the hand has made of the
    /// queues; where a scan takes nobody, there is no wake. Where a scan takes readers, tells what the
    /// search for the first of them found, and the queues stay as they stood:
    /// [`Bound::scan_from_in_hand`] goes on from there.
    ///
    /// Needs a seat that has the queues in hand as they stood.
    #[inline(always)]
    pub fn scan_writer_in_hand(&mut self, row: &[u64; N]) -> Result<(Option<Owed>, Turned), Sought>
        requires has { HasUnchangedQueues self.old.me }
        ensures worked { HasWorked self.old self.new }
        ensures told { result ≡ scanned_writer C.means row.now (the self.old.me.0).stood }
        ensures lists { IfOk result (λ _. Carries (lists_scanned C.means row.now (the self.old.me.0).stood) self.new.me) }
        ensures still { IfErr result (λ _. HasUnchangedQueues self.new.me) }
    {
        let gate = self.gate;
        let queues = self.seat.slot_mut(&gate.table.shared, 0).lists();
        scan_writer(queues, row)
    }

    /// Takes out of the lock list in hand those whom a scan at this row wakes, from the first on, whom a
    /// search has found. Tells whom it took, and what the lock list holds then.
    ///
    /// Needs a seat that has the queues in hand as they stood, and what a search of their lock list finds at
    /// this row, as [`Bound::scan_writer_in_hand`] tells it.
    pub fn scan_from_in_hand(&mut self, row: &[u64; N], sought: Sought) -> (Scan, Bits)
        requires has { HasUnchangedQueues self.old.me }
        requires found { sought ≡ sought_at C.means row.now (the self.old.me.0).stood }
        ensures worked { HasWorked self.old self.new }
        ensures woken { result.0.woken.items ≡ seats_of (woken_of (meets_at C.means row.now) (the self.old.me.0).stood.lock) }
        ensures vias { result.0.vias.items ≡ map (λ w. w.via) (woken_of (meets_at C.means row.now) (the self.old.me.0).stood.lock) }
        ensures tests { result.0.tests ≡ tests_of C.means.same (meets_at C.means row.now) (the self.old.me.0).stood.lock }
        ensures lists { Carries (lists_scanned C.means row.now (the self.old.me.0).stood) self.new.me }
        ensures bits { result.1 ≡ bits_of (lists_scanned C.means row.now (the self.old.me.0).stood).lock }
    {
        let gate = self.gate;
        let queues = self.seat.slot_mut(&gate.table.shared, 0).lists();
        let scan = queues.scan_from(row, sought);
        (scan, bits(queues))
    }

    /// Puts a wait of the seat into its list, or into those of all its variables, with the lists in hand as they
    /// are. Tells what the lock list holds then.
    ///
    /// Needs a seat that has the queues in hand, and stands in none of them; and a wait for variables that there
    /// are, at least one, if it is for any.
    pub fn enter_in_hand(&mut self, wait: Wait<C>, again: bool) -> Bits
        requires has { StandsNowhere (the self.old.me.0).at.seat self.old.me }
        requires list { IsInRange wait.on }
        ensures worked { HasWorked self.old self.new }
        ensures lists { (lists : _) → Carries lists self.old.me → Carries (waits_at wait.on (the self.old.me.0).at.seat wait.mode again lists) self.new.me }
        ensures bits { (lists : _) → Carries lists self.old.me → result ≡ bits_of (waits_at wait.on (the self.old.me.0).at.seat wait.mode again lists).lock }
    {
        let gate = self.gate;
        let number = self.number;
        let queues = self.seat.slot_mut(&gate.table.shared, 0).lists();
        enter(queues, wait.on, number, wait.mode, again);
        bits(queues)
    }
}
