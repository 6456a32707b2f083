//! What a walk does to the queues in its hand, before it puts them back.

ghost use Rattle.std.specs.Prelude.{◌≡◌, ◌<◌, ◌≤◌, ℕ, map, true, false, nat_lt, None, Some, [], ◌∷◌, ◌++◌, if◌then◌else◌};
ghost use Rattle.ns_word.specs.Prelude.{HasList, IsInRange, acquire_hand, acquire_has_queues, bits_of, changed, cvs_without, has_armed, has_queues, in_hand, moved_to, queued, release_hand, release_has_queues, seats_of, signal_hand, stands_at, taken_by, taken_set, tests_of, times, times_in};
ghost use Rattle.ns_word.specs.Prelude.{wait_hand, wait_has_queues, waited_in, waiters_of, waits_at, wakes_of, with_lock, woken_of};

use crate::acquire_walk::AcquirePlace;
use crate::act::{Change, Waking};
use crate::owed::{Owed, wakes};
use crate::release_walk::ReleasePlace;
use crate::show_walk::ShowPlace;
use crate::signal_walk::SignalPlace;
use crate::wait::{Aim, Home, LeavePlace, QueuePlace, Subject, Wait, WaitPlace};
use crate::walk::Walk;
use crate::word::{Arrival, Bits};
use arrayvec::ArrayVec;
use ns_env::limits::Cause;
use ns_model::cvs::Variables;
use ns_model::event::Mode;
use ns_queue::queues::Queues;
use ns_queue::room::Queueable;
use ns_queue::scan::Scan;
use ns_queue::waiter::{Waiter, Which};

/// What the lock list holds.
pub fn bits<C: Queueable<N>, const N: usize>(queues: &Queues<C, N>) -> Bits
    ensures { result ≡ bits_of queues.now.lock }
{
    let (waiting, conditional, writer_waits, long) = queues.bits();
    Bits {
        waiting,
        conditional,
        writer_waits,
        long,
    }
}

/// Puts a waiter into the lock list, at the front or at the back.
fn queue<C: Queueable<N>, const N: usize>(queues: &mut Queues<C, N>, waiter: Waiter<C>, front: bool)
    requires below { waiter.seat < 64 }
    requires free { times waiter.seat queues.old ≡ 0 }
    ensures { queues.new ≡ with_lock queues.old (if front then waiter ∷ queues.old.lock else queues.old.lock ++ waiter ∷ []) }
{
    if front {
        queues.push_front(waiter);
    } else {
        queues.push_back(Which::Lock, waiter);
    }
}

/// Puts the seat into the lock list, without condition: at the front, and with one failed try more,
/// if it was woken, else at the back.
pub fn queue_self<C: Queueable<N>, const N: usize>(
    queues: &mut Queues<C, N>,
    seat: u8,
    mode: Mode,
    arrival: Arrival,
)
    requires below { seat < 64 }
    requires free { times seat queues.old ≡ 0 }
    ensures { (last : _) → queues.new ≡ changed seat (Change.QueueSelf mode arrival) last queues.old }
{
    let waiter = Waiter {
        seat,
        mode,
        cond: None,
        tries: arrival.tries(),
        via: None,
    };
    queue(queues, waiter, arrival.is_woken());
}

/// Whether the seat stands where a wait of this home does: in the lock list, or in that of any variable.
pub fn stands_at<C: Queueable<N>, const N: usize>(
    queues: &Queues<C, N>,
    seat: u8,
    home: Home,
) -> bool
    ensures { result ≡ stands_at seat home queues.now }
{
    match home {
        Home::AtLock => queues.stands(Which::Lock, seat),
        Home::AtVariables(_) => queues.stands_at_variables(seat),
    }
}

/// Takes the seat out of all lists, if it stands where a wait of this home does, and answers whether it
/// did.
pub fn leave_self<C: Queueable<N>, const N: usize>(
    queues: &mut Queues<C, N>,
    seat: u8,
    home: Home,
) -> bool
    ensures stood { result ≡ stands_at seat home queues.old }
    ensures left { (last : _) → queues.new ≡ changed seat (Change.LeaveSelf home) last queues.old }
{
    let stands = stands_at(queues, seat, home);
    if stands {
        let _ = queues.remove(seat);
    }
    stands
}

/// Puts a wait into its list, or into the lists of all its variables.
///
/// Needs a wait for variables that there are, at least one, if it is for any, and a seat below 64, which stands
/// in no list.
pub fn enter<C: Queueable<N>, const N: usize>(
    queues: &mut Queues<C, N>,
    on: Subject<C>,
    seat: u8,
    mode: Mode,
    again: bool,
)
    requires list { IsInRange on }
    requires below { seat < 64 }
    requires free { times seat queues.old ≡ 0 }
    ensures { queues.new ≡ waits_at on seat mode again queues.old }
{
    match on {
        Subject::OnCondition(cond) => {
            let waiter = Waiter {
                seat,
                mode,
                cond: Some(cond),
                tries: 0,
                via: None,
            };
            queue(queues, waiter, again);
        }
        Subject::OnVariables(Variables::Only(k)) => {
            let waiter = Waiter {
                seat,
                mode,
                cond: None,
                tries: 0,
                via: Some(k),
            };
            queues.push_back(Which::Cv(k), waiter);
        }
        Subject::OnVariables(Variables::Any(cvs)) => {
            let waiter = Waiter {
                seat,
                mode,
                cond: None,
                tries: 0,
                via: None,
            };
            queues.push_any(cvs, waiter);
        }
    }
}

/// The lists that a wait puts back: as a scan at this row leaves them, with the wait in its own.
pub fn scan_and_queue<C: Queueable<N>, const N: usize>(
    queues: &mut Queues<C, N>,
    row: &[u64; N],
    seat: u8,
    wait: Wait<C>,
    again: bool,
) -> Scan
    requires list { IsInRange wait.on }
    requires below { seat < 64 }
    requires free { times seat queues.old ≡ 0 }
    ensures woken { result.woken.items ≡ seats_of (woken_of (λ c. C.means.holds c row.now) queues.old.lock) }
    ensures vias { result.vias.items ≡ map (λ w. w.via) (woken_of (λ c. C.means.holds c row.now) queues.old.lock) }
    ensures lists { queues.new ≡ waited_in C.means seat wait again row.now queues.old }
    ensures tests { result.tests ≡ tests_of C.means.same (λ c. C.means.holds c row.now) queues.old.lock }
{
    let scan = queues.scan(row);
    enter(queues, wait.on, seat, wait.mode, again);
    scan
}

/// Does to the queues what an acquire at this place has done to them in hand.
fn change_acquiring<C: Queueable<N>, const N: usize>(
    queues: &mut Queues<C, N>,
    seat: u8,
    aim: Aim<C>,
    place: AcquirePlace,
)
    requires below { seat < 64 }
    requires free { has_armed (Some (Walk.InAcquire aim place)) ≡ true → times seat queues.old ≡ 0 }
    ensures { queues.new ≡ acquire_hand seat aim place queues.old }
{
    match place {
        AcquirePlace::Queue(arrival, _) => queue_self(queues, seat, aim.mode(), arrival),
        _ => (),
    }
}

/// Does to the queues what a release at this place has done to them in hand.
fn change_releasing<C: Queueable<N>, const N: usize>(
    queues: &mut Queues<C, N>,
    place: ReleasePlace,
    row: &[u64; N],
)
    ensures { queues.new ≡ release_hand C.means place row.now queues.old }
{
    match place {
        ReleasePlace::ScanAndRelease(_) => {
            let _ = queues.scan(row);
        }
        _ => (),
    }
}

/// Does to the queues what a wait that queues at this place has done to them in hand.
fn change_queuing<C: Queueable<N>, const N: usize>(
    queues: &mut Queues<C, N>,
    seat: u8,
    wait: Wait<C>,
    again: bool,
    place: QueuePlace,
    row: &[u64; N],
)
    requires list { IsInRange wait.on }
    requires below { seat < 64 }
    requires free { has_armed (Some (Walk.InWait wait (WaitPlace.InQueuing again place))) ≡ true → times seat queues.old ≡ 0 }
    ensures { queues.new ≡ wait_hand C.means seat wait (WaitPlace.InQueuing again place) row.now queues.old }
{
    match place {
        QueuePlace::QueueToWait(_) => {
            let _ = scan_and_queue(queues, row, seat, wait, again);
        }
        _ => (),
    }
}

/// Does to the queues what a wait that leaves its list at this place has done to them in hand.
fn change_leaving<C: Queueable<N>, const N: usize>(
    queues: &mut Queues<C, N>,
    seat: u8,
    wait: Wait<C>,
    cause: Cause,
    place: LeavePlace,
)
    ensures { queues.new ≡ wait_hand C.means seat wait (WaitPlace.InLeaving cause place) [] queues.old }
{
    match place {
        LeavePlace::Leave(_) => {
            let _ = leave_self(queues, seat, wait.on.home());
        }
        _ => (),
    }
}

/// Does to the queues what a wait at this place has done to them in hand.
fn change_waiting<C: Queueable<N>, const N: usize>(
    queues: &mut Queues<C, N>,
    seat: u8,
    wait: Wait<C>,
    place: WaitPlace,
    row: &[u64; N],
)
    requires list { IsInRange wait.on }
    requires below { seat < 64 }
    requires free { has_armed (Some (Walk.InWait wait place)) ≡ true → times seat queues.old ≡ 0 }
    ensures { queues.new ≡ wait_hand C.means seat wait place row.now queues.old }
{
    match place {
        WaitPlace::InQueuing(again, place) => change_queuing(queues, seat, wait, again, place, row),
        WaitPlace::InLeaving(cause, place) => change_leaving(queues, seat, wait, cause, place),
        _ => (),
    }
}

/// Takes those out of the lists of the variables whom the call wakes. Where the lock is held they go
/// to the back of the lock list, and nobody is owed a wake; else they are, in the order taken.
pub fn wake_waiters<C: Queueable<N>, const N: usize>(
    queues: &mut Queues<C, N>,
    waking: Waking,
    k: u8,
    held: bool,
) -> ArrayVec<Owed, 64>
    requires { k < 4 }
    ensures owed { result.items ≡ (if held then [] else wakes_of k (taken_by waking (waiters_of queues.old (Which.Cv k)))) }
    ensures lists { queues.new ≡ moved_to held (taken_by waking (waiters_of queues.old (Which.Cv k))) (cvs_without (taken_set (taken_by waking (waiters_of queues.old (Which.Cv k)))) queues.old) }
{
    let taken = match waking {
        Waking::Signaling => queues.take_signal(k),
        Waking::Broadcasting => queues.take_all(k),
    };
    if held {
        queues.append(taken.as_slice());
        ArrayVec::new()
    } else {
        wakes(k, taken.as_slice())
    }
}

/// Does to the queues what a call that wakes has done to them in hand at this place.
fn change_signaling<C: Queueable<N>, const N: usize>(
    queues: &mut Queues<C, N>,
    waking: Waking,
    k: u8,
    place: SignalPlace,
)
    requires { k < 4 }
    ensures { (seat : ℕ) → queues.new ≡ signal_hand seat waking k place queues.old }
{
    match place {
        SignalPlace::WakeAndReturn(last) => {
            let _ = wake_waiters(queues, waking, k, last.is_held());
        }
        _ => (),
    }
}

/// Does to the queues what the walk of a seat at this place has done to them in hand.
pub fn change_in_hand<C: Queueable<N>, const N: usize>(
    queues: &mut Queues<C, N>,
    seat: u8,
    walk: Walk<C>,
    row: &[u64; N],
)
    requires lists { HasList walk }
    requires below { seat < 64 }
    requires free { has_armed (Some walk) ≡ true → times seat queues.old ≡ 0 }
    ensures { queues.new ≡ in_hand C.means seat walk row.now queues.old }
{
    match walk {
        Walk::InTry(_, _) => (),
        Walk::InAcquire(aim, place) => change_acquiring(queues, seat, aim, place),
        Walk::InRelease(_, place) => change_releasing(queues, place, row),
        Walk::InCells(_) => (),
        Walk::InWait(wait, place) => change_waiting(queues, seat, wait, place, row),
        Walk::InSignal(waking, k, place) => change_signaling(queues, waking, k, place),
        Walk::InShow(_) => (),
    }
}

/// Whether an acquire at this place has the queues.
fn acquire_has_queues(place: AcquirePlace) -> bool
    ensures { result ≡ acquire_has_queues place }
{
    match place {
        AcquirePlace::Arm(_, _) => true,
        AcquirePlace::Queue(_, _) => true,
        _ => false,
    }
}

/// Whether a release at this place has the queues.
fn release_has_queues(place: ReleasePlace) -> bool
    ensures { result ≡ release_has_queues place }
{
    match place {
        ReleasePlace::ScanCells(_, _) => true,
        ReleasePlace::ScanAndRelease(_) => true,
        _ => false,
    }
}

/// Whether a wait at this place has the queues.
fn wait_has_queues(place: WaitPlace) -> bool
    ensures { result ≡ wait_has_queues place }
{
    match place {
        WaitPlace::InQueuing(_, QueuePlace::ArmToWait(_)) => true,
        WaitPlace::InQueuing(_, QueuePlace::LoadToScan(_, _)) => true,
        WaitPlace::InQueuing(_, QueuePlace::QueueToWait(_)) => true,
        WaitPlace::InLeaving(_, LeavePlace::Leave(_)) => true,
        _ => false,
    }
}

/// Whether a seat at this place in a call has the queues.
pub fn has_queues<C: Queueable<N>, const N: usize>(walk: Option<Walk<C>>) -> bool
    ensures { result ≡ has_queues walk }
{
    match walk {
        Some(Walk::InAcquire(_, place)) => acquire_has_queues(place),
        Some(Walk::InRelease(_, place)) => release_has_queues(place),
        Some(Walk::InWait(_, place)) => wait_has_queues(place),
        Some(Walk::InSignal(_, _, place)) => matches!(place, SignalPlace::WakeAndReturn(_)),
        Some(Walk::InShow(place)) => matches!(place, ShowPlace::ReturnShown(_)),
        _ => false,
    }
}
