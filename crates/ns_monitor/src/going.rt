//! What a call does by the lock word that it has seen last, as long as it hasn't the waiter queues.

ghost use Rattle.std.specs.Prelude.{◌≡◌, None, Some, true, if◌then◌else◌, ⊤};
ghost use Rattle.ns_monitor.specs.Prelude.{Busy, CanStep, Decides, GoesBy, HasAnswered, HasBegunBy, HasComeBy, HasGuessedTo, HasMadeStepsTo, HasTried, IsAtRest, IsPackable, MayGoAlone, StandsAt, Succeeded, TryLock, WantsNext, WentAtOnce, Word, going_act, going_of, may_go, taking_for, the, trying};

use ns_gate::bound::Bound;
use ns_gate::gate::GateSeat;
use ns_model::condition::Condition;
use ns_model::event::Mode;
use ns_word::act::{Act, Found};
use ns_word::number::LockWord;
use ns_word::wait::Aim;
use ns_word::walk::Walk;
use ns_word::word::{Arrival, Releasing, Taking, Word};
use std::alloc::AllocError;

/// What a call would do without the waiter queues, where the lock word lets it.
#[derive(Copy)]
pub enum Going<C> {
    /// It would acquire the lock for this.
    Acquiring(Aim<C>, Arrival),
    /// It would release its section.
    Leaving(Releasing),
    /// Nothing: it has to change the lists.
    Changing,
}

/// A call that has tried to go at once: its seat, that seat's number, and the lock word that it saw
/// last, or none where it has gone. By that word it goes on in a function that may wait.
///
/// What goes at once is no such function: each call of one costs a look at whether it was cut short.
///
/// No half gives back a section, nor an enum with either a section or what is to be gone on with: LLVM keeps
/// both in memory, where a call went at once, too. The second halves are given the seat and not lent it, so
/// that the first keep it in registers.
#[derive(Drop)]
pub(crate) struct Begun<C: Condition<N>, const N: usize> {
    /// The seat.
    pub(crate) seat: GateSeat<C, N>,
    /// The seat's number.
    pub(crate) number: u8,
    /// Whether the word that it began with had to do with no other caller.
    pub(crate) alone: bool,
    /// The lock word seen last, if the call has not gone.
    pub(crate) last: Option<LockWord>,
}

/// Acquires the lock in this mode, at once or behind a wait: the body of the handles' calls that lock, which the
/// monitor's call. It is no function, since a call of one that may wait costs a look at whether it was cut short.
macro_rules! locked {
    ($monitor:expr, $rt:expr, $seat:expr, $mode:expr) => {{
        let Begun {
            seat,
            number,
            alone,
            last,
        } = $monitor.begin_lock($seat, $mode);
        let seat = match last {
            None => seat,
            Some(last) => $monitor.lock_slow($rt, seat, number, $mode, last),
        };
        holding(seat, number, alone)
    }};
}

/// Releases the section in hand, at once or behind a scan: the body of each call that releases, likewise.
macro_rules! released {
    ($monitor:expr, $rt:expr, $held:expr, $releasing:expr) => {{
        let Begun {
            seat,
            number,
            alone,
            last,
        } = $monitor.begin_unlock($held, $releasing);
        let seat = match last {
            None => seat,
            Some(last) => $monitor.unlock_slow($rt, seat, number, $releasing, last),
        };
        seated(seat, number, alone)
    }};
}

pub(crate) use locked;
pub(crate) use released;

impl<C: Copy> Clone for Going<C> {
    ghost is_clone = { λ one other. other ≡ one };

    ghost is_infallible = { λ _. ⊤ };

    fn clone(&self) -> Result<Self, AllocError> {
        Ok(*self)
    }
}

impl<C: Copy> Going<C> {
    /// Whether this word lets it.
    #[inline(always)]
    pub fn may_go(self, word: LockWord) -> bool
        ensures { result ≡ may_go self word }
    {
        match self {
            Going::Acquiring(aim, arrival) => word.may_acquire(aim.mode(), arrival),
            Going::Leaving(releasing) => !word.needs_scan(releasing),
            Going::Changing => false,
        }
    }

    /// The lock word as the call finds it where no other caller holds the lock, or stands in its list,
    /// or has the queues. It lets each call go that may go at all without the queues.
    ///
    /// A clause says that this word lets the call go, so the code doesn't test it. That it is the word of a
    /// caller alone is for speed, and no clause says it. The mark is `#[inline]` and not `#[inline(always)]`:
    /// a function that would grow large loses the latter. With that mark here, and a test, the compiler
    /// calls a section of a lock, a read and an unlock, and doesn't inline it.
    #[inline]
    fn word_alone(self) -> LockWord
        ensures packs { IsPackable result }
        ensures lets { MayGoAlone self → may_go self result ≡ true }
    {
        let word = match self {
            Going::Acquiring(_, _) | Going::Changing => Word::FREE,
            Going::Leaving(Releasing::Writer | Releasing::QuietWriter) => Word {
                write: true,
                ..Word::FREE
            },
            Going::Leaving(Releasing::Reader) => Word {
                readers: 1,
                ..Word::FREE
            },
        };
        LockWord::new(word)
    }

    /// What it tells the others where it takes the queues.
    pub fn taking(self) -> Taking
        ensures { result ≡ taking_for self }
    {
        match self {
            Going::Acquiring(aim, arrival) => Taking::ToQueue(aim.mode(), arrival),
            Going::Leaving(_) | Going::Changing => Taking::ToChange,
        }
    }
}

/// Makes the exchange by which a call goes without the waiter queues, where the word is still the
/// one last seen; else tells the word.
#[inline(always)]
pub(crate) fn exchange_to_go<C: Condition<N>, const N: usize>(
    seat: &mut Bound<'_, C, N>,
    going: Going<C>,
    last: LockWord,
) -> Result<(), LockWord>
    requires last { IsPackable last }
    requires may { may_go going last ≡ true }
    requires can { CanStep C.means None (going_act going last) seat.old.me }
    ensures { HasTried C.means (going_act going last) Found.Made result seat.old seat.new }
{
    match going {
        Going::Acquiring(aim, arrival) => seat.exchange_to_acquire(aim, arrival, last),
        Going::Leaving(releasing) => seat.exchange_to_release(releasing, last),
        Going::Changing => unreachable!(),
    }
}

/// Begins a call by the exchange by which it would go where the lock word is the one that is guessed:
/// then the exchange is both, the load with which the call begins and what it does behind that. Else
/// it is the load alone, and tells the word.
#[inline(always)]
fn guess_to_go<C: Condition<N>, const N: usize>(
    seat: &mut Bound<'_, C, N>,
    walk: Walk<C>,
    going: Going<C>,
    guess: LockWord,
) -> Result<(), LockWord>
    requires can { CanStep C.means (Some walk) Act.LoadWord seat.old.me }
    requires guess { IsPackable guess }
    requires may { may_go going guess ≡ true }
    requires next { WantsNext N walk guess (going_act going guess) }
    ensures { HasGuessedTo C.means walk guess (going_act going guess) result seat.old seat.new }
{
    match going {
        Going::Acquiring(aim, arrival) => seat.acquire_guessing(walk, aim, arrival, guess),
        Going::Leaving(releasing) => seat.release_guessing(walk, releasing, guess),
        Going::Changing => unreachable!(),
    }
}

/// Begins a call that loads the lock word. Where the caller was alone with the lock it guesses that it
/// still is, and where that is right it has gone at once. Else answers the word that it began with.
/// `alone` then says whether that has to do with no other caller.
///
/// A load that follows an exchange of the same word waits for that to end, which a right guess spares.
/// A wrong one costs what an exchange takes more than a load.
///
/// It guesses only where the caller's last lock, try or release began with such a word too. So past
/// waiters and beside other readers a caller guesses wrong once, and then loads first until the word is
/// such a one again.
#[inline(always)]
fn begin_to_go<C: Condition<N>, const N: usize>(
    seat: &mut Bound<'_, C, N>,
    walk: Walk<C>,
    going: Going<C>,
    alone: &mut bool,
) -> Result<(), LockWord>
    requires alone { MayGoAlone going }
    requires can { CanStep C.means (Some walk) Act.LoadWord seat.old.me }
    requires next { (word : Word) → may_go going word ≡ true → WantsNext N walk word (going_act going word) }
    ensures { HasComeBy (HasBegunBy C.means walk going result) seat.old seat.new }
{
    let guess = going.word_alone();
    if *alone {
        let tried = guess_to_go(seat, walk, going, guess);
        *alone = tried.is_ok();
        return tried;
    }
    let word = seat.load(Some(walk));
    *alone = word.number() == guess.number();
    Err(word)
}

/// Goes on by the word that the call began with, by one exchange where that lets it and no other step
/// comes between.
#[inline(always)]
fn go_by<C: Condition<N>, const N: usize>(
    seat: &mut Bound<'_, C, N>,
    going: Going<C>,
    _walk: Walk<C>,
    word: LockWord,
) -> Option<LockWord>
    requires { GoesBy C.means _walk going word seat.old.me }
    ensures { HasMadeStepsTo None (WentAtOnce C.means _walk result) seat.old seat.new }
{
    if !going.may_go(word) {
        return Some(word);
    }
    match exchange_to_go(seat, going, word) {
        Ok(()) => None,
        Err(other) => Some(other),
    }
}

/// Begins a call that loads the word first, and goes by one exchange where the word lets it and no
/// other step comes between. Else answers the word that it saw last, with which a call goes on that
/// may have to wait.
#[inline(always)]
pub(crate) fn go_at_once<C: Condition<N>, const N: usize>(
    seat: &mut Bound<'_, C, N>,
    going: Going<C>,
    walk: Walk<C>,
    alone: &mut bool,
) -> Option<LockWord>
    requires decides { Decides walk }
    requires stands { StandsAt C.means (Some walk) walk seat.old.me }
    requires going { going ≡ going_of walk }
    requires alone { MayGoAlone going }
    ensures { HasMadeStepsTo (Some walk) (WentAtOnce C.means walk result) seat.old seat.new }
{
    match begin_to_go(seat, walk, going, alone) {
        Ok(()) => None,
        Err(word) => go_by(seat, going, walk, word),
    }
}

/// Tries to acquire the lock in this mode: loads its word, and makes at most one exchange. One exchange
/// may be both; one that guessed wrong is the load.
#[inline(always)]
pub(crate) fn try_acquire<C: Condition<N>, const N: usize>(
    seat: &mut Bound<'_, C, N>,
    mode: Mode,
    alone: &mut bool,
) -> bool
    requires rest { IsAtRest C.means seat.old.me }
    requires free { (the seat.old.me.0).at.held ≡ None }
    ensures { HasMadeStepsTo (Some (trying mode)) (HasAnswered C.means (TryLock mode) (if result then Succeeded else Busy)) seat.old seat.new }
{
    let aim = Aim::ForLock(mode);
    let going = Going::Acquiring(aim, Arrival::AsFresh);
    let Err(word) = begin_to_go(seat, Walk::try_lock(mode), going, alone) else {
        return true;
    };
    if !word.may_acquire(mode, Arrival::AsFresh) {
        return false;
    }
    seat.exchange_to_acquire(aim, Arrival::AsFresh, word)
        .is_ok()
}
