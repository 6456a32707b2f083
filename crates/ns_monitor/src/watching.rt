//! What watches for an early end of a wait.

ghost use Rattle.std.specs.Prelude.{◌≡◌, refl, false, None, Some, Option, IfSome};
ghost use Rattle.std.proofs.Common.{◌∙◌};
ghost use Rattle.ns_gate.specs.Prelude.{MayShow, is_limited, Cause, Expired, Limits};
ghost use Rattle.ns_monitor.specs.Prelude.{HasLookedOn, IsLooking, LookShows, may_show, none_shown, nothing_named, same_looker, shown_at_will, shown_since, still_looking, then_looker};
ghost use Rattle.ns_monitor.specs.Several.{at_will};

use ns_env::limits::{Cause, Limits};
use ns_note::env::Env;
use ns_note::seat::EnvSeat;

/// What watches for an early end of a wait: it looks, where the wait's limits let anything end it.
///
/// Its laws are ghost members, and [`Looker`] borrows the environment's seat for the time of the
/// call. So `wait` takes no environment, and both waits are one body. A wait that is given neither
/// deadline nor note makes no look.
pub trait Watch {
    /// It watches for what these limits name.
    ghost watches: { Self → Limits → Type 0 };

    /// The second is the first, some looks later.
    ghost since: { Self → Self → Type 0 };

    /// A look between the two has shown this.
    ghost shows: { Self → Self → Limits → Option Cause → Type 0 };

    /// It is itself, no look later.
    ghost same: { (one : Self) → Self.since one one };

    /// It may be looked with again and again.
    ghost then: { (one two three : Self) → Self.since one two → Self.since two three → Self.since one three };

    /// It watches on.
    ghost still: { (one two : Self) (limits : Limits) → Self.since one two → Self.watches one limits → Self.watches two limits };

    /// What was shown since a later one was shown since an earlier one.
    ghost later: { (one two three : Self) (limits : Limits) (shown : Option Cause) → Self.since one two → Self.shows two three limits shown → Self.shows one three limits shown };

    /// That nothing was shown stays so.
    ghost stays: { (one two three : Self) (limits : Limits) → Self.shows one two limits None → Self.since two three → Self.shows one three limits None };

    /// It shows what the limits name.
    ghost names: { (one two : Self) (limits : Limits) (shown : Option Cause) → Self.watches one limits → Self.shows one two limits shown → MayShow limits shown };

    /// Looks for what ends a wait with these limits early.
    fn look(&mut self, limits: Limits) -> Option<Cause>
        requires watches { Self.watches self.old limits }
        ensures since { Self.since self.old self.new }
        ensures shown { Self.shows self.old self.new limits result };
}

/// Nothing ends the wait early: a look would show nothing, and none is made.
#[derive(Drop)]
pub struct NoWatch;

impl Watch for NoWatch {
    ghost watches = { λ me limits. is_limited limits ≡ false };

    ghost since = { λ one two. Unit {0} };

    ghost shows = { λ one two limits shown. IfSome shown (λ cause. ⊥) };

    ghost same = { λ one. tt };

    ghost then = { λ one two three s t. tt };

    ghost still = { λ one two limits s watches. watches };

    ghost later = { λ one two three limits shown s shows. shows };

    ghost stays = { λ one two three limits shows s. shows };

    ghost names = { λ one two limits shown watches shows. nothing_named limits shown shows };

    fn look(&mut self, _limits: Limits) -> Option<Cause> {
        None
    }
}

/// The wait's caller ends it: the first look shows that a deadline has come which is always over.
#[derive(Drop)]
pub struct EndedWatch;

impl Watch for EndedWatch {
    ghost watches = { λ me limits. limits ≡ at_will };

    ghost since = { λ one two. Unit {0} };

    ghost shows = { λ one two limits shown. shown ≡ Some Expired };

    ghost same = { λ one. tt };

    ghost then = { λ one two three s t. tt };

    ghost still = { λ one two limits s watches. watches };

    ghost later = { λ one two three limits shown s shows. shows };

    ghost stays = { λ one two three limits shows s. shows };

    ghost names = { λ one two limits shown watches shows. shown_at_will limits shown watches shows };

    fn look(&mut self, _limits: Limits) -> Option<Cause> {
        Some(Cause::Expired)
    }
}

/// A note or a deadline may end the wait early, and is looked at.
#[derive(Drop)]
pub struct Looker<'a> {
    /// The environment.
    pub env: &'a Env,
    /// The caller's seat of it.
    pub seat: &'a mut EnvSeat,
}

impl<'a> Watch for Looker<'a> {
    ghost watches = { λ me limits. IsLooking me.env.now me.seat.now limits };

    ghost since = { λ one two. (two.seat.ghost_name ≡ one.seat.ghost_name) × (two.env ≡ one.env) × HasLookedOn one.seat.now two.seat.now };

    ghost shows = { λ one two limits shown. LookShows limits one.seat.now two.seat.now shown };

    ghost same = { λ one. (refl, refl, same_looker one.seat.now) };

    ghost then = { λ one two three s t. (t.0 ∙ s.0, t.1 ∙ s.1, then_looker one.seat.now two.seat.now three.seat.now s.2 t.2) };

    ghost still = { λ one two limits s watches. still_looking one.env.now two.env.now one.seat.now two.seat.now limits (λ i. (s.1 i).now) s.2 watches };

    ghost later = { λ one two three limits shown s shows. shown_since limits one.seat.now two.seat.now three.seat.now shown s.2 shows };

    ghost stays = { λ one two three limits shows s. none_shown limits one.seat.now two.seat.now three.seat.now shows s.2 };

    ghost names = { λ one two limits shown watches shows. may_show limits one.seat.now two.seat.now shown shows };

    fn look(&mut self, limits: Limits) -> Option<Cause> {
        self.env.look_for(self.seat, limits)
    }
}

/// Makes a wait by a looker, of this name, that borrows the environment's seat for the time of the wait, behind which
/// the seat attests what it has seen. It is no function, since a call of one that may wait costs a look at whether it
/// was cut short.
macro_rules! watched {
    ($env:expr, $seat:expr, $looker:ident, $wait:expr) => {{
        let waited = {
            let mut $looker = Looker {
                env: $env,
                seat: $seat,
            };
            $wait
        };
        $seat.attest();
        waited
    }};
}

pub(crate) use watched;
