//! Which sections are legal: where one starts, what it may change, and what its caller had
//! waited for.

ghost use Rattle.std.specs.Prelude.{◌≡◌, ◌↔◌, IsTrue};
ghost use Rattle.ns_model.specs.Sections.{EntryFits, ExitFits, ModeFits, phase_after};

use crate::condition::Condition;
use crate::cvs::Variables;
use crate::event::{Answer, Entry, Exit, Mode};
use crate::phase::Phase;

/// Whether a section in this mode that begins at this row may begin so, given the phase of its
/// caller.
pub(crate) fn entry_fits<C: Condition<N>, const N: usize>(
    before: &[u64; N],
    mode: Mode,
    entry: &Entry<C>,
    phase: Phase<C>,
) -> bool
    ensures { IsTrue result ↔ EntryFits C.means.holds before.now mode entry.now phase }
{
    match (entry, &phase) {
        (Entry::Plain, Phase::Idle) => true,
        (Entry::Waited(c, answer), Phase::Cond(d, m)) => {
            let met = *answer == Answer::Met;
            *m == mode && c.test(before) == met && d.test(before) == met
        }
        (Entry::AfterCv(k, answer), Phase::Woken(j, m)) => {
            *m == mode && j == k && *answer == Answer::Met
        }
        (Entry::AfterCv(k, answer), Phase::Left(variables, m)) => {
            *m == mode && variables.is_just(*k) && *answer != Answer::Met
        }
        (Entry::AfterAny(Some(k)), Phase::Woken(j, m)) => *m == mode && j == k,
        (Entry::AfterAny(None), Phase::Left(_, m)) => *m == mode,
        _ => false,
    }
}

/// Whether a section may end so at this row.
pub(crate) fn exit_fits<C: Condition<N>, const N: usize>(after: &[u64; N], exit: &Exit<C>) -> bool
    ensures { IsTrue result ↔ ExitFits C.means.holds after.now exit.now }
{
    match exit {
        Exit::Plain => true,
        Exit::CondWait(c) => !c.test(after),
        Exit::CvWait(_) | Exit::AnyWait(_) => true,
    }
}

/// Whether a section in this mode may change the row so.
pub(crate) fn mode_fits<const N: usize>(mode: Mode, before: &[u64; N], after: &[u64; N]) -> bool
    ensures { IsTrue result ↔ ModeFits mode before.now after.now }
{
    match mode {
        Mode::Write => true,
        Mode::Read => *after == *before,
    }
}

/// The phase that a section leaves its caller in.
pub(crate) fn phase_after<C: Copy>(mode: Mode, exit: Exit<C>) -> Phase<C>
    ensures { result ≡ phase_after mode exit }
{
    match exit {
        Exit::Plain => Phase::Idle,
        Exit::CondWait(c) => Phase::Cond(c, mode),
        Exit::CvWait(k) => Phase::Waiting(Variables::Only(k), mode),
        Exit::AnyWait(cvs) => Phase::Waiting(Variables::Any(cvs), mode),
    }
}
