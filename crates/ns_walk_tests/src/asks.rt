//! When a test may make an act of a driven seat, and begin a call of it: what it asks as it runs.

ghost use Rattle.std.specs.Prelude.{◌≡◌, is_some};
ghost use Rattle.ns_walk_tests.specs.Acts.{are_read, beside_of, has_read, is_for_condition, is_for_one, is_in, is_in_range, is_known, is_packable, is_same, may_begin, may_begin_free, may_begin_in, may_make, may_show, owed_or_none, was_in, was_known};

use crate::known::{Known, Rows, Section};
use ns_env::limits::{Cause, Limits};
use ns_gate::perform::Beside;
use ns_gate::queues::Turned;
use ns_model::cvs::Variables;
use ns_model::event::Mode;
use ns_word::acquire_walk::AcquirePlace;
use ns_word::act::{Act, Found};
use ns_word::cell_walk::CellPlace;
use ns_word::owed::Owed;
use ns_word::release_walk::ReleasePlace;
use ns_word::show_walk::ShowPlace;
use ns_word::signal_walk::SignalPlace;
use ns_word::try_walk::TryPlace;
use ns_word::wait::{Aim, QueuePlace, Subject, Visit, WaitPlace};
use ns_word::walk::Walk;
use ns_word::word::{Arrival, Releasing, Word};

/// The cell as the section began, where it is known.
fn was_known(section: Option<Section>) -> u64
    ensures { result ≡ was_known section }
{
    match section {
        Some(
            Section {
                rows: Rows::Are(before, _),
                ..
            },
        ) => before,
        _ => 0,
    }
}

/// The cell as it stands, where it is known.
pub fn is_known(section: Option<Section>) -> u64
    ensures { result ≡ is_known section }
{
    match section {
        Some(
            Section {
                rows: Rows::Are(_, row),
                ..
            },
        ) => row,
        _ => 0,
    }
}

/// Whether both are known.
pub fn has_read(section: Option<Section>) -> bool
    ensures { result ≡ has_read section }
{
    matches!(
        section,
        Some(Section {
            rows: Rows::Are(_, _),
            ..
        })
    )
}

/// The wake that is owed.
fn owed_or_none(owed: Option<Owed>) -> Owed
    ensures { result ≡ owed_or_none owed }
{
    match owed {
        Some(wake) => wake,
        None => Owed { seat: 0, value: 0 },
    }
}

/// What is told beside an act, where the hand has made this of the queues, and that is found once they are
/// back.
pub fn beside_of(known: Known, turned: Turned, finds: Found) -> Beside<1>
    ensures { result ≡ beside_of known turned finds }
{
    Beside {
        number: known.number,
        before: [was_known(known.section)],
        row: [is_known(known.section)],
        shown: known.shown,
        turned,
        wake: owed_or_none(known.owed),
        finds,
    }
}

/// Whether the word has a number.
pub fn is_packable(last: Word) -> bool
    ensures { result ≡ is_packable last }
{
    last.readers <= 64 && (!last.write || last.readers == 0)
}

/// Whether the limits give what is shown.
fn may_show(limits: Limits, shown: Option<Cause>) -> bool
    ensures { result ≡ may_show limits shown }
{
    match shown {
        None => true,
        Some(Cause::Expired) => limits.deadline.is_some(),
        Some(Cause::Notified) => limits.note.is_some(),
    }
}

/// Whether an act may be made that puts no queues back.
pub fn may_make<C: Copy>(begins: bool, act: Act<C>, known: Known) -> bool
    ensures { result ≡ may_make begins act known }
{
    match act {
        Act::LoadWord => true,
        Act::Acquire(_, _, last) => !begins && is_packable(last),
        Act::TakeQueues(_, last) => !begins && is_packable(last),
        Act::Release(_, last) => !begins && is_packable(last),
        Act::LoadCell(i) => i < 1,
        Act::JudgeQuiet(i) => i < 1 && has_read(known.section),
        Act::JudgeMet(i, _) => i < 1 && known.section.is_some(),
        Act::StoreCell(i, _) => !begins && i < 1,
        Act::ArmFlag => !begins,
        Act::LoadFlag => !begins,
        Act::PayWake => !begins && known.owed.is_some(),
        Act::Look(limits, _) => !begins && may_show(limits, known.shown),
        _ => false,
    }
}

/// Whether the modes are one.
fn is_same(one: Mode, other: Mode) -> bool
    ensures { result ≡ is_same one other }
{
    match (one, other) {
        (Mode::Write, Mode::Write) => true,
        (Mode::Read, Mode::Read) => true,
        _ => false,
    }
}

/// Whether the wait is for a condition.
fn is_for_condition<C: Copy>(on: Subject<C>) -> bool
    ensures { result ≡ is_for_condition on }
{
    matches!(on, Subject::OnCondition(_))
}

/// Whether the wait is for one variable that there is.
fn is_for_one<C: Copy>(on: Subject<C>) -> bool
    ensures { result ≡ is_for_one on }
{
    match on {
        Subject::OnVariables(Variables::Only(k)) => k < 4,
        _ => false,
    }
}

/// Whether the wait is for a condition, or for one variable that there is.
pub fn is_in_range<C: Copy>(on: Subject<C>) -> bool
    ensures { result ≡ is_in_range on }
{
    is_for_condition(on) || is_for_one(on)
}

/// Whether a seat without a section may begin this call.
fn may_begin_free<C: Copy>(walk: Walk<C>) -> bool
    ensures { result ≡ may_begin_free walk }
{
    match walk {
        Walk::InTry(_, TryPlace::TryLoad) => true,
        Walk::InAcquire(Aim::ForLock(_), AcquirePlace::AcquireLoad(Arrival::AsFresh)) => true,
        Walk::InSignal(_, k, SignalPlace::SignalLoad) => k < 4,
        Walk::InShow(ShowPlace::ShowLoad) => true,
        _ => false,
    }
}

/// Whether a seat with a section in this mode may begin this call.
fn may_begin_in<C: Copy>(walk: Walk<C>, mode: Mode) -> bool
    ensures { result ≡ may_begin_in walk mode }
{
    match walk {
        Walk::InRelease(Releasing::Writer, ReleasePlace::ReleaseLoad) => is_same(mode, Mode::Write),
        Walk::InRelease(Releasing::Reader, ReleasePlace::ReleaseLoad) => is_same(mode, Mode::Read),
        Walk::InCells(CellPlace::GetLoad(i)) => i < 1,
        Walk::InCells(CellPlace::SetLoad(i, _)) => is_same(mode, Mode::Write) && i < 1,
        Walk::InCells(CellPlace::QuietLast(_, i)) => is_same(mode, Mode::Write) && i == 0,
        Walk::InWait(wait, WaitPlace::TestLast(Visit::OnEntry, i)) => {
            is_same(mode, wait.mode) && i == 0 && is_for_condition(wait.on)
        }
        Walk::InWait(wait, WaitPlace::InQueuing(false, QueuePlace::Load)) => {
            is_same(mode, wait.mode) && is_for_one(wait.on)
        }
        Walk::InSignal(_, k, SignalPlace::SignalLoad) => k < 4,
        Walk::InShow(ShowPlace::ShowLoad) => true,
        _ => false,
    }
}

/// Whether a seat with this section may begin this call.
pub fn may_begin<C: Copy>(walk: Walk<C>, section: Option<Section>) -> bool
    ensures { result ≡ may_begin walk section }
{
    match section {
        None => may_begin_free(walk),
        Some(section) => may_begin_in(walk, section.mode),
    }
}
