//! Calls that load the cells of the row one after another: a wait that tests its condition, a question
//! whether the section is quiet, and a scan.

ghost use Rattle.std.specs.Prelude.{◌≡◌, ◌≤◌, None, Some, false, if◌then◌else◌};
ghost use Rattle.ns_monitor.specs.Prelude.{HasAnswered, HasLoaded, HasMadeReady, HasMadeStepsTo, HasMode, HasTested, HasUnchangedQueues, Is, IsAtPlace, IsAtRest, IsQuiet, MayTest, OnCondition, ScansAs, StandsAt, Write, before_in, judging, loading, loading_at, row_in, the};

use ns_gate::bound::Bound;
use ns_model::condition::Condition;
use ns_word::cell_walk::{CellPlace, Judging};
use ns_word::wait::{Visit, Wait, WaitPlace};
use ns_word::walk::Walk;

/// Loads so many cells, from the first on, for the call that stands at this place, or begins there.
/// Answers what is still to begin: nothing, once a cell is loaded. No code reads the place.
fn load_cells<C: Condition<N>, const N: usize>(
    seat: &mut Bound<'_, C, N>,
    begins: Option<Walk<C>>,
    _walk: Walk<C>,
    row: &mut [u64; N],
    count: usize,
) -> Option<Walk<C>>
    requires count { (count ≤ N) × (count ≡ (loading N _walk).count) }
    requires stands { StandsAt C.means begins (loading_at N _walk 0) seat.old.me }
    ensures { HasLoaded C.means begins result _walk count row.new seat.old seat.new }
{
    let mut begun = begins;
    for i in 0..count {
        row[i] = seat.load_cell(begun, i as u8);
        begun = None;
    }
    begun
}

/// Tests the condition of a wait: as the call begins, or as it comes back. The row is loaded into
/// the one given.
pub(crate) fn test<C: Condition<N>, const N: usize>(
    seat: &mut Bound<'_, C, N>,
    begins: Option<Walk<C>>,
    wait: Wait<C>,
    condition: C,
    visit: Visit,
    row: &mut [u64; N],
) -> bool
    requires on { wait.on ≡ OnCondition condition }
    requires may { MayTest C.means begins wait visit seat.old.me }
    ensures { HasMadeStepsTo begins (HasTested C.means wait visit condition result row.new seat.old.me) seat.old seat.new }
{
    let place = Walk::InWait(wait, WaitPlace::TestCells(visit, 0));
    let begun = load_cells(seat, begins, place, row, N - 1);
    row[N - 1] = seat.judge_met(begun, (N - 1) as u8, condition);
    condition.test(row)
}

/// Loads the row of the section in hand, for a call that judges whether it is quiet.
pub(crate) fn load_to_judge<C: Condition<N>, const N: usize>(seat: &mut Bound<'_, C, N>) -> [u64; N]
    requires rest { IsAtRest C.means seat.old.me }
    requires writes { HasMode Write (the seat.old.me.0).at.held }
    ensures judged { HasMadeStepsTo (Some (judging N)) (HasAnswered C.means IsQuiet (Is (C.means.quiet (before_in (the seat.old.me.0).at.held) (row_in (the seat.old.me.0).at.held)))) seat.old seat.new }
    ensures row { result ≡ row_in (the seat.old.me.0).at.held }
{
    let begins = Some(Walk::is_quiet::<N>());
    let place = Walk::InCells(CellPlace::QuietCells(Judging::ToTell, 0));
    let mut row = [0; N];
    let begun = load_cells(seat, begins, place, &mut row, N - 1);
    row[N - 1] = seat.judge_quiet(begun, (N - 1) as u8);
    row
}

/// Makes a row ready for a scan, with the queues in hand: loads it whole, where that is needed, and
/// leaves it as it is where a scan takes and leaves the same at it. No code reads the place.
pub(crate) fn load_to_scan<C: Condition<N>, const N: usize>(
    seat: &mut Bound<'_, C, N>,
    needed: bool,
    walk: Walk<C>,
    row: &mut [u64; N],
)
    requires scans { (loading N walk).count ≡ N }
    requires at { IsAtPlace C.means (if needed then loading_at N walk 0 else (loading N walk).last) seat.old.me }
    requires taken { HasUnchangedQueues seat.old.me }
    requires ready { needed ≡ false → ScansAs C.means row.old (row_in (the seat.old.me.0).at.held) (the seat.old.me.0).stood.lock }
    ensures { HasMadeStepsTo None (HasMadeReady C.means (loading N walk).last row.new seat.old.me) seat.old seat.new }
{
    if !needed {
        return;
    }
    load_cells(seat, None, walk, row, N);
}
