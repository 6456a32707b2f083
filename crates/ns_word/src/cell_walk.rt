//! What a section does with its row: it reads a cell, writes one, or is judged quiet.

ghost use Rattle.std.specs.Prelude.{◌≡◌, ◌≤◌};
ghost use Rattle.ns_word.specs.Walks.{want_in_cells, got_in_cells, after_judging, quiet_place};

use crate::act::{Act, Found};
use crate::release_walk::ReleasePlace;
use crate::walk::{Reply, Walk, WalkNext};
use crate::word::Releasing;
use ns_env::next::Next;

/// What a call judges the section in hand for.
#[derive(Clone, Copy)]
pub enum Judging {
    /// To tell whether it is quiet. No script makes this call; it is for callers that release
    /// without a wakeup behind it.
    ToTell,
    /// To release it if it is quiet.
    ToRelease,
}

/// A place in a call on the row of the section in hand.
#[derive(Clone, Copy)]
pub enum CellPlace {
    /// A read of a cell.
    GetLoad(u8),
    /// A write that is about to load the cell's old value.
    SetLoad(u8, u64),
    /// A write that is about to store the value.
    SetStore(u8, u64),
    /// The section is judged, and this cell, which isn't the last, is about to be loaded.
    QuietCells(Judging, u8),
    /// The section is judged, and this cell, the last, is about to be loaded.
    QuietLast(Judging, u8),
}

/// Where a call goes that judges the section and has loaded so many cells.
pub(crate) fn quiet_place<const N: usize>(judging: Judging, loaded: usize) -> CellPlace
    requires { N ≤ 16 }
    ensures { result ≡ quiet_place N judging loaded }
{
    let last = N.saturating_sub(1);
    if loaded < last {
        CellPlace::QuietCells(judging, loaded as u8)
    } else {
        CellPlace::QuietLast(judging, last as u8)
    }
}

/// Where a call goes that has judged the section.
fn after_judging<C: Copy>(judging: Judging, is_quiet: bool) -> WalkNext<C>
    ensures { result ≡ after_judging judging is_quiet }
{
    match judging {
        Judging::ToTell => Next::Done(Reply::Is(is_quiet)),
        Judging::ToRelease => {
            if is_quiet {
                Next::On(Walk::InRelease(Releasing::QuietWriter, ReleasePlace::ReleaseLoad))
            } else {
                Next::Done(Reply::Noisy)
            }
        }
    }
}

impl CellPlace {
    /// The step that the place wants next.
    pub(crate) fn want<C: Copy>(self) -> Act<C>
        ensures { result ≡ want_in_cells self }
    {
        match self {
            CellPlace::GetLoad(i) => Act::LoadCell(i),
            CellPlace::SetLoad(i, _) => Act::LoadCell(i),
            CellPlace::SetStore(i, value) => Act::StoreCell(i, value),
            CellPlace::QuietCells(_, i) => Act::LoadCell(i),
            CellPlace::QuietLast(_, i) => Act::JudgeQuiet(i),
        }
    }

    /// Where the call goes with what its step found.
    pub(crate) fn got<C: Copy, const N: usize>(self, found: Found) -> WalkNext<C>
        requires { N ≤ 16 }
        ensures { result ≡ got_in_cells N self found }
    {
        match (self, found) {
            (CellPlace::GetLoad(_), Found::Cell(value)) => Next::Done(Reply::Number(value)),
            (CellPlace::SetLoad(i, value), Found::Cell(_)) => {
                Next::On(Walk::InCells(CellPlace::SetStore(i, value)))
            }
            (CellPlace::SetStore(_, _), Found::Made) => Next::Done(Reply::Succeeded),
            (CellPlace::QuietCells(judging, i), Found::Cell(_)) => {
                Next::On(Walk::InCells(quiet_place::<N>(judging, i as usize + 1)))
            }
            (CellPlace::QuietLast(judging, _), Found::Quiet(is_quiet)) => after_judging(
                judging, is_quiet,
            ),
            (place, _) => Next::On(Walk::InCells(place)),
        }
    }
}
