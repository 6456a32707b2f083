//! How far a call goes on: whether nothing is left to it but to look again, and what it pays as it begins.

ghost use Rattle.std.specs.Prelude.{Some, ◌≡◌, ◌≤◌};
ghost use Rattle.ns_word.specs.Prelude.{IsFirst};
ghost use Rattle.ns_word.specs.Progress.{cost_of};
ghost use Rattle.ns_word.specs.Rests.{is_idle, rests_at};

use crate::act::{Act, Found};
use crate::cell_walk::{CellPlace, Judging};
use crate::wait::WaitPlace;
use crate::walk::{Walk, WalkNext};
use crate::word::Word;
use ns_env::next::Next;

/// Whether the call is to repeat from a place.
fn is_idle<C: Copy>(next: &WalkNext<C>) -> bool
    ensures { result ≡ is_idle next.now }
{
    matches!(next, Next::Idle(_))
}

impl<C: Copy> Walk<C> {
    /// Whether nothing is left to the call but to look again, where this is the lock word and this its
    /// seat's own flag: it would load the word and find the queues with another, or it waits and its flag is set.
    ///
    /// Needs a row of at most 16 cells, which every condition's law says.
    pub fn rests<const N: usize>(&self, word: Word, flag: u8) -> bool
        requires { N ≤ 16 }
        ensures { result ≡ rests_at N word flag (Some self.now) }
    {
        match self.want() {
            Act::LoadWord => is_idle(&self.got::<N>(Found::Saw(word))),
            Act::LoadFlag => flag == 1,
            Act::Look(_, _) => flag == 1 && is_idle(&self.got::<N>(Found::Looked(None))),
            _ => false,
        }
    }

    /// What a call pays that begins at this place, over a row of `N` cells: it adds no more to the steps that count and
    /// are left to all.
    ///
    /// Needs the first place of a call, and a row of at most 16 cells.
    pub fn cost<const N: usize>(&self) -> u64
        requires few { N ≤ 16 }
        requires first { IsFirst N self.now }
        ensures { result ≡ cost_of N self.now }
    {
        let cells = N as u64;
        match self {
            Walk::InTry(_, _) => 401,
            Walk::InAcquire(_, _) => 601,
            Walk::InRelease(_, _) => 60_201 + 200 * cells,
            Walk::InCells(CellPlace::GetLoad(_)) => 201,
            Walk::InCells(CellPlace::QuietCells(judging, _) | CellPlace::QuietLast(judging, _)) => {
                match judging {
                    Judging::ToTell => 201 + 400 * cells,
                    Judging::ToRelease => 60_201 + 400 * cells,
                }
            }
            Walk::InCells(_) => 3_800_202,
            Walk::InWait(_, WaitPlace::InQueuing(_, _)) => 60_401 + 200 * cells,
            Walk::InWait(_, _) => 60_601 + 400 * cells,
            Walk::InSignal(_, _, _) | Walk::InShow(_) => 401,
        }
    }
}
