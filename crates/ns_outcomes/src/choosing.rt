//! Whose turn it is, by a number that was drawn.

ghost use Rattle.std.specs.Prelude.{◌≡◌, ◌<◌, IsSomeAnd};
ghost use Rattle.ns_outcomes.specs.Standings.{going, IsNth, IsPick};

use crate::standing::Standing;

/// How many threads can go on.
fn count_going(standings: &[Standing]) -> usize
    ensures { result ≡ going standings.now }
{
    standings
        .iter()
        .filter(|standing| standing.can_go())
        .count()
}

/// The thread that can go on and has so many others before it that can, if there are more.
fn nth_going(standings: &[Standing], nth: usize) -> Option<usize>
    requires { nth < going standings.now }
    ensures { IsSomeAnd result (IsNth standings.now nth) }
{
    let mut before = 0;
    for (thread, standing) in standings.iter().enumerate() {
        if standing.can_go() {
            if before == nth {
                return Some(thread);
            }
            before += 1;
        }
    }
    None
}

/// Whose turn it is by a number that was drawn: of those who can go on, in ascending order, the one at the place
/// that is the remainder of the number by how many they are. Nobody's, where nobody can.
///
/// So each that can go on has its turn for as many of the 2^32 numbers as any other, give or take one.
pub fn pick(standings: &[Standing], drawn: u32) -> Option<usize>
    ensures { IsPick standings.now drawn result }
{
    let going = count_going(standings);
    if going == 0 {
        return None;
    }
    nth_going(standings, drawn as usize % going)
}
