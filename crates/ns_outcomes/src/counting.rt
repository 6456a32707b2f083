//! The runs of some seeds, and the distinct outcomes of them.

ghost use Rattle.std.specs.Prelude.{IfOk, IfErr};
ghost use Rattle.ns_replay.specs.Runnable.{IsRunnable};
ghost use Rattle.ns_replay.specs.Script.{plan_of};
ghost use Rattle.ns_outcomes.specs.Tallies.{HasMade, IsCountFault};

use crate::outcome::run_seed;
use crate::seeds::Seeds;
use crate::tallying::{Counts, Found};
use crate::watch::Watch;
use ns_replay::{Fault, Script};
use std::alloc::Global;

/// What the runs came to.
#[derive(Drop)]
pub struct Counted {
    /// The distinct outcomes, the most frequent first, and of equals the one with the lower first seed.
    pub found: Vec<Found>,
    /// How many turns all runs have.
    pub turns: u64,
}

/// Runs the script once for each seed, and counts the outcomes.
pub fn count_outcomes<P: Watch>(
    alloc: Global,
    script: &Script,
    seeds: Seeds,
    watch: &mut P,
) -> Result<Counted, Fault>
    requires { IsRunnable (plan_of script.now) }
    ensures ok { IfOk result (λ counted. HasMade seeds (plan_of script.now) counted.found.items counted.turns) }
    ensures err { IfErr result (IsCountFault seeds (plan_of script.now) (P.last watch.new)) }
{
    let mut counts = Counts::new(alloc);
    let mut turns = 0u64;
    for number in 0..seeds.count {
        let seed = seeds.from.wrapping_add(u64::from(number));
        watch.begins(seed);
        let run = run_seed(alloc, script, seed, seeds.limit)?;
        turns += u64::from(run.turns);
        counts.count(run.text, seed)?;
    }
    let found = counts.found(alloc)?;
    Ok(Counted { found, turns })
}
