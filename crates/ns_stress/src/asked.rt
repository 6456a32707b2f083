//! What the words of a run ask for.

/// What a run is asked for.
#[derive(Clone, Copy)]
pub struct Asked {
    /// What the draws begin with.
    pub seed: u64,
    /// How many rounds are made.
    pub rounds: u64,
}

/// What the words ask for, the first of which is the program's name; nothing where they are wrong.
pub fn parsed(words: &[String]) -> Option<Asked> {
    let [_, seed, rounds] = words else {
        return None;
    };
    Some(Asked {
        seed: seed.parse().ok()?,
        rounds: rounds.parse().ok()?,
    })
}
