//! What the words of a run ask for.

/// What a run is asked for.
#[derive(Drop)]
pub struct Asked<'a> {
    /// The name of the workload.
    pub workload: &'a str,
    /// How many threads make the operations.
    pub threads: u64,
    /// How many operations each of them makes.
    pub operations: u64,
}

/// What the words ask for, the first of which is the program's name; nothing where they are wrong.
pub fn parsed(words: &[String]) -> Option<Asked<'_>> {
    let [_, workload, threads, operations] = words else {
        return None;
    };
    Some(Asked {
        workload: workload.as_str(),
        threads: threads.parse().ok()?,
        operations: operations.parse().ok()?,
    })
}
