//! What a seat of the table knows.

use ns_env::view::EnvView;
use std::collections::LinkedList;

/// The seats that a seat of the table stands for: one, but for while seats are split or joined.
pub type View = LinkedList<EnvView>;
