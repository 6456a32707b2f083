//! A monitor of one cell, at which nobody waits for a condition.

use ns_fixtures::Never;
use ns_monitor::{Handle, Monitor};

/// A monitor of one cell.
pub type OneCell = Monitor<Never, 1>;

/// A handle on it.
pub type OneHandle<'m> = Handle<'m, Never, 1>;
