//! The handles of a monitor, as a program begins with them.

ghost use Rattle.std.specs.Prelude.{◌≡◌, ◌↔◌, ◌<◌, ◌++◌, [], ◌∷◌, All, IfSome, IsSome, None, length, option_to_list};

use crate::caller::Seat;
use crate::handle::{Acting, Handle};
use crate::monitor::Monitor;
use ns_model::condition::Condition;
use std::marker::Model;

/// The seats of a monitor that no handle has yet, and the monitor, which it borrows.
///
/// For contracts it is what these seats are, in order.
#[derive(Drop)]
pub struct Handles<'m, C: Condition<N>, const N: usize> {
    monitor: &'m Monitor<C, N>,
    seats: Vec<Seat<C, N>>,
}

impl<'m, C: Condition<N>, const N: usize> Model for Handles<'m, C, N> {
    ghost use Rattle.std.specs.Prelude.{◌≡◌, All, List};
    ghost use Rattle.ns_monitor.specs.Known.{Known};

    ghost Value = { List (Known C N) };

    ghost view = { λ h. h.seats.items };

    ghost invariant = { λ h. All (λ seat. seat.monitor ≡ h.monitor.now) h.seats.items };
}

impl<C: Condition<N>, const N: usize> Monitor<C, N> {
    /// Handles with these seats, which threads take by [`Handles::next`] or [`Handles::pair`]. It takes no memory.
    ///
    /// Needs seats of this monitor, as [`Monitor::new`] gives them.
    pub fn handles(&self, seats: Vec<Seat<C, N>>) -> Handles<'_, C, N>
        requires { All (λ seat. seat.monitor ≡ self.now) seats.items }
        ensures { result ≡ seats.items }
    {
        Handles {
            monitor: self,
            seats,
        }
    }
}

impl<'m, C: Condition<N>, const N: usize> Handles<'m, C, N> {
    /// A handle with the last of these seats, or none where no seat is left.
    pub fn next(&mut self) -> Option<Handle<'m, C, N>>
        ensures taken { self.old ≡ self.new ++ option_to_list result }
        ensures some { IsSome result ↔ (0 < length self.old) }
    {
        let seat = self.seats.pop()?;
        Some(Acting {
            monitor: self.monitor,
            caller: seat,
        })
    }

    /// Handles with the last two of these seats, for two threads, or none where fewer are left.
    pub fn pair(&mut self) -> Option<(Handle<'m, C, N>, Handle<'m, C, N>)>
        ensures taken { IfSome result (λ pair. self.old ≡ self.new ++ pair.1 ∷ pair.0 ∷ []) }
        ensures none { result ≡ None → (length self.old < 2) × (self.new ≡ self.old) }
    {
        if self.seats.len() < 2 {
            return None;
        }
        self.next().zip(self.next())
    }
}
