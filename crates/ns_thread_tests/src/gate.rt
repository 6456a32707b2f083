//! A gate, from outside: it is made, its seats are taken out, and it is refused.

ghost use Rattle.std.specs.Prelude.{◌<◌};

use ns_fixtures::AtLeast;
use ns_gate::gate::Gate;
use ns_seats::fault::Fault;
use std::alloc::Global;

/// Makes a gate and takes its first seat out; or why none is made.
fn gate_of(alloc: Global, seats: usize) -> Result<(), Fault>
    requires { 0 < seats }
{
    let (gate, mut all) = Gate::<AtLeast, 2>::new(alloc, seats)?;
    gate.part(&mut all);
    Ok(())
}

/// A gate of as many seats as there may be is made; one seat more is refused before any memory is asked for.
#[test]
fn too_many_seats(rt: HostRuntime) {
    let made = [gate_of(rt.alloc(), 64), gate_of(rt.alloc(), 65)];
    assert_eq!(rt; made, [Ok(()), Err(Fault::TooManySeats)]);
}

/// With each allocation refused in turn no gate is made, for that reason.
#[test]
fn refused_memory(rt: HostRuntime) {
    let made = gate_of(rt.alloc(), 3);
    assert!(rt; matches!(made, Ok(()) | Err(Fault::OutOfMemory)));
}
