// Names of a circuit, and parts that grow from its frame.

use std::alloc::Global;
use tm_bits::NoMemory;
use tm_circuit::{Circuit, Driver, Parts};
use tm_parts::{add_signal, frame, has_names_within, joiner, name_of};
use tm_trial::{TrialFault, circuit};

/// Whether the names of a circuit of the input `in++` alone are as counted.
fn has_names(alloc: Global) -> Result<bool, TrialFault> {
    let wire = circuit(alloc, "in++", "", "", "")?;
    let joiner = joiner(alloc, &wire, b'+')?;
    let are_short = has_names_within(&wire, 4) && !has_names_within(&wire, 3);
    Ok(are_short && joiner.as_slice() == b"+++".as_slice())
}

/// The parts of a circuit of the input `in`, in the frame of a circuit.
fn one_input(alloc: Global, circuit: &Circuit) -> Result<Parts, NoMemory> {
    let mut parts = frame(alloc, circuit, Vec::new(alloc))?;
    add_signal(&mut parts, name_of(alloc, b"in")?, Driver::Input)?;
    Ok(parts)
}

/// The number of signals of the circuit of these parts.
fn grown(alloc: Global) -> Result<u32, TrialFault> {
    let parts = one_input(alloc, &circuit(alloc, "a b", "", "", "0 1")?)?;
    Ok(Circuit::build(alloc, parts)?.signals())
}

#[test]
fn parts_grow_from_a_frame(rt: HostRuntime) {
    assert!(rt; has_names(rt.alloc()) == Ok(true));
    assert!(rt; grown(rt.alloc()) == Ok(1));
}
