// From the names of a model to the signals of a circuit.

ghost use Rattle.std.specs.Prelude.{◌≡◌, ◌≤◌, IfOk, IfErr};
ghost use Rattle.tm_circuit.specs.Build.{circuit_of};
ghost use Rattle.tm_circuit.specs.Sound.{IsSound};
ghost use Rattle.tm_circuit.specs.Chain.{HasCircle};
ghost use Rattle.blif_unit.specs.Unit.{model_of, IsOrderly};
ghost use Rattle.blif_circuit.specs.Circuit.{IsCircuitOfModel, IsFaultOfModel};
ghost use Rattle.blif_unit.specs.Fault.{OnText};
ghost use Rattle.blif_circuit.specs.Signals.{IsLaid};

use crate::clock::clock_name;
use crate::order::signal_names;
use crate::parts::parts_of;
use crate::uses::fault_in_names;
use blif_unit::{BlifFault, BlifKind, Limits, Unit};
use std::alloc::Global;
use tm_circuit::{Circuit, CircuitFault, Parts};

/// The circuit of the parts, unless gates read one another in a circle.
fn built(alloc: Global, parts: Parts) -> Result<Circuit, BlifFault>
    requires { IsLaid (circuit_of parts) }
    ensures circuit { IfOk result (λ c. (c ≡ circuit_of parts) × IsSound c) }
    ensures fault { IfErr result (λ e. OnText e (λ f. (f ≡ (0, BlifKind.Loop)) × HasCircle (circuit_of parts).drives)) }
{
    match Circuit::build(alloc, parts) {
        Ok(circuit) => Ok(circuit),
        Err(CircuitFault::Loop) => Err(BlifFault::Text {
            line: 0,
            kind: BlifKind::Loop,
        }),
        Err(CircuitFault::NoMemory) => Err(BlifFault::NoMemory),
        Err(_) => unreachable!(),
    }
}

/// The circuit that the statements of a model spell, or their first fault as a whole.
pub fn circuit_of(alloc: Global, unit: &Unit, limits: &Limits) -> Result<Circuit, BlifFault>
    requires signals { limits.now.signals ≤ 900000 }
    requires orderly { IsOrderly (model_of unit.now) }
    ensures circuit { IfOk result (λ c. IsCircuitOfModel limits.now.signals (model_of unit.now) c) }
    ensures fault { IfErr result (λ e. OnText e (IsFaultOfModel limits.now.signals (model_of unit.now))) }
{
    let body = unit.body.as_slice();
    let clock = clock_name(body);
    let signals = signal_names(alloc, body, clock)?;
    if let Some((line, kind)) = fault_in_names(body, clock, &signals, limits.signals) {
        return Err(BlifFault::Text { line, kind });
    }
    let parts = parts_of(alloc, unit, clock, &signals)?;
    built(alloc, parts)
}
