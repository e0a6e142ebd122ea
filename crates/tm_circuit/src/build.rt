// How a circuit is made of its parts: numbered, tested, ordered.

ghost use Rattle.std.specs.Prelude.{◌≡◌, ◌↔◌, IsTrue, MatchResult, Err};
ghost use Rattle.tm_circuit.specs.Sound.{IsInRange, IsWellNamed};
ghost use Rattle.tm_circuit.specs.Draft.{plain_of_draft, IsLaidOut, IsLawful};
ghost use Rattle.tm_circuit.specs.Build.{circuit_of, IsBuilt};

use crate::circuit::{Circuit, CircuitFault};
use crate::depths::rank_all;
use crate::distinct::{are_distinct_names, are_distinct_signals};
use crate::draft::Draft;
use crate::extent::{greatest_of, widest_of};
use crate::lawful::{MOST_SIGNALS, are_in_range, are_names, is_maybe_clock_name, is_name};
use crate::parts::Parts;
use crate::sources::sources_of;
use std::alloc::Global;

/// The circuit of the parts, or the first refusal.
pub fn build(alloc: Global, parts: Parts) -> Result<Circuit, CircuitFault>
    ensures { IsBuilt (circuit_of parts) result }
{
    let draft = Draft::of(alloc, parts)?;
    check(alloc, &draft)?;
    finish(alloc, draft)
}

/// Whether pins, nexts, outputs and the clock are in range.
fn is_in_range(draft: &Draft) -> bool
    requires { IsLaidOut draft.now }
    ensures { IsTrue result ↔ IsInRange (plain_of_draft draft.now) }
{
    are_in_range(
        &draft.clock,
        draft.inputs,
        draft.latches,
        &draft.drivers,
        &draft.outputs,
    )
}

/// Whether all names are lawful.
fn is_well_named(draft: &Draft) -> bool
    ensures { IsTrue result ↔ IsWellNamed (plain_of_draft draft.now) }
{
    is_name(draft.model.bytes()) && are_names(&draft.names) && is_maybe_clock_name(&draft.clock)
}

/// The first fault of a draft that is no circle of gates.
fn check(alloc: Global, draft: &Draft) -> Result<(), CircuitFault>
    requires { IsLaidOut draft.now }
    ensures { MatchResult result (λ _. IsLawful (plain_of_draft draft.now)) (λ fault. IsBuilt (plain_of_draft draft.now) (Err fault)) }
{
    if draft.drivers.len() > MOST_SIGNALS {
        return Err(CircuitFault::TooMany);
    }
    if !is_in_range(draft) {
        return Err(CircuitFault::Range);
    }
    if !is_well_named(draft) {
        return Err(CircuitFault::BadName);
    }
    if !are_distinct_names(alloc, &draft.names, &draft.clock)? {
        return Err(CircuitFault::RepeatedName);
    }
    if !are_distinct_signals(alloc, &draft.outputs, draft.drivers.len())? {
        return Err(CircuitFault::RepeatedOutput);
    }
    Ok(())
}

/// The circuit of a draft without such a fault: ranks, an order and sources are worked out here, once.
fn finish(alloc: Global, draft: Draft) -> Result<Circuit, CircuitFault>
    requires laid_out { IsLaidOut draft }
    requires lawful { IsLawful (plain_of_draft draft) }
    ensures { IsBuilt (plain_of_draft draft) result }
{
    let Some(ranking) = rank_all(alloc, &draft.drivers)? else {
        return Err(CircuitFault::Loop);
    };
    let sources = sources_of(alloc, &draft.drivers)?;
    let period = greatest_of(&ranking.ranks);
    let widest = widest_of(&draft.drivers);
    Ok(Circuit::of(draft, widest, period, ranking, sources))
}
