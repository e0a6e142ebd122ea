// Walks that are known before a search: those of the last drop of the same gate at the same lag.

ghost use Rattle.std.specs.Prelude.{◌≡◌, map, IfOk};
ghost use Rattle.tm_flow.specs.Lists.{lists_in};
ghost use Rattle.tm_replay.specs.Replays.{drop_of};
ghost use Rattle.tm_labels.specs.Steps.{AreKnown};

use crate::lasts::Lasts;
use std::alloc::Global;
use tm_bits::NoMemory;
use tm_replay::Lowering;
use tm_unroll::Node;

/// The most indices of a walk that a search starts from. Walks that are taken over grow by an index with each gate, and a search from
/// nothing finds short ones again: in a tower of gates their lengths would else add up to its depth squared.
const MOST_KEPT: usize = 32;

/// The walks of the last drop of a gate at a lag, none where there is no such drop or where one of them is long.
pub fn known_walks(
    alloc: Global,
    drops: &[Lowering],
    lasts: &Lasts,
    gate_at_lag: Node,
) -> Result<Vec<Vec<u32>>, NoMemory>
    ensures { IfOk result (λ walks. AreKnown (map drop_of drops.now) gate_at_lag (lists_in walks.items)) }
{
    let Some(drop) = lasts.last(drops, gate_at_lag) else {
        return Ok(Vec::new(alloc));
    };
    // What stands in the table is a hint.
    if drop.gate != gate_at_lag.signal || drop.lag != gate_at_lag.advance {
        return Ok(Vec::new(alloc));
    }
    if !are_short(&drop.walks) {
        return Ok(Vec::new(alloc));
    }
    Ok(index_lists(alloc, &drop.walks)?)
}

/// Whether no walk is too long to start from.
fn are_short(walks: &[Vec<u8>]) -> bool {
    for walk in walks {
        if walk.len() > MOST_KEPT {
            return false;
        }
    }
    true
}

/// Walks as lists of indices.
fn index_lists(alloc: Global, walks: &[Vec<u8>]) -> Result<Vec<Vec<u32>>, NoMemory>
    ensures { IfOk result (λ lists. lists_in lists.items ≡ lists_in walks.now) }
{
    let mut lists = Vec::with_capacity(alloc, walks.len())?;
    for walk in walks {
        lists.push(indices(alloc, walk)?)?;
    }
    Ok(lists)
}

/// A walk as a list of indices.
fn indices(alloc: Global, walk: &[u8]) -> Result<Vec<u32>, NoMemory>
    ensures { IfOk result (λ list. list.items ≡ walk.now) }
{
    let mut list = Vec::with_capacity(alloc, walk.len())?;
    for digit in walk {
        list.push(u32::from(*digit))?;
    }
    Ok(list)
}
