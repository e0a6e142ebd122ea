// How deep instances go and how many they are, without following them one by one.

ghost use Rattle.std.specs.Prelude.{◌≡◌, ◌<◌, ℕ, map, length, slice_index, All, IfOk};
ghost use Rattle.blif_flat.specs.Graph.{IsGraph, IsOrder};
ghost use Rattle.blif_flat.specs.Extent.{levels_by, instances_by, IsDepth, IsCount};

use std::alloc::Global;
use tm_bits::NoMemory;

/// The most numbers in the path of an instance.
pub const MOST_LEVELS: u32 = 64;

/// The most that the instances, the bytes of all names and the places of all rows are in sum.
pub const MOST_SIZE: u64 = 67_108_864;

/// The most numbers in a path under a model that places these, where one more than the limit stands for all that are more.
fn levels(placed: &[usize], below: &[u32]) -> u32
    requires { All (λ m. m < length below.now) placed.now }
    ensures { result ≡ levels_by below.now placed.now }
{
    let mut levels: u32 = 0;
    for model in placed {
        levels = levels.max(below[*model].saturating_add(1).min(MOST_LEVELS + 1));
    }
    levels
}

/// The number of instances under a model that places these, where one more than the limit stands for all that are more.
fn instances(placed: &[usize], below: &[u64]) -> u64
    requires { All (λ m. m < length below.now) placed.now }
    ensures { result ≡ instances_by below.now placed.now }
{
    let mut instances: u64 = 0;
    for model in placed {
        instances = instances
            .saturating_add(below[*model].saturating_add(1))
            .min(MOST_SIZE + 1);
    }
    instances
}

/// The most numbers in a path under each model.
pub fn all_levels(
    alloc: Global,
    graph: &[Vec<usize>],
    order: &[usize],
) -> Result<Vec<u32>, NoMemory>
    requires graph { IsGraph (map (λ placed. placed.items) graph.now) }
    requires order { IsOrder (map (λ placed. placed.items) graph.now) order.now }
    ensures sized { IfOk result (λ all. length all.items ≡ length graph.now) }
    ensures levels { IfOk result
        (λ all. (m : ℕ) → m < length graph.now → IsDepth (map (λ placed. placed.items) graph.now) m (slice_index all.items m)) }
{
    let mut all = vec![in alloc; 0u32; graph.len()]?;
    for model in order {
        all[*model] = levels(&graph[*model], &all);
    }
    Ok(all)
}

/// The number of instances under each model.
pub fn all_instances(
    alloc: Global,
    graph: &[Vec<usize>],
    order: &[usize],
) -> Result<Vec<u64>, NoMemory>
    requires graph { IsGraph (map (λ placed. placed.items) graph.now) }
    requires order { IsOrder (map (λ placed. placed.items) graph.now) order.now }
    ensures sized { IfOk result (λ all. length all.items ≡ length graph.now) }
    ensures instances { IfOk result
        (λ all. (m : ℕ) → m < length graph.now → IsCount (map (λ placed. placed.items) graph.now) m (slice_index all.items m)) }
{
    let mut all = vec![in alloc; 0u64; graph.len()]?;
    for model in order {
        all[*model] = instances(&graph[*model], &all);
    }
    Ok(all)
}
