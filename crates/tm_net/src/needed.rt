// Which registers a mapped circuit needs. The needed registers of a signal stand side by side, up to its table's lag for a gate and
// at advance 0 for a latch. So two numbers for each signal tell them: where they end, and the least advance, which falls to each
// needed node.

ghost use Rattle.std.specs.Prelude.{◌≡◌, ℕ, ◌<◌, length, map, All, IfOk, [], ◌∷◌};
ghost use Rattle.tm_circuit.specs.Plain.{drive_of};
ghost use Rattle.tm_circuit.specs.Sound.{IsSound};
ghost use Rattle.tm_unroll.specs.Nodes.{node_at};
ghost use Rattle.tm_unroll.specs.Depths.{tables_in};
ghost use Rattle.tm_net.specs.Registers.{IsSmallMapping, IsEnd, AreEnds, AreLows, Lowers, AreLeast};

use std::alloc::Global;
use tm_bits::NoMemory;
use tm_circuit::{Circuit, Driver, Signal};
use tm_unroll::{Lut, Node};

/// Where the registers of a signal without a table end.
fn end_without_table(driver: &Driver) -> u8
    ensures { (s : ℕ) → IsEnd (drive_of driver.now) [] s result }
{
    match driver {
        Driver::Latch { .. } => 1,
        Driver::Input | Driver::Gate { .. } => 0,
    }
}

/// For each signal the advance before which its registers end, where there are no tables.
fn ends_without_tables(alloc: Global, circuit: &Circuit) -> Result<Vec<u8>, NoMemory>
    ensures { IfOk result (λ ends. AreEnds circuit.now [] ends.items) }
{
    let mut ends = Vec::new(alloc);
    for s in 0..circuit.signals() {
        ends.push(end_without_table(circuit.driver(Signal(s))))?;
    }
    Ok(ends)
}

/// For each signal the advance before which its registers end.
pub fn register_ends(alloc: Global, circuit: &Circuit, luts: &[Lut]) -> Result<Vec<u8>, NoMemory>
    requires { IsSmallMapping circuit.now (tables_in luts.now) }
    ensures { IfOk result (λ ends. AreEnds circuit.now (tables_in luts.now) ends.items) }
{
    let mut ends = ends_without_tables(alloc, circuit)?;
    for lut in luts {
        ends[lut.gate.0 as usize] = lut.lag;
    }
    Ok(ends)
}

/// Lets the least advance of a needed node's signal fall to the node, and goes on behind latches.
fn need(circuit: &Circuit, lows: &mut [u8], node: Node)
    requires sound { IsSound circuit.now }
    requires lows { AreLows circuit.now lows.old }
    requires signal { node.signal < length circuit.now.drives }
    ensures lows { AreLows circuit.now lows.new }
    ensures lowers { Lowers circuit.now (node ∷ []) lows.old lows.new }
{
    let mut node = node;
    while node.advance < lows[node.signal.0 as usize] {
        lows[node.signal.0 as usize] = node.advance;
        let Driver::Latch { next, .. } = circuit.driver(node.signal) else {
            return;
        };
        node = Node {
            signal: *next,
            advance: 0,
        };
    }
}

/// The same for each output.
fn need_outputs(circuit: &Circuit, lows: &mut [u8])
    requires sound { IsSound circuit.now }
    requires lows { AreLows circuit.now lows.old }
    ensures lows { AreLows circuit.now lows.new }
    ensures lowers { Lowers circuit.now (map (λ s. node_at 0 s) circuit.now.outputs) lows.old lows.new }
{
    for output in circuit.outputs() {
        let node = Node {
            signal: *output,
            advance: 0,
        };
        need(circuit, lows, node);
    }
}

/// The same for each leaf of a table.
fn need_leaves(circuit: &Circuit, lows: &mut [u8], leaves: &[Node])
    requires sound { IsSound circuit.now }
    requires lows { AreLows circuit.now lows.old }
    requires signals { All (λ x. x.signal < length circuit.now.drives) leaves.now }
    ensures lows { AreLows circuit.now lows.new }
    ensures lowers { Lowers circuit.now leaves.now lows.old lows.new }
{
    for leaf in leaves {
        need(circuit, lows, *leaf);
    }
}

/// For each signal the least advance at which it has a register, where registers end at `ends`. Takes time in proportion to the
/// circuit and the mapping: each latch is gone behind at most once.
pub fn least_advances(
    alloc: Global,
    circuit: &Circuit,
    luts: &[Lut],
    ends: &[u8],
) -> Result<Vec<u8>, NoMemory>
    requires mapping { IsSmallMapping circuit.now (tables_in luts.now) }
    requires ends { AreEnds circuit.now (tables_in luts.now) ends.now }
    ensures { IfOk result (λ lows. AreLeast circuit.now (tables_in luts.now) ends.now lows.items) }
{
    let _sound = circuit.signals();
    let mut lows = Vec::from_slice(alloc, ends)?;
    need_outputs(circuit, &mut lows);
    for lut in luts {
        need_leaves(circuit, &mut lows, lut.leaves.as_slice());
    }
    Ok(lows)
}
