// The parts of a mapped circuit: its clock, inputs, registers, tables and outputs.

ghost use Rattle.std.specs.Prelude.{◌≡◌, ◌++◌, ◌<◌, ◌≤◌, length, map, All, IfOk, OnOk};
ghost use Rattle.std.specs.List.{range_with_len, AllZip};
ghost use Rattle.tm_circuit.specs.Plain.{drive, input_count};
ghost use Rattle.tm_circuit.specs.Chain.{IsGate};
ghost use Rattle.tm_circuit.specs.Sound.{IsSound};
ghost use Rattle.tm_parts.specs.Fits.{plus};
ghost use Rattle.tm_parts.specs.Runs.{joiner_of};
ghost use Rattle.tm_unroll.specs.Nodes.{node_at};
ghost use Rattle.tm_unroll.specs.Mappings.{table_of as plain_table};
ghost use Rattle.tm_unroll.specs.Depths.{tables_in};
ghost use Rattle.tm_mapped.specs.Mapped.{node_name as name_at, idle_clock as clock_without_edge, clock_for};
ghost use Rattle.tm_net.specs.Registers.{registers_at};
ghost use Rattle.tm_net.specs.Layouts.{registers_of, number_in, HasRoom, IsNumbered};
ghost use Rattle.tm_net.specs.Making.{IsPlan, IsRegisterIn, behind as node_behind, first_bit as bit_first, register_part, IsTableIn, IsGatePart};

use crate::layout::Layout;
use crate::plan::Plan;
use smallvec::SmallVec;
use std::alloc::Global;
use tm_bits::NoMemory;
use tm_circuit::{Circuit, Clock, Driver, GatePart, LatchPart, Name, Signal};
use tm_cone::table_of;
use tm_init::Starts;
use tm_unroll::{Lut, Node};

/// The clock where no latch is left: it has no edge, and stays only where it was declared or had a place.
fn idle_clock(alloc: Global, clock: &Clock) -> Result<Option<Clock>, NoMemory>
    ensures { IfOk result (λ idle. idle ≡ clock_without_edge clock.now) }
{
    if !clock.declared && clock.place.is_none() {
        return Ok(None);
    }
    Ok(Some(Clock {
        name: clock.name.try_clone(alloc)?,
        edge: None,
        declared: true,
        place: clock.place,
    }))
}

/// The clock of a mapped circuit with so many registers.
pub fn clock(alloc: Global, circuit: &Circuit, registers: usize) -> Result<Option<Clock>, NoMemory>
    ensures { IfOk result (λ clock. clock ≡ clock_for registers circuit.now.clock) }
{
    match circuit.clock() {
        Some(clock) => {
            if registers == 0 {
                idle_clock(alloc, clock)
            } else {
                Ok(Some(clock.try_clone(alloc)?))
            }
        }
        None => Ok(None),
    }
}

/// The names of the inputs.
pub fn inputs(alloc: Global, circuit: &Circuit) -> Result<Vec<Name>, NoMemory>
    ensures { IfOk result (λ names.
        names.items ≡ map (λ s. name_at circuit.now (node_at 0 s)) (range_with_len 0 (input_count circuit.now.drives))) }
{
    let mut names = Vec::new(alloc);
    for s in 0..circuit.inputs() {
        names.push(circuit.name(Signal(s)).try_clone(alloc)?)?;
    }
    Ok(names)
}

/// The name of a node: its signal's, and further ahead that, the joiner and the advance, which is one digit.
fn node_name(alloc: Global, circuit: &Circuit, joiner: &[u8], node: &Node) -> Result<Name, NoMemory>
    requires signal { node.now.signal < length circuit.now.drives }
    requires near { node.now.advance < 10 }
    requires joiner { joiner.now ≡ joiner_of plus circuit.now }
    ensures { IfOk result (λ name. name ≡ name_at circuit.now node.now) }
{
    let own = circuit.name(node.signal);
    if node.advance == 0 {
        return own.try_clone(alloc);
    }
    let mut bytes = Vec::from_slice(alloc, own.bytes())?;
    bytes.extend_from_slice(joiner)?;
    bytes.push(b'0' + node.advance)?;
    Ok(Name::new(bytes))
}

/// What the register of a node stands behind: that of a latch behind the latch's next, that of a gate behind the gate one step further
/// ahead.
fn behind(circuit: &Circuit, node: &Node) -> Node
    requires signal { node.now.signal < length circuit.now.drives }
    requires near { node.now.advance < 8 }
    ensures { result ≡ node_behind (drive circuit.now node.now.signal) node.now }
{
    match circuit.driver(node.signal) {
        Driver::Input => *node,
        Driver::Latch { next, .. } => Node {
            signal: *next,
            advance: 0,
        },
        Driver::Gate { .. } => Node {
            signal: node.signal,
            advance: node.advance + 1,
        },
    }
}

/// The initial value of the register of a node: that of the latch, or the gate's bit at the step of its advance.
fn first_bit(circuit: &Circuit, starts: &Starts, node: &Node) -> bool
    requires signal { node.now.signal < length circuit.now.drives }
    requires starts { length starts.now.bytes ≡ length circuit.now.drives }
    requires step { IsGate circuit.now.drives node.now.signal → node.now.advance < starts.now.steps }
    ensures { result ≡ bit_first (drive circuit.now node.now.signal) starts.now node.now }
{
    match circuit.driver(node.signal) {
        Driver::Input => false,
        Driver::Latch { init, .. } => *init,
        Driver::Gate { .. } => starts.value(node.signal, node.advance),
    }
}

/// The register of a node.
fn register(
    alloc: Global,
    circuit: &Circuit,
    plan: &Plan,
    node: &Node,
) -> Result<LatchPart, NoMemory>
    requires sound { IsSound circuit.now }
    requires plan { IsPlan circuit.now plan.now }
    requires register { IsRegisterIn plan.now.layout node.now }
    ensures { IfOk result (λ part. part ≡ register_part circuit.now plan.now.layout plan.now.starts node.now) }
{
    let next = plan.layout.number(behind(circuit, node));
    let init = first_bit(circuit, &plan.starts, node);
    let name = node_name(alloc, circuit, &plan.joiner, node)?;
    Ok(LatchPart { name, next, init })
}

/// Adds the registers of a signal, by advance.
fn add_registers(
    alloc: Global,
    circuit: &Circuit,
    plan: &Plan,
    signal: Signal,
    latches: &mut Vec<LatchPart>,
) -> Result<(), NoMemory>
    requires sound { IsSound circuit.now }
    requires plan { IsPlan circuit.now plan.now }
    requires signal { signal < length circuit.now.drives }
    ensures { OnOk result (latches.new.items ≡ latches.old.items
        ++ map (register_part circuit.now plan.now.layout plan.now.starts)
        (registers_at plan.now.layout.lows.items plan.now.layout.ends.items signal)) }
{
    let low = plan.layout.lows[signal.0 as usize];
    let end = plan.layout.ends[signal.0 as usize];
    for advance in low..end {
        let node = Node { signal, advance };
        latches.push(register(alloc, circuit, plan, &node)?)?;
    }
    Ok(())
}

/// The registers, by signal and then by advance.
pub fn registers(alloc: Global, circuit: &Circuit, plan: &Plan) -> Result<Vec<LatchPart>, NoMemory>
    requires { IsPlan circuit.now plan.now }
    ensures { IfOk result (λ latches. latches.items
        ≡ map (register_part circuit.now plan.now.layout plan.now.starts) (registers_of circuit.now plan.now.layout)) }
{
    let mut latches = Vec::new(alloc);
    for s in 0..circuit.signals() {
        add_registers(alloc, circuit, plan, Signal(s), &mut latches)?;
    }
    Ok(latches)
}

/// The numbers of the leaves of a table, in their order.
fn pins(alloc: Global, layout: &Layout, leaves: &[Node]) -> Result<SmallVec<Signal, 8>, NoMemory>
    requires room { HasRoom layout.now }
    requires leaves { All (IsNumbered layout.now) leaves.now }
    ensures { IfOk result (λ pins. pins.items ≡ map (number_in layout.now) leaves.now) }
{
    let mut pins = SmallVec::new(alloc);
    for leaf in leaves {
        pins.push(layout.number(*leaf))?;
    }
    Ok(pins)
}

/// The gate of a table.
fn gate(alloc: Global, circuit: &Circuit, plan: &Plan, lut: &Lut) -> Result<GatePart, NoMemory>
    requires plan { IsPlan circuit.now plan.now }
    requires table { IsTableIn circuit.now plan.now.layout (plain_table lut.now) }
    ensures { IfOk result (IsGatePart circuit.now plan.now.layout (plain_table lut.now)) }
{
    let root = Node {
        signal: lut.gate,
        advance: lut.lag,
    };
    let name = node_name(alloc, circuit, &plan.joiner, &root)?;
    let pins = pins(alloc, &plan.layout, lut.leaves.as_slice())?;
    let cover = table_of(alloc, circuit, lut)?.cover(alloc)?;
    Ok(GatePart { name, pins, cover })
}

/// The gates of the tables, in their order.
pub fn gates(
    alloc: Global,
    circuit: &Circuit,
    plan: &Plan,
    luts: &[Lut],
) -> Result<Vec<GatePart>, NoMemory>
    requires plan { IsPlan circuit.now plan.now }
    requires tables { All (IsTableIn circuit.now plan.now.layout) (tables_in luts.now) }
    ensures { IfOk result (λ gates. AllZip (IsGatePart circuit.now plan.now.layout) (tables_in luts.now) gates.items) }
{
    let mut gates = Vec::new(alloc);
    for lut in luts {
        gates.push(gate(alloc, circuit, plan, lut)?)?;
    }
    Ok(gates)
}

/// The numbers of the outputs, in their order.
pub fn outputs(alloc: Global, circuit: &Circuit, layout: &Layout) -> Result<Vec<Signal>, NoMemory>
    requires room { HasRoom layout.now }
    requires outputs { All (λ s. IsNumbered layout.now (node_at 0 s)) circuit.now.outputs }
    ensures { IfOk result (λ numbers. numbers.items ≡ map (λ s. number_in layout.now (node_at 0 s)) circuit.now.outputs) }
{
    let mut numbers = Vec::new(alloc);
    for output in circuit.outputs() {
        let node = Node {
            signal: *output,
            advance: 0,
        };
        numbers.push(layout.number(node))?;
    }
    Ok(numbers)
}
