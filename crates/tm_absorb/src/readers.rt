// Who looks at a gate: the gates of the tables that have a leaf with the gate as its source.

ghost use Rattle.std.specs.Prelude.{◌≡◌, ◌<◌, true, length, map, slice_set, All, IfOk, OnOk, Contains};
ghost use Rattle.tm_circuit.specs.Plain.{Plain};
ghost use Rattle.tm_circuit.specs.Source.{IsSource};
ghost use Rattle.tm_circuit.specs.declared.sources.Source.TheVariants.{Gate};
ghost use Rattle.tm_unroll.specs.declared.node.Node.{Node as NodeValue};
ghost use Rattle.tm_unroll.specs.declared.node.Lut.{Lut as LutValue};
ghost use Rattle.tm_absorb.specs.Slots.{row_in, AddsReaders, IsReader, HasSources, AreOutputMarks};

use smallvec::SmallVec;
use std::alloc::Global;
use tm_bits::NoMemory;
use tm_circuit::{Circuit, Signal, Source};
use tm_unroll::{Lut, Node};

/// The readers of each gate, by the signals.
pub(crate) fn readers_of(
    alloc: Global,
    circuit: &Circuit,
    luts: &[Lut],
) -> Result<Vec<Vec<Signal>>, NoMemory>
    requires { All (λ lut. All (λ x. x.signal < length circuit.now.drives) lut.leaves.items) luts.now }
    ensures sized { IfOk result (λ readers. length readers.items ≡ length circuit.now.drives) }
    ensures all { IfOk result (λ readers. (lut : LutValue) → Contains luts.now lut
        → IsReader circuit.now.drives lut.gate lut.leaves.items (map (λ list. list.items) readers.items)) }
{
    let mut readers = empty_lists(alloc, circuit.signals() as usize)?;
    for lut in luts {
        add_reader(
            alloc,
            circuit,
            &mut readers,
            lut.gate,
            lut.leaves.as_slice(),
        )?;
    }
    Ok(readers)
}

/// So many empty lists.
fn empty_lists(alloc: Global, count: usize) -> Result<Vec<Vec<Signal>>, NoMemory>
    ensures { IfOk result (λ lists. length lists.items ≡ count) }
{
    let mut lists = Vec::with_capacity(alloc, count)?;
    while lists.len() < count {
        lists.push(Vec::new(alloc))?;
    }
    Ok(lists)
}

/// Makes a gate a reader of the gates that are the sources of some leaves.
pub(crate) fn add_reader(
    alloc: Global,
    circuit: &Circuit,
    readers: &mut [Vec<Signal>],
    gate: Signal,
    leaves: &[Node],
) -> Result<(), NoMemory>
    requires sized { length readers.old ≡ length circuit.now.drives }
    requires within { All (λ x. x.signal < length circuit.now.drives) leaves.now }
    ensures adds { AddsReaders (map (λ list. list.items) readers.old) (map (λ list. list.items) readers.new) }
    ensures reads { OnOk result (IsReader circuit.now.drives gate leaves.now (map (λ list. list.items) readers.new)) }
{
    let sources = sources_of(alloc, circuit, leaves)?;
    let gates = sources.as_slice();
    for source in gates {
        add(readers, *source, gate)?;
    }
    Ok(())
}

/// The gates that are the sources of some leaves.
pub(crate) fn sources_of(
    alloc: Global,
    circuit: &Circuit,
    leaves: &[Node],
) -> Result<SmallVec<Signal, 8>, NoMemory>
    requires { All (λ x. x.signal < length circuit.now.drives) leaves.now }
    ensures { IfOk result (λ gates. HasSources circuit.now.drives leaves.now gates.items) }
{
    let mut gates = SmallVec::new(alloc);
    for leaf in leaves {
        if let Source::Gate(gate) = circuit.source(leaf.signal) {
            gates.push(gate)?;
        }
    }
    Ok(gates)
}

/// Adds a reader to those of a gate.
fn add(readers: &mut [Vec<Signal>], gate: Signal, reader: Signal) -> Result<(), NoMemory>
    requires { gate < length readers.old }
    ensures adds { AddsReaders (map (λ list. list.items) readers.old) (map (λ list. list.items) readers.new) }
    ensures reads { OnOk result (Contains (row_in (map (λ list. list.items) readers.new) gate) reader) }
{
    let list = &mut readers[gate.0 as usize];
    list.push(reader)?;
    Ok(())
}

/// Marks the gates that are the source of an output, by the signals.
pub(crate) fn output_marks(alloc: Global, circuit: &Circuit) -> Result<Vec<bool>, NoMemory>
    ensures sized { IfOk result (λ marks. length marks.items ≡ length circuit.now.drives) }
    ensures marks { IfOk result (λ marks. AreOutputMarks circuit.now marks.items) }
{
    let mut marks = vec![in alloc; false; circuit.signals() as usize]?;
    let _sound = circuit.signals();
    for output in circuit.outputs() {
        if let Source::Gate(gate) = circuit.source(*output) {
            mark(&mut marks, gate);
        }
    }
    Ok(marks)
}

/// Marks a gate.
fn mark(marks: &mut Vec<bool>, gate: Signal)
    requires { gate < length marks.old.items }
    ensures { marks.new.items ≡ slice_set marks.old.items gate true }
{
    marks[gate.0 as usize] = true;
}
