// A mapping from which tables go one by one.

ghost use Rattle.std.specs.Prelude.{◌≡◌, ◌<◌, length, All, IfOk, OnOk, MatchBool};
ghost use Rattle.tm_unroll.specs.Mappings.{table_of, tables_of, IsLawful};
ghost use Rattle.tm_absorb.specs.Slots.{present, CanGoAt, AreAwaited, HasRoomAt, HadTurn, AreWithin, IsNext, IsNextAt, IsState, KeepsTables, HasAbsorbed};

use crate::admits::{refuser_from, taken_in};
use crate::queue::{enqueue, gates_of};
use crate::readers::{add_reader, output_marks, readers_of};
use crate::slots::{luts_of, slots_of, table_in};
use std::alloc::Global;
use std::collections::BTreeSet;
use std::mem;
use tm_bits::NoMemory;
use tm_circuit::{Circuit, Signal};
use tm_unroll::{Lut, Mapping};

/// A mapping under way, by the signals.
#[derive(Drop)]
pub(crate) struct UnderWay {
    /// The table of each gate that has one.
    slots: Vec<Option<Lut>>,
    /// The gates of the tables with a leaf that has the gate as its source, and of some that had one.
    readers: Vec<Vec<Signal>>,
    /// Whether the gate is the source of an output.
    outputs: Vec<bool>,
    /// The place of the reader that refused the gate's table last, which is asked first.
    refusers: Vec<usize>,
    /// The gates whose tables may have become absorbable.
    queue: BTreeSet<u32>,
}

impl UnderWay {
    /// The tables of a lawful mapping, all of which wait.
    pub fn new(
        alloc: Global,
        circuit: &Circuit,
        k: u8,
        d: u8,
        mapping: &Mapping,
    ) -> Result<UnderWay, NoMemory>
        requires { IsLawful circuit.now k d (tables_of mapping.now) }
        ensures state { IfOk result (IsState circuit.now k d) }
        ensures present { IfOk result (λ w. present w.slots.items ≡ tables_of mapping.now) }
        ensures awaited { IfOk result (λ w. AreAwaited circuit.now k w.slots.items w.queue.keys) }
    {
        // Only the contract speaks of the limits.
        let _ = (k, d);
        let signals = circuit.signals() as usize;
        Ok(UnderWay {
            slots: slots_of(alloc, signals, &mapping.luts)?,
            readers: readers_of(alloc, circuit, &mapping.luts)?,
            outputs: output_marks(alloc, circuit)?,
            refusers: vec![in alloc; 0; signals]?,
            queue: gates_of(alloc, &mapping.luts)?,
        })
    }

    /// The gate of the first table that can be absorbed.
    pub fn next(
        &mut self,
        alloc: Global,
        circuit: &Circuit,
        k: u8,
        d: u8,
    ) -> Result<Option<Signal>, NoMemory>
        requires state { IsState circuit.now k d self.old }
        requires awaited { AreAwaited circuit.now k self.old.slots.items self.old.queue.keys }
        ensures keeps { KeepsTables self.old self.new }
        ensures next { IfOk result (IsNext circuit.now k self.new.slots.items self.new.queue.keys) }
    {
        while let Some(gate) = self.queue.pop_first() {
            let gate = Signal(gate);
            if self.can_go(alloc, circuit, k, d, gate)? {
                return Ok(Some(gate));
            }
        }
        Ok(None)
    }

    /// Whether the table of a gate can be absorbed.
    fn can_go(
        &mut self,
        alloc: Global,
        circuit: &Circuit,
        k: u8,
        d: u8,
        gate: Signal,
    ) -> Result<bool, NoMemory>
        requires { IsState circuit.now k d self.old }
        ensures keeps { KeepsTables self.old self.new }
        ensures queue { self.new.queue ≡ self.old.queue }
        ensures goes { IfOk result (λ yes. MatchBool yes (CanGoAt circuit.now k self.old.slots.items gate)
            (CanGoAt circuit.now k self.old.slots.items gate → ⊥)) }
    {
        // Only the contract speaks of the lags.
        let _ = d;
        let Some(table) = table_in(&self.slots, gate) else {
            return Ok(false);
        };
        let at = gate.0 as usize;
        if self.outputs[at] {
            return Ok(false);
        }
        let (readers, place) = (&self.readers[at], self.refusers[at]);
        match refuser_from(alloc, circuit, k, &self.slots, table, readers, place)? {
            Some(refuser) => {
                self.refusers[at] = refuser;
                Ok(false)
            }
            None => Ok(true),
        }
    }

    /// Absorbs the table of a gate.
    pub fn absorb(
        &mut self,
        alloc: Global,
        circuit: &Circuit,
        k: u8,
        d: u8,
        gate: Signal,
    ) -> Result<(), NoMemory>
        requires state { IsState circuit.now k d self.old }
        requires next { IsNextAt circuit.now k self.old.slots.items self.old.queue.keys gate }
        ensures { OnOk result (HasAbsorbed circuit.now k d gate self.old self.new) }
    {
        // Only the contract speaks of the lags.
        let _ = d;
        let _sound = circuit.signals();
        let at = gate.0 as usize;
        let Some(table) = mem::replace(&mut self.slots[at], None) else {
            unreachable!()
        };
        let readers = Vec::from_slice(alloc, &self.readers[at])?;
        for reader in &readers {
            self.take_in(alloc, circuit, k, &table, *reader)?;
        }
        enqueue(alloc, circuit, &mut self.queue, &table)?;
        Ok(())
    }

    /// Lets the table in the slot of a reader take in another one, where it reads it.
    fn take_in(
        &mut self,
        alloc: Global,
        circuit: &Circuit,
        k: u8,
        table: &Lut,
        reader: Signal,
    ) -> Result<(), NoMemory>
        requires sized { length self.old.readers.items ≡ length circuit.now.drives }
        requires within { All (λ x. x.signal < length circuit.now.drives) table.now.leaves.items }
        requires leaves { AreWithin (length circuit.now.drives) self.old.slots.items }
        requires room { HasRoomAt k self.old.slots.items (table_of table.now) reader }
        ensures { OnOk result (HadTurn circuit.now.drives k (table_of table.now) reader self.old self.new) }
    {
        let Some(other) = table_in(&self.slots, reader) else {
            return Ok(());
        };
        let Some(new) = taken_in(alloc, k, table, other)? else {
            return Ok(());
        };
        enqueue(alloc, circuit, &mut self.queue, &new)?;
        add_reader(
            alloc,
            circuit,
            &mut self.readers,
            reader,
            table.leaves.as_slice(),
        )?;
        self.slots[reader.0 as usize] = Some(new);
        Ok(())
    }

    /// The tables that are left.
    pub fn into_mapping(self, alloc: Global) -> Result<Mapping, NoMemory>
        ensures { IfOk result (λ mapping. tables_of mapping ≡ present self.slots.items) }
    {
        let UnderWay { slots, .. } = self;
        let luts = luts_of(alloc, slots)?;
        Ok(Mapping { luts })
    }
}
