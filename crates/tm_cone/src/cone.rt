// The function of a table, worked out over its cone.

ghost use Rattle.std.specs.Prelude.{◌≡◌, ◌≤◌, length, IfOk};
ghost use Rattle.tm_bits.specs.Limits.{most_inputs};
ghost use Rattle.tm_bits.specs.Tables.{bit_of, row_number};
ghost use Rattle.tm_circuit.specs.Chain.{IsGate};
ghost use Rattle.tm_unroll.specs.Walks.{Covers};
ghost use Rattle.tm_unroll.specs.Mappings.{table_of as plain_table, root};
ghost use Rattle.tm_cone.specs.Cones.{IsFunctionOf};

use crate::nodes::{cone_nodes, in_order};
use crate::values::cone_values;
use crate::words::table_with;
use std::alloc::Global;
use tm_bits::{NoMemory, Table};
use tm_circuit::Circuit;
use tm_unroll::{Lut, Node};

/// The function of a table, its first leaf being the first input. Each node between the root and the leaves is worked out once,
/// on all rows at once.
pub fn table_of(alloc: Global, circuit: &Circuit, lut: &Lut) -> Result<Table, NoMemory>
    requires gate { IsGate circuit.now.drives lut.now.gate }
    requires few { length lut.now.leaves.items ≤ most_inputs }
    requires covers { Covers circuit.now.drives lut.now.leaves.items (root (plain_table lut.now)) }
    ensures inputs { IfOk result (λ table. table.inputs ≡ length lut.now.leaves.items) }
    ensures function { IfOk result (λ table. IsFunctionOf circuit.now.drives (plain_table lut.now)
        (λ bits. bit_of table.words (row_number bits))) }
{
    let _sound = circuit.signals();
    let leaves = lut.leaves.as_slice();
    let root = Node {
        signal: lut.gate,
        advance: lut.lag,
    };
    let cone = cone_nodes(alloc, circuit, leaves, root)?;
    let steps = in_order(alloc, circuit, cone.as_slice())?;
    let values = cone_values(alloc, circuit, leaves, &steps)?;
    Ok(table_with(leaves.len() as u8, &values[&root]))
}
