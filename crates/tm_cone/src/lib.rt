//! The functions of tables: what the cone of gates between a table's root and its leaves comes to, on all rows of the leaves at once.
//! `table_of` answers it as a table; what it means stands in specs/.
#![tactic(auto)]

mod cone;
mod covers;
mod nodes;
mod values;
mod words;

pub use cone::table_of;
