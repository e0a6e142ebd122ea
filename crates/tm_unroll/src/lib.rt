//! Mappings of a circuit into lookup tables with lags, over nodes that are signals seen some steps ahead.
//! `lawful` tells whether a mapping is lawful, and else its first fault; `chain` tells its period;
//! `in_order` and `replace_leaf` make the leaves of tables and cuts.
//! The definitions and laws of nodes, walks, covers, lawful mappings and chains stand beside them.
#![tactic(auto)]

mod chains;
mod cover;
pub mod cover_laws;
mod lawfulness;
pub mod laws;
mod leaves;
mod lookup;
pub mod net_laws;
mod node;
pub mod node_laws;
mod replace;

pub use chains::chain;
pub use lawfulness::lawful;
pub use node::{Lut, MapWhy, Mapping, MappingFault, Node};
pub use replace::{in_order, replace_leaf};
