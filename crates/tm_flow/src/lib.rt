//! Cuts of nets that are never built: for a net that is asked node by node, `cut_or_walks` answers
//! at most k nodes that cut the root from every end, or the walks that no such cut goes with.
//! The walks are a flow, found one by one by searches that may go back along earlier walks.
//! A `Searcher` does the same for one root after another in the memory that it keeps.
#![tactic(auto)]

mod cut;
mod flow;
mod grow;
mod judge;
mod known;
mod laws;
mod net;
mod search;
mod searcher;
mod used;

pub use cut::{cut_or_walks, cut_or_walks_from};
pub use judge::{Judge, WalkFault, judge_walks};
pub use laws::{barrier_excludes_covers, barriers_are_inherited, barriers_stay};
pub use net::{Found, LazyNet};
pub use searcher::Searcher;
