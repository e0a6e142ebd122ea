//! The settling of labels for a target: labels fall drop by drop until each gate that still has one has a cut that is served in time.
//! What labels, drops and replays are stands in tm_replay; what is kept of a settling, in specs/.
//! `Work` is a settling under way, and `settle` runs one to its end.
#![tactic(auto)]

mod cuts;
mod find;
mod first;
mod known;
mod lasts;
mod lost;
mod marks;
mod order;
mod queue;
mod searches;
mod settled;
mod settling;
mod watcher;
mod work;

pub use lost::{have_lost_from, need_of};
pub use settled::Settled;
pub use settling::{settle, settle_outputs};
pub use work::Work;
