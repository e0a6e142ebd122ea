// The searches of a settling, counted.

use std::alloc::Global;
use tm_flow::Searcher;
use tm_unroll::Node;

/// The searcher of a settling, whose memory is kept, and how many searches it has made.
#[derive(Drop)]
pub struct Searches {
    pub searcher: Searcher<Node>,
    pub made: u64,
}

impl Searches {
    /// A searcher that has made none.
    pub fn new(alloc: Global) -> Searches {
        Searches {
            searcher: Searcher::new(alloc),
            made: 0,
        }
    }
}
