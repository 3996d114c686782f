//! What was drawn last.

use crate::kept_graph::KeptGraph;
use kept_walks::KeptWalks;

/// The line graph that was built last and the drawing that was made last, if they are kept. What is drawn is the same
/// whatever is kept.
#[derive(Drop)]
pub struct LastDrawing {
    /// The line graph that was built last.
    pub graph: KeptGraph,
    /// The drawing that was made last.
    pub walks: KeptWalks,
}

impl LastDrawing {
    /// Holds none yet, and keeps the next one: for one that draws again and again.
    pub fn none() -> LastDrawing {
        LastDrawing {
            graph: KeptGraph::none(),
            walks: KeptWalks::none(),
        }
    }

    /// Holds none, and keeps none: for one that draws once.
    pub fn never() -> LastDrawing {
        LastDrawing {
            graph: KeptGraph::never(),
            walks: KeptWalks::never(),
        }
    }
}
