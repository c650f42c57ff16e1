// What kernels keep between firings.

use kern_bags::{CrossState, StreamerState, WindowState};
use kern_rows::{CollectState, DealState, FilterState};
use river_base::{Listed, Numbers};

/// What one private variable of a kernel keeps between firings.
#[derive(Drop)]
pub enum State {
    /// The kept slots of a body.
    Slots(Numbers),
    /// What a filter keeps.
    Filter(FilterState),
    /// The turn of a splitter, and where it deals a relation what its lists owe.
    Deal(DealState),
    /// What waits in a joiner, of packs or not, and what its ports owe.
    Join(CollectState),
    /// What a window keeps.
    Window(WindowState),
    /// What a product keeps.
    Cross(CrossState),
    /// The content that a streamer keeps.
    Streamer(StreamerState),
}

/// A state for each private variable of a kernel; of two kernels, those of the first and then those of the second.
pub type States = Listed<State>;
