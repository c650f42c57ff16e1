//! Kernels on bags of rows: windows, products and streamers of continuous queries. A relation comes
//! as changes, and each contract speaks of contents.
#![tactic(auto)]

mod cross;
mod given;
mod joined;
mod kernel;
pub mod laws;
mod line;
mod places;
mod product;
mod rowwise;
mod stamped;
mod streamer;
mod window;

pub use cross::CrossState;
pub use kernel::{Cross, Streamer, Window};
pub use rowwise::{project, select};
pub use streamer::StreamerState;
pub use window::WindowState;
