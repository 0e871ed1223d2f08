//! Sources and sinks of bytes, blocks that buffer bytes in front of a sink, and bytes that are kept.
#![tactic(auto)]

mod block;
mod device;
mod from_read;
mod kept;
mod slice_sink;
mod slice_source;
mod to_write;

pub use block::Block;
pub use device::{DeviceFault, PIECE, Sink, Source, put_all};
pub use from_read::FromRead;
pub use kept::kept_with;
pub use slice_sink::SliceSink;
pub use slice_source::SliceSource;
pub use to_write::ToWrite;
