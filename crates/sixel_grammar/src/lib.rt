//! The grammar of sixel pictures: what a document says, read byte by byte from any source and written to any sink.
//!
//! The standard is DEC EK-VT3XX-GP-002 (VT330/VT340 Programmer Reference Manual, Volume 2: Graphics Programming), the
//! chapter on sixel graphics.
#![tactic(auto)]

mod both;
mod command;
mod fault;
mod following;
mod halt;
mod pending;
mod pieces;
mod reader;
mod reading;
mod run;
mod source;
mod stretch;
mod writing;

pub use both::Both;
pub use command::{Columns, Command, Completed, Event, Placed, Plain, Run, TwoCommands};
pub use fault::{Fault, InputFault, Reason};
pub use following::{Follower, follow_bytes};
pub use halt::Halt;
pub use pieces::{PieceReader, read_rest, read_source};
pub use reader::Reader;
pub use reading::read_all;
pub use sixel_io::{
    Block, DeviceFault, FromRead, PIECE, Sink, SliceSink, SliceSource, Source, ToWrite, put_all,
};
pub use source::{SourceHalt, follow_document, follow_source};
pub use writing::{put_event, write_event};
