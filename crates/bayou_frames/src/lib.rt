//! Frames on a channel: how they are written to it and read from it.
//!
//! Callers see a channel (`bayou_streams`), the frames (`bayou_wire`), and the [`ChannelFault`] that ended a call. [`send`] writes bytes
//! whole, [`read_piece`] and [`feed_piece`] read a stream of frames piece by piece, [`read_frame`] and [`read_offer`] read one frame
//! and no more. A call spends the channel's turns, and a stream is at fault only where a call of it failed.
//!
//! Callers owe nothing: strangers may send any bytes. Want of memory is an answer only where a growth was refused. It isn't promised
//! that a stream gives or takes anything. What a frame asks for or answers, and who is at the other end, is nothing to this crate.
#![tactic(auto)]

pub mod fault;
pub mod first;
pub mod framing;
pub mod laws;

pub use fault::ChannelFault;
pub use first::{read_frame, read_offer};
pub use framing::{Came, feed_piece, read_piece, send};
