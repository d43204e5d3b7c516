//! The bytes of Writes and of frames: what servers and clients say to each other, and what a journal keeps.
//!
//! Callers see a Write or a [`Frame`] as the plain value that it is, and its bytes as the one spelling that `specs/Spelling`
//! gives each value; of what has no spelling nothing is encoded or decoded. [`encode_write`] and [`encode_frame`] give that
//! spelling. [`decode_write`] and [`decode_frame`] answer a value exactly where the whole input is its spelling, and else the
//! one fault that the input has; they take no memory, and what they give has its greatest size. [`decode_resting_write`] gives a Write at rest.
//! [`encode_record`] and [`decode_record`] are of a [`Record`], a Write with the tag of its asking, by `specs/Records`: bodies of a
//! journal's entries, in the [`Form`] of the version. Of a form whose vectors have fewer counts a copy with all of them is read.
//!
//! A [`Greeting`] is what two ends say to each other before they are known, and what only they ask who have greeted, by `specs/Greetings` and
//! `specs/Lookups`: [`encode_greeting`] and [`decode_greeting`] do with it as the others do with a frame. It is no frame, and no frame is one: each is a
//! bad kind in the other's place. A [`Page`] of rows fits into one, however long its keys and values are.
//!
//! [`Frames`] reads a stream in pieces: callers see it as the bytes that it holds back, or as nothing once a fault was reported.
//! `specs/Stream` says what stands in a frame's place, and what one call makes of what was held back and the piece; [`laws`]
//! says what that comes to over all calls: the frames of the stream, however it was cut.
//!
//! Callers owe nothing: strangers may send any bytes. Want of memory is an answer only where a growth was refused, and
//! leaves a stream as it was before that call. No clause says how long a call takes or when memory is refused; a call of
//! [`Frames::feed`] reads what is new and what is held back of a frame that is whole now, and no more. Each fact of the layout
//! is named once, in [`layout`]. `specs/Inner/Reading` is between the readers in `src/` and the grammar: no public clause cites it.
#![tactic(auto)]

pub mod decode;
pub mod digests;
pub mod encode;
pub mod fault;
pub mod frame;
mod front;
pub mod greeting;
mod greeting_put;
mod greeting_take;
pub mod laws;
pub mod layout;
pub mod lookup;
mod lookup_put;
mod lookup_take;
pub mod nonce;
mod payload;
pub mod proof;
mod put;
pub mod record;
mod resting;
pub mod stream;
mod take;

pub use decode::{decode_frame, decode_resting_write, decode_write, frame_len};
pub use digests::Digests;
pub use encode::{encode_frame, encode_item, encode_resting_write, encode_write};
pub use fault::{DecodeFault, RestingFault};
pub use frame::{Frame, PlainFrame};
pub use greeting::{Greeting, Held, Hello, Inquiry, Known, Proving, ServerCount, Welcome};
pub use greeting_put::encode_greeting;
pub use greeting_take::decode_greeting;
pub use lookup::{Became, Fate, FateAsked, Page, Placed, RowsAsked};
pub use nonce::Nonce;
pub use proof::Proof;
pub use record::{Form, Record, decode_record, encode_record};
pub use stream::{FeedFault, Frames};
