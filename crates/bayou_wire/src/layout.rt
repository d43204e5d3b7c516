//! The facts of the layout, each named once: the first bytes of values, programs' parts and options, the kinds of frames and
//! the codes of refusals. This is version 1 of the format. All integers are big-endian.

use bayou_base::{OLD_SERVERS, SERVERS};

/// How many bytes a frame's length takes.
pub const LENGTH_BYTES: usize = 2;

/// How many bytes the tag of a Write takes.
pub const TAG_BYTES: usize = 9;

/// How many bytes stand before a Write's program in the first two versions of a journal: its name, its clock and its counts.
pub const OLD_HEAD_BYTES: usize = 9 + 4 * OLD_SERVERS;

/// How many bytes of counts a Write's vector lacks in the first two versions of a journal.
pub const OLD_LACKED_BYTES: usize = 4 * (SERVERS - OLD_SERVERS);

/// A value that is a number.
pub const VALUE_NUM: u8 = 1;
/// A value that is a text.
pub const VALUE_TEXT: u8 = 2;

/// A term that is a value.
pub const TERM_LIT: u8 = 1;
/// A term that is what a key has.
pub const TERM_COPY: u8 = 2;
/// A term that is a sum.
pub const TERM_PLUS: u8 = 3;

/// An op that sets a key.
pub const OP_PUT: u8 = 1;
/// An op that removes a key.
pub const OP_DEL: u8 = 2;

/// A condition that a key is present with a value.
pub const COND_EQUALS: u8 = 1;
/// A condition that a key is absent.
pub const COND_ABSENT: u8 = 2;
/// A condition that a key has a number that isn't less.
pub const COND_AT_LEAST: u8 = 3;
/// A condition that so many keys at the most begin so.
pub const COND_AT_MOST: u8 = 4;

/// No value, or no Write.
pub const ABSENT: u8 = 0;
/// A Write's name follows.
pub const PRESENT: u8 = 1;

/// A record that has no tag: that of another server's Write, or of an own one that had none.
pub const RECORD_OTHERS: u8 = 0;
/// A record that has a tag, which follows.
pub const RECORD_OWN: u8 = 1;

/// A request: read a key.
pub const KIND_READ: u8 = 0x01;
/// A request: open the journal again.
pub const KIND_REOPEN: u8 = 0x03;
/// A request: send every held Write.
pub const KIND_DUMP: u8 = 0x04;
/// A request: send the Writes that a vector doesn't cover.
pub const KIND_OFFER: u8 = 0x05;
/// A request: accept a Write. Its kind was 0x02 where a Write had no tag, and no other is given that kind.
pub const KIND_WRITE: u8 = 0x06;
/// A reply: a read was served.
pub const KIND_SEEN: u8 = 0x11;
/// A reply: a Write was accepted.
pub const KIND_ACCEPTED: u8 = 0x12;
/// A reply: the request was refused.
pub const KIND_REFUSED: u8 = 0x13;
/// A reply: the journal was opened again.
pub const KIND_REOPENED: u8 = 0x14;
/// A reply: one of the Writes asked for.
pub const KIND_ITEM: u8 = 0x15;
/// A reply: the end of the Writes asked for.
pub const KIND_END: u8 = 0x16;

/// Which version of the greeting is spoken.
pub const GREETING_VERSION: u8 = 2;

/// How many bytes the number has that each end draws at random for one greeting.
pub const NONCE_BYTES: usize = 16;

/// How many bytes a proof has that an end knows the key of its store.
pub const PROOF_BYTES: usize = 32;

/// Of how many counts the digests are asked for at once at the most.
pub const DIGESTS_AT_ONCE: usize = 16;

/// How many rows are listed at once at the most: as many as fit into a frame, the longest too.
pub const ROWS_AT_ONCE: usize = 121;

/// No row is left after those that are listed.
pub const NONE_LEFT: u8 = 0;
/// A row is left after them.
pub const MORE_LEFT: u8 = 1;

/// A Write that isn't held.
pub const NOT_HELD: u8 = 0;
/// A Write whose update was applied.
pub const WAS_UPDATED: u8 = 1;
/// A Write of which an alternative was applied, whose number follows, from 1 on.
pub const WAS_MERGED: u8 = 2;
/// A Write of which nothing was applied.
pub const WAS_NOTHING: u8 = 3;

/// No server: a client greets, or any server will do.
pub const NO_SERVER: u8 = 255;
/// Any number of servers will do.
pub const ANY_COUNT: u8 = 0;

/// A greeting's request: who greets, and whom.
pub const KIND_HELLO: u8 = 0x20;
/// A greeting's request: the proof of who greets.
pub const KIND_PROOF: u8 = 0x21;
/// A request of who has greeted: the rows of these keys.
pub const KIND_LIST: u8 = 0x22;
/// A request of who has greeted: what became of a Write.
pub const KIND_BECAME: u8 = 0x23;
/// A greeting's request: the digests of an origin's Writes at these counts.
pub const KIND_DIGESTS: u8 = 0x24;
/// A greeting's reply: who is greeted.
pub const KIND_WELCOME: u8 = 0x30;
/// A greeting's reply: who greets is known. This is what is held.
pub const KIND_KNOWN: u8 = 0x31;
/// A greeting's reply: other Writes of this origin are held.
pub const KIND_DIFFERS: u8 = 0x32;
/// A reply to who has greeted: what became of the Write.
pub const KIND_OUTCOME: u8 = 0x33;
/// A greeting's reply: the digests asked for.
pub const KIND_DIGESTED: u8 = 0x34;
/// A reply to who has greeted: the rows asked for.
pub const KIND_LISTED: u8 = 0x35;
