//! Every limit of the program, each named once.

/// How many servers there may be at the most: the counts of a vector.
pub const SERVERS: usize = 16;

/// How many servers there were at the most before: the counts of a vector in the first two versions of a journal.
pub const OLD_SERVERS: usize = 8;

/// How many servers a script over a network starts at the most.
pub const NET_SERVERS: usize = 4;

/// How many own Writes that aren't final a client keeps at the most; one more, and the oldest is forgotten.
pub const MAX_OWN_WRITES: usize = 64;

/// How many Writes beyond what is known as final a client asks a server for at the most, once something is known.
pub const MAX_BEYOND_FINAL: u32 = 4_096;

/// How many sessions there may be at the most.
pub const SESSIONS: usize = 32;

/// How many Writes a log holds at the most, and so the greatest sequence number, clock and count.
pub const MAX_WRITES: u32 = 65_536;

/// How many Writes a log holds at the most where a script doesn't say.
pub const DEFAULT_LIMIT: u32 = 4_096;

/// How many bytes a key has at the most. It has one at the least.
pub const MAX_KEY_BYTES: usize = 32;

/// How many bytes a text value has at the most.
pub const MAX_TEXT_BYTES: usize = 32;

/// How many conditions a dependency check, or an alternative, has at the most.
pub const MAX_CONDITIONS: usize = 8;

/// How many ops an update, or an alternative, has at the most, and so how many keys a program may change.
pub const MAX_OPS: usize = 8;

/// How many alternatives a merge procedure has at the most.
pub const MAX_ALTERNATIVES: usize = 4;

/// How many lines a script has at the most, empty ones too.
pub const MAX_LINES: u64 = 65_536;

/// How many bytes a line has at the most, before its line feed.
pub const MAX_LINE_BYTES: usize = 65_536;

/// How many bytes an encoded Write has at the most: each list full, and each key, text and term as long as it may be.
pub const MAX_WRITE_BYTES: usize = 5_844;

/// How many bytes a frame's length counts at the most: its kind and its payload.
pub const MAX_FRAME_BYTES: usize = 8_192;

/// How many bytes the body of a journal's entry has at the most. It has one at the least.
pub const MAX_BODY_BYTES: usize = 8_192;

/// Which device call from now a fuse makes fail at the latest. The next one is the first.
pub const MAX_FUSE_CALLS: u32 = 1_000;

/// How many bytes of the piece of an append that a fuse makes fail are added at the most.
pub const MAX_FUSE_KEPT: u32 = 8_192;

/// How many bytes a device loses at its end in one go at the most.
pub const MAX_LOST_BYTES: u32 = 1_000_000_000;

/// How often one call of an engine calls a reader's `read` or a writer's `write` at the most.
pub const MAX_TURNS: u32 = 1_000_000;

/// How many places a session has: the operations that it may try.
pub const MAX_PLACES: u32 = u32::MAX;

/// How many bytes one turn reads at the most.
pub const READ_BYTES: usize = 8_192;

/// How many bytes of an answer in memory are taken at once. Those of their Writes that come late are applied once, so that more bytes cost less
/// time; their Writes lie beside the bytes until they are taken, so that fewer cost less memory.
pub const PULL_BYTES: usize = 1_048_576;

/// How many bytes of lines are written at once at the most, but for a line that is longer.
pub const PIECE_BYTES: usize = 65_536;

/// How many Writes that another server lacks are copied and sent at once at the most.
pub const ITEMS_AT_ONCE: usize = 16;

/// How many Writes of a dump are copied and sent at once at the most: as many as fit a mebibyte, the longest too.
pub const DUMPED_AT_ONCE: usize = 128;

/// How many entries a book of what was served has places for at the most, and how many an audit file has.
pub const MAX_ENTRIES: usize = 65_536;

/// The greatest number that an offer, or a Write in flight between servers, has where all servers are one machine.
pub const MAX_NUMBER: u32 = u32::MAX;

/// How often one read of a patient reader waits at the most.
pub const MAX_WAITS: u32 = 1_000_000;

/// How many connections a server that lives serves at once at the most.
pub const MAX_CONNECTIONS: u32 = 4_096;

/// How many connections a server that lives serves at once where the command line doesn't say.
pub const DEFAULT_CONNECTIONS: u32 = 64;

/// How many seconds the command line may name at the most: a day.
pub const MAX_SECONDS: u32 = 86_400;

/// After how many seconds a connection that asks nothing is closed where the command line doesn't say.
pub const DEFAULT_IDLE_SECONDS: u32 = 60;

/// After how many seconds a server that lives pulls again where the command line doesn't say.
pub const DEFAULT_EVERY_SECONDS: u32 = 1;

/// How many milliseconds one wait for bytes takes at a server that lives at the most, before it is looked whether to go on.
pub const TICK_MILLISECONDS: u64 = 250;

/// How many milliseconds a connection that asks nothing keeps its desk where each desk is taken and somebody waits for one.
pub const CROWDED_MILLISECONDS: u64 = 1_000;

/// How many milliseconds a greeting has at a server that lives.
pub const GREETING_MILLISECONDS: u64 = 5_000;

/// How many desks a server that lives keeps for the pulls of each of its peers.
pub const DESKS_OF_A_PEER: u32 = 2;

/// How many connections wait for a desk at the most. The next one is closed at once.
pub const WAITING_CONNECTIONS: u32 = 64;

/// For how many milliseconds what comes after the last reply is dropped.
pub const LINGER_MILLISECONDS: u64 = 2_000;

/// For how many seconds nobody is served where a connection can't be taken.
pub const PAUSE_SECONDS: u64 = 1;

/// How many seconds pass between two looks of what keeps a server up.
pub const LOOK_SECONDS: u32 = 2;

/// How many seconds a peer has to take a connection.
pub const PEER_REACH_SECONDS: u64 = 2;

/// How many milliseconds a peer has between two pieces of its answer.
pub const PEER_ANSWER_MILLISECONDS: u64 = 10_000;

/// For how many seconds all peers are asked, side by side, before a server starts.
pub const STARTING_SECONDS: u64 = 5;

/// How many bytes a second a peer's answer brings at the least, over each so many seconds.
pub const LEAST_BYTES_A_SECOND: u64 = 4_096;

/// Over how many seconds it is looked at how many bytes came.
pub const RATE_SECONDS: u64 = 30;

/// How many bytes of stack a thread has that serves one connection after another.
pub const DESK_STACK_BYTES: usize = 1_048_576;

/// How many seconds a server has for the connection of a person or a program and its whole reply where the command line doesn't say.
pub const DEFAULT_TIMEOUT_SECONDS: u32 = 3;

/// For how many seconds a server that was silent is asked after all others.
pub const SILENT_SECONDS: u64 = 60;

/// How many milliseconds pass before all servers are asked once more.
pub const ROUND_MILLISECONDS: u64 = 250;

/// How many entries a state file has at the most before it is written anew, with what is kept of each session at last.
pub const MAX_KEPT_ENTRIES: u64 = 65_536;

/// How many seconds pass from one line of a server that lost Writes of its own to the next.
pub const LOST_SECONDS: u32 = 60;

/// How many seconds pass from one line about what lasts, as a full house or want of descriptors does, to the next.
pub const NOTICE_SECONDS: u32 = 60;
