//! Every limit, as a number.
use crate::fixtures::must_hold;
use bayou_base::limits::*;

/// The name of a limit, the limit, and its number.
static LIMITS: [(&str, u64, u64); 43] = [
    ("servers", SERVERS as u64, 16),
    ("servers that there were once", OLD_SERVERS as u64, 8),
    ("servers over a network", NET_SERVERS as u64, 4),
    ("sessions", SESSIONS as u64, 32),
    ("Writes of a log", MAX_WRITES as u64, 65_536),
    (
        "Writes of a log where a script doesn't say",
        DEFAULT_LIMIT as u64,
        4_096,
    ),
    ("bytes of a key", MAX_KEY_BYTES as u64, 32),
    ("bytes of a text", MAX_TEXT_BYTES as u64, 32),
    ("conditions", MAX_CONDITIONS as u64, 8),
    ("ops", MAX_OPS as u64, 8),
    ("alternatives", MAX_ALTERNATIVES as u64, 4),
    ("lines", MAX_LINES as u64, 65_536),
    ("bytes of a line", MAX_LINE_BYTES as u64, 65_536),
    ("bytes of a Write", MAX_WRITE_BYTES as u64, 5_844),
    ("bytes of a frame", MAX_FRAME_BYTES as u64, 8_192),
    ("bytes of a body", MAX_BODY_BYTES as u64, 8_192),
    ("calls of a fuse", MAX_FUSE_CALLS as u64, 1_000),
    ("bytes that a fuse keeps", MAX_FUSE_KEPT as u64, 8_192),
    ("bytes that are lost", MAX_LOST_BYTES as u64, 1_000_000_000),
    ("turns", MAX_TURNS as u64, 1_000_000),
    ("places", MAX_PLACES as u64, 4_294_967_295),
    ("bytes that are read at once", READ_BYTES as u64, 8_192),
    ("bytes that are taken at once", PULL_BYTES as u64, 1_048_576),
    ("bytes that are written at once", PIECE_BYTES as u64, 65_536),
    ("milliseconds of a wait", TICK_MILLISECONDS, 250),
    ("milliseconds in a crowd", CROWDED_MILLISECONDS, 1_000),
    (
        "milliseconds behind the last reply",
        LINGER_MILLISECONDS,
        2_000,
    ),
    ("seconds of a pause", PAUSE_SECONDS, 1),
    ("seconds between two looks", LOOK_SECONDS as u64, 2),
    ("seconds to reach a peer", PEER_REACH_SECONDS, 2),
    (
        "milliseconds of a peer's answer",
        PEER_ANSWER_MILLISECONDS,
        10_000,
    ),
    (
        "bytes of a desk's stack",
        DESK_STACK_BYTES as u64,
        1_048_576,
    ),
    ("seconds to start in", STARTING_SECONDS, 5),
    ("bytes a second", LEAST_BYTES_A_SECOND, 4_096),
    ("seconds of a rate", RATE_SECONDS, 30),
    (
        "seconds of a server's reply",
        DEFAULT_TIMEOUT_SECONDS as u64,
        3,
    ),
    ("seconds of a silent server", SILENT_SECONDS, 60),
    ("seconds between two notices", NOTICE_SECONDS as u64, 60),
    ("desks of a peer", DESKS_OF_A_PEER as u64, 2),
    ("connections that wait", WAITING_CONNECTIONS as u64, 64),
    ("Writes of a dump at once", DUMPED_AT_ONCE as u64, 128),
    ("milliseconds of a round", ROUND_MILLISECONDS, 250),
    ("entries of a state file", MAX_KEPT_ENTRIES, 65_536),
];

#[test]
fn numbers_of_limits(rt: HostRuntime) {
    for (name, limit, number) in LIMITS.iter() {
        must_hold(&rt, limit == number, name);
    }
}
