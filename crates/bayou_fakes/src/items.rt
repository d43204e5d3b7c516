//! Writes that others accepted, as they stand in a stream.
use bayou_base::SERVERS;
use bayou_lang::Write;
use bayou_wire::decode_write;

/// A Write that puts a number at `a`: its origin, its seq, its clock, how many Writes of the first two servers its server held, and
/// the number.
pub type Given = (u8, u8, u8, [u8; 2], u8);

/// How many bytes a vector has: four for each server.
const VECTOR_BYTES: usize = 4 * SERVERS;

/// How many bytes the program has.
const PROGRAM_BYTES: usize = 16;

/// How many bytes an Item has.
pub const ITEM_BYTES: usize = 12 + VECTOR_BYTES + PROGRAM_BYTES;

/// The first server's first three Writes.
pub const THREE: [Given; 3] = [
    (0, 1, 1, [0, 0], 1),
    (0, 2, 2, [1, 0], 2),
    (0, 3, 3, [2, 0], 3),
];

/// The Item of the Write: its length and kind, its name, its clock, its past, and its program.
pub fn item(given: Given) -> [u8; ITEM_BYTES] {
    let (origin, seq, clock, [first, second], number) = given;
    let length = (ITEM_BYTES - 2) as u8;
    let mut bytes = [0; ITEM_BYTES];
    bytes[..20].copy_from_slice(&[
        0, length, 21, origin, 0, 0, 0, seq, 0, 0, 0, clock, 0, 0, 0, first, 0, 0, 0, second,
    ]);
    bytes[ITEM_BYTES - PROGRAM_BYTES..].copy_from_slice(&[
        0, 1, 1, 1, b'a', 1, 1, 0, 0, 0, 0, 0, 0, 0, number, 0,
    ]);
    bytes
}

/// The Write.
pub fn write(given: Given) -> Option<Write> {
    decode_write(&item(given)[3..]).ok()
}
