//! The gate of a device in memory.
use bayou_device::{Device, Gate, MemoryDevice};
use std::cell::Cell;

/// A gate that tells how often it was passed, and how many bytes its device held as it was passed last.
struct TellingGate<'a> {
    told: &'a Cell<(u32, usize)>,
}

impl Drop for TellingGate<'_> {
    fn drop(self) {
        let TellingGate { told: _ } = self;
    }
}

impl Gate for TellingGate<'_> {
    fn pass(&self, held: usize) {
        let (passed, _) = self.told.get();
        self.told.set((passed.saturating_add(1), held));
    }
}

/// Whether an append of the piece succeeds or not, as said, and this is what the gate tells then.
fn adds(
    device: &mut MemoryDevice<TellingGate>,
    told: &Cell<(u32, usize)>,
    piece: &[u8],
    is_ok: bool,
    passed: (u32, usize),
) -> bool {
    device.append(piece).is_ok() == is_ok && told.get() == passed
}

/// Whether each append passes the gate before it adds anything, also one that fails, and no other call does.
fn passes(device: &mut MemoryDevice<TellingGate>, told: &Cell<(u32, usize)>) -> bool {
    let is_added = adds(device, told, b"ab", true, (1, 0));
    let is_synced = device.sync().is_ok();
    device.fuse(1, 1);
    let is_refused = adds(device, told, b"cd", false, (2, 2));
    let is_last = adds(device, told, b"ef", true, (3, 3));
    let is_held = device.bytes() == b"abcef".as_slice();
    is_added && is_synced && is_refused && is_last && is_held
}

#[test]
fn each_append_passes_the_gate_first(rt: HostRuntime) {
    let told = Cell::new((0, 0));
    let mut device = MemoryDevice::new(rt.alloc(), TellingGate { told: &told });
    assert!(rt; passes(&mut device, &told));
}
