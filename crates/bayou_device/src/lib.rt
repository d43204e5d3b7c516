//! Devices: where a server's journal is stored.
//!
//! Callers see a [`Device`] as its content, a list of bytes; the bytes at its front that were synced and not cut since,
//! which stay there whatever fails; and how often it has failed. A successful append adds its piece at the end, a
//! successful cut leaves the first bytes, after a successful sync all that a read gives is kept, and after the kept bytes
//! a failed call, or a crash, may leave anything that [`Device`]'s `may_leave` allows. A [`MemoryDevice`] meets the model,
//! and can be made to fail, to lose its end, or to crash.
//!
//! A caller cuts at no more bytes than there are. The crate doesn't promise that a real file meets the model: a device
//! over one gives `is_modelled` as empty, and then no clause says what it holds, only when its calls may fail.
#![tactic(auto)]

pub mod device;
pub mod file;
pub mod fuse;
pub mod gate;
pub mod memory;

pub use device::{Device, Failed, ReadFault};
pub use file::FileDevice;
pub use fuse::Fuse;
pub use gate::{Gate, OpenGate};
pub use memory::MemoryDevice;
