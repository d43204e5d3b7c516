//! The layout of what is kept, once by name.

/// The version of this layout, the first byte.
pub const KEPT_VERSION: u8 = 1;

/// A guarantee that isn't asked for.
pub const NOT_ASKED: u8 = 0;

/// A guarantee that is asked for.
pub const ASKED: u8 = 1;

/// Nothing may be asked again.
pub const NOTHING: u8 = 0;

/// A Write may be asked again.
pub const A_WRITE: u8 = 1;
