//! Why a line isn't read or written.

use aim_script::Kind;

/// Why a line isn't read.
pub enum Unread {
    /// It is at fault.
    Bad(Kind),
    /// Memory has run out.
    NoMemory,
}

/// Why a line isn't written whole.
pub enum Unwritten {
    /// The sink has failed.
    Write,
    /// Memory has run out.
    NoMemory,
}
