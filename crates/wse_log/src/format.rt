// The bytes that frame the records of a journal. This project's own format.

/// The first bytes of a journal.
pub const HEADER: [u8; 8] = *b"WSELOG01";

/// A gate is open only as this byte.
pub const OPEN_GATE: u8 = 0xA5;

/// A closed gate is written as this byte.
pub const CLOSED_GATE: u8 = 0;

/// A record is settled only with this byte behind its body.
pub const SETTLED: u8 = 0x5A;

/// A record that isn't settled is written with this byte behind its body.
pub const UNSETTLED: u8 = 0;
