// The words that say what a line maps to.

pub const LINEAR: &[u8; 6] = b"linear";

pub const STRIPED: &[u8; 7] = b"striped";

pub const ZERO: &[u8; 4] = b"zero";

pub const ERROR: &[u8; 5] = b"error";
