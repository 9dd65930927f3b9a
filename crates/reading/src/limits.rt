// The limits of document 01; specs/Limits.antt has them too, and the contracts hold the code to those.
pub const DOCUMENT: usize = 65535;

pub const MODULES: u64 = 16;

pub const PATH: u64 = 8;

pub const LIST: u64 = 255;

pub const TEXT: u64 = 64;

pub const U32: u64 = u32::MAX as u64;

pub const U64: u64 = u64::MAX;

pub const DEPTH: u64 = 32;

pub const VERSION: u64 = 1;

pub const UNARY_OPS: u64 = 3;

pub const BIN_OPS: u64 = 16;
