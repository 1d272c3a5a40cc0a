/// The greatest length of a key, in bytes.
pub const KEY_MOST: u64 = 64;

/// The greatest length of a value, in bytes.
pub const VALUE_MOST: u64 = 65_535;

/// How many steps there may be: each number is below this many times the step size.
pub const STEPS_MOST: u64 = 4_096;
