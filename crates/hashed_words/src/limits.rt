/// Below how many tries the seeds of an accessor are looked for.
pub const TRIES: u32 = 65_536;
