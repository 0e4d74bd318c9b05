// The sizes of a run file and of its parts, in bytes (01, "Frame, run file and listing").
pub const SETUP: usize = 48;

pub const STEP: usize = 16;

pub const TRAILER: usize = 8;

// a file with no note and no step
pub const EMPTY: usize = SETUP + TRAILER;

// the longest file
pub const FILE: usize = 65536;

// the most steps
pub const STEPS: usize = 4000;
