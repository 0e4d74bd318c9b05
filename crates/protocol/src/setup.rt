// The setup of a run, which stays the same throughout (01, "Tables"). A region of 01 is a volume, a notice is an object, and a dash is a client.
// All are counted from 0; durations are in ticks.
#[derive(Clone, Copy)]
pub struct Setup {
    // 1 to 16
    pub clients: u32,
    // 1 to 8
    pub volumes: u32,
    // 1 to 28
    pub objects: u32,
    // how long a volume lease lasts, 1 to 3,600
    pub tv: u32,
    // how long an object lease lasts, 1 to 1,000,000
    pub t: u32,
    // how long the server waits for an acknowledgement at the least, 1 to 60
    pub m: u32,
    // each object's volume; 0 past the count of objects
    pub volume: [u8; 28],
    // how long after a client's volume lease has ended the server keeps its notes, before it marks the client unreachable, 1 to 65,535
    pub delay: u32,
}
