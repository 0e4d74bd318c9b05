// Kept: arrays side by side, one for each field, since only definitions use these types, the theorems update one field at a time, and the words lie so.
use crate::message::Queue;

// The server's tables, per volume.
#[derive(Clone, Copy)]
pub struct Volumes {
    pub epoch: [u32; 8],
    // VE: the largest expiry of a volume lease that was granted
    pub expiry: [u32; 8],
    // no write completes before it: what leases from before the last restart may still be alive
    pub guard: [u32; 8],
}

// The server's tables, per client, and per client and volume at client * 8 + volume.
#[derive(Clone, Copy)]
pub struct Sessions {
    // the highest request number seen
    pub seen: [u32; 16],
    pub expiry: [u32; 128],
    pub unreachable: [bool; 128],
    // the number of the OFFER that a DROPPED has to answer; 0 is none
    pub offer: [u32; 128],
    // the objects whose writes the client has not been told of, bit k for object k
    pub notes: [u32; 128],
    // the number of the BATCH that a CLEARED has to answer; 0 is none
    pub batch: [u32; 128],
}

// The server's tables, per object. Where no write stands, `pending` and `end` are free; in a run from fresh tables they are 0.
#[derive(Clone, Copy)]
pub struct Objects {
    pub value: [u64; 32],
    pub version: [u32; 32],
    // OE: the largest expiry of an object lease that was granted; no rule reads it
    pub expiry: [u32; 32],
    pub standing: [bool; 32],
    pub pending: [u64; 32],
    // the standing write's latest end
    pub end: [u32; 32],
}

// The server's tables of who holds what: leases per client and object at client * 32 + object.
#[derive(Clone, Copy)]
pub struct Holders {
    pub lease: [u32; 512],
    // per object, the clients that its standing write waits for, bit k for client k; where no write stands, free
    pub waiting: [u32; 32],
}

// The clients' own tables, per client and volume at client * 8 + volume.
#[derive(Clone, Copy)]
pub struct Views {
    pub epoch: [u32; 128],
    pub expiry: [u32; 128],
}

// All tables but the clients' records of copies and requests, which are lent.
#[derive(Clone, Copy)]
pub struct Tables {
    pub clock: u32,
    pub volumes: Volumes,
    pub sessions: Sessions,
    pub objects: Objects,
    pub holders: Holders,
    pub views: Views,
    pub queue: Queue,
}
