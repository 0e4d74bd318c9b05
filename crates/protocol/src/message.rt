// The eight kinds, in the order of their numbers in a frame, each with its own fields (01, "Frame, run file and listing").
#[derive(Clone, Copy)]
pub enum Kind {
    Renew {
        object: u8,
        number: u32,
        epoch: u32,
        version: u32,
    },
    Grant {
        object: u8,
        number: u32,
        volume_expiry: u32,
        epoch: u32,
        version: u32,
        object_expiry: u32,
        // none if the client holds the value already (01, "Messages received")
        payload: Option<u64>,
    },
    Invalidate {
        object: u8,
        epoch: u32,
        version: u32,
    },
    Ack {
        object: u8,
        epoch: u32,
        version: u32,
    },
    Offer {
        volume: u8,
        number: u32,
        epoch: u32,
    },
    Dropped {
        volume: u8,
        number: u32,
        epoch: u32,
    },
    // the noted objects of the volume, bit k of `set` for object k (02, A6)
    Batch {
        volume: u8,
        number: u32,
        epoch: u32,
        set: u32,
    },
    Cleared {
        volume: u8,
        number: u32,
        epoch: u32,
        set: u32,
    },
}

// A message names its client, and carries one kind with that kind's fields.
#[derive(Clone, Copy)]
pub struct Message {
    pub client: u8,
    pub kind: Kind,
}

// The message list: at most 64 in sending order, the first `len` of `items`. The places past `len` are free; in a run from fresh tables each holds
// the blank message.
// Kept: an array with a length, since only definitions use it, and theorems speak of the places past the end (`pushed` of specs/Messages.antt).
#[derive(Clone, Copy)]
pub struct Queue {
    pub items: [Message; 64],
    pub len: usize,
}
