// Converts a message to its fields as numbers, by its kind, and back.
#![tactic(auto)]

ghost use Rattle.std.specs.Prelude.{◌≡◌};
ghost use Rattle.message_fields.specs.Fields.{fields_of, payload_in, kind_in, message_in, sound, accepted};
ghost use Rattle.message_fields.specs.Questions.{payload_right, no_lease};

use protocol::message::{Kind, Message};
use protocol::refusal::Refusal;

// Holds all ten fields in the frame's order. In a message, fields that its kind lacks are 0.
#[derive(Clone, Copy, Default, PartialEq, Eq)]
pub struct Fields {
    pub kind: u8,
    pub client: u8,
    // the volume in an OFFER, a DROPPED, a BATCH or a CLEARED
    pub object: u8,
    // 1 if a GRANT has a value, else 0
    pub present: u8,
    pub number: u32,
    pub volume_expiry: u32,
    pub epoch: u32,
    // the set in a BATCH or a CLEARED
    pub version: u32,
    pub object_expiry: u32,
    pub value: u64,
}

impl From<Message> for Fields {
    ghost from_gives = { λ m f. f ≡ fields_of m };

    // Returns the fields of a message by its kind, "1 to 6 in the order RENEW, GRANT, INVALIDATE, ACK, OFFER, DROPPED": "RENEW has object, number, epoch
    // and version; GRANT every field; INVALIDATE and ACK object, epoch and version; OFFER and DROPPED volume, number and epoch." 02, A6: "BATCH (kind 7)
    // with number, epoch and the noted set, bit k for object k, in the version field", "CLEARED (kind 8) with number, epoch and set; in both the object byte
    // names the volume". "Fields a kind lacks are 0": "value present (0 or 1)", and "A GRANT without value has value 0."
    #[tactic(auto, unfolding(crate::specs::Fields::kind_fields))]
    fn from(message: Message) -> Fields {
        let base = Fields {
            client: message.client,
            ..Fields::default()
        };
        match message.kind {
            Kind::Renew {
                object,
                number,
                epoch,
                version,
            } => Fields {
                kind: 1,
                object,
                number,
                epoch,
                version,
                ..base
            },
            Kind::Grant {
                object,
                number,
                volume_expiry,
                epoch,
                version,
                object_expiry,
                payload,
            } => Fields {
                kind: 2,
                object,
                present: u8::from(payload.is_some()),
                number,
                volume_expiry,
                epoch,
                version,
                object_expiry,
                value: payload.unwrap_or(0),
                ..base
            },
            Kind::Invalidate {
                object,
                epoch,
                version,
            } => Fields {
                kind: 3,
                object,
                epoch,
                version,
                ..base
            },
            Kind::Ack {
                object,
                epoch,
                version,
            } => Fields {
                kind: 4,
                object,
                epoch,
                version,
                ..base
            },
            Kind::Offer {
                volume,
                number,
                epoch,
            } => Fields {
                kind: 5,
                object: volume,
                number,
                epoch,
                ..base
            },
            Kind::Dropped {
                volume,
                number,
                epoch,
            } => Fields {
                kind: 6,
                object: volume,
                number,
                epoch,
                ..base
            },
            Kind::Batch {
                volume,
                number,
                epoch,
                set,
            } => Fields {
                kind: 7,
                object: volume,
                number,
                epoch,
                version: set,
                ..base
            },
            Kind::Cleared {
                volume,
                number,
                epoch,
                set,
            } => Fields {
                kind: 8,
                object: volume,
                number,
                epoch,
                version: set,
                ..base
            },
        }
    }
}

// Returns a GRANT's value, if there is one: "A GRANT without value has value 0."
fn payload_in(f: Fields) -> Option<u64>
    ensures { result ≡ payload_in f }
{
    if f.present == 0 { None } else { Some(f.value) }
}

// Returns the kind with these fields, "1 to 6 in the order RENEW, GRANT, INVALIDATE, ACK, OFFER, DROPPED", "BATCH (kind 7)" or "CLEARED (kind 8)" (02, A6).
// Unknown kind numbers read as RENEW; `sound` rejects them.
#[tactic(auto, unfolding(crate::specs::Fields::kind_in))]
fn kind_in(f: Fields) -> Kind
    ensures { result ≡ kind_in f }
{
    match f.kind {
        2 => Kind::Grant {
            object: f.object,
            number: f.number,
            volume_expiry: f.volume_expiry,
            epoch: f.epoch,
            version: f.version,
            object_expiry: f.object_expiry,
            payload: payload_in(f),
        },
        3 => Kind::Invalidate {
            object: f.object,
            epoch: f.epoch,
            version: f.version,
        },
        4 => Kind::Ack {
            object: f.object,
            epoch: f.epoch,
            version: f.version,
        },
        5 => Kind::Offer {
            volume: f.object,
            number: f.number,
            epoch: f.epoch,
        },
        6 => Kind::Dropped {
            volume: f.object,
            number: f.number,
            epoch: f.epoch,
        },
        7 => Kind::Batch {
            volume: f.object,
            number: f.number,
            epoch: f.epoch,
            set: f.version,
        },
        8 => Kind::Cleared {
            volume: f.object,
            number: f.number,
            epoch: f.epoch,
            set: f.version,
        },
        _ => Kind::Renew {
            object: f.object,
            number: f.number,
            epoch: f.epoch,
            version: f.version,
        },
    }
}

// Returns the message with these fields, ignoring those that its kind lacks.
// Kept: a function that tests nothing, to read the row of a live message, which the gate has found sound. `Message::try_from` tests its fields.
pub fn message_in(f: Fields) -> Message
    ensures { result ≡ message_in f }
{
    Message {
        client: f.client,
        kind: kind_in(f),
    }
}

impl TryFrom<Fields> for Message {
    type Error = Refusal;

    ghost try_from_gives = { λ f r. r ≡ accepted f };

    // Returns the message with these fields; refuses fields that no message has.
    // Kept: inlined, with `sound`, so that encoding and decoding a frame build no message in memory.
    #[inline(always)]
    #[tactic(auto, unfolding(crate::specs::Fields::accepted))]
    fn try_from(f: Fields) -> Result<Message, Refusal> {
        if sound(f) {
            Ok(message_in(f))
        } else {
            Err(Refusal::Frame)
        }
    }
}

// Returns whether a GRANT's value flag is right: 1, or 0 with value 0.
fn payload_right(f: Fields) -> bool
    ensures { result ≡ payload_right f }
{
    if f.present == 0 {
        0 == f.value
    } else {
        1 == f.present
    }
}

// Returns whether the fields that only a GRANT has are 0.
fn no_lease(f: Fields) -> bool
    ensures { result ≡ no_lease f }
{
    (0 == f.present) & (0 == f.volume_expiry) & (0 == f.object_expiry) & (0 == f.value)
}

// Returns whether these are the fields of a message: the kind is known, "Fields a kind lacks are 0", and a GRANT's value flag is right. Any version is
// a set of a BATCH or a CLEARED here.
// Kept: arms with the same value apart, since an or-pattern of numbers is split by ranges, and its goals then have no stable names.
#[inline(always)]
#[tactic(auto, using(crate::proofs::Questions::asked), unfolding(crate::specs::Questions::right))]
pub fn sound(f: Fields) -> bool
    ensures { result ≡ sound f }
{
    match f.kind {
        1 => no_lease(f),
        2 => payload_right(f),
        3 => no_lease(f) & (0 == f.number),
        4 => no_lease(f) & (0 == f.number),
        5 => no_lease(f) & (0 == f.version),
        6 => no_lease(f) & (0 == f.version),
        7 => no_lease(f),
        8 => no_lease(f),
        _ => false,
    }
}
