// The types of 02, A8: why a read is answered "ask first".
ghost use Rattle.std.specs.Prelude.{◌≡◌};
ghost use Rattle.promises.specs.Reasons.Numbers.{number_of};

// Why a read is answered "ask first": what happened last to the client's copy of the object or, after a grant, which of the two leases ran out first.
#[derive(Clone, Copy, PartialEq, Eq)]
pub enum Why {
    // 0: a step that erases no copy has no cause
    // Kept: a case and no Option, since `event_of` is `Erased` of the cause, whatever the step is.
    NoCause,
    // 1: nothing was granted
    NeverGranted,
    // 2: an INVALIDATE erased the copy
    CopyInvalidated,
    // 3: an OFFER ended the copy's lease, or a BATCH erased the copy
    LeasesDropped,
    // 4: the client restarted
    ClientRestarted,
    // 5: the lease on the volume ran out first, or both at once
    VolumeLeaseRanOut,
    // 6: the lease on the object ran out first
    ObjectLeaseRanOut,
}

impl From<Why> for u8 {
    ghost from_gives = { λ why n. n ≡ number_of why };

    // Returns the reason's number: "They are 1 to 6 in that order". No cause is 0.
    fn from(why: Why) -> u8 {
        match why {
            Why::NoCause => 0,
            Why::NeverGranted => 1,
            Why::CopyInvalidated => 2,
            Why::LeasesDropped => 3,
            Why::ClientRestarted => 4,
            Why::VolumeLeaseRanOut => 5,
            Why::ObjectLeaseRanOut => 6,
        }
    }
}

// What a step did to a client's copy of an object: a GRANT filled it, or it was erased, with the reason: one of 2 to 4.
#[derive(Clone, Copy)]
pub enum Event {
    Granted,
    Erased(Why),
}

// The last event, with the number of its step.
#[derive(Clone, Copy)]
pub struct Last {
    pub event: Event,
    pub step: u32,
}

// The last event of the present state, if there was one, and that of each saved state (02, A7); of a name that was never saved it means nothing.
#[derive(Clone, Copy)]
pub struct Lasts {
    pub now: Option<Last>,
    pub saved: [Option<Last>; 4],
}

// The reason for a read answered "ask first", and the number of the event's step, or 0 where nothing was granted.
// Kept: 0 for no step: "It also names that event's step, or 0", and the theorem `Explains` says that number.
#[derive(Clone, Copy)]
pub struct Reason {
    pub why: Why,
    pub step: u32,
}
