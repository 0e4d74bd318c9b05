// Why a call refuses: the question that was answered "no" (01 and 02), with its number.
ghost use Rattle.std.specs.Prelude.{◌≡◌};
ghost use Rattle.protocol.specs.Refusals.{number_of};

#[derive(Clone, Copy, PartialEq, Eq)]
pub enum Refusal {
    // 1: setup or tables are not sound
    Unsound,
    // 2: the step's kind is unknown
    Kind,
    // 3: a client, an object or a place that the step uses does not exist
    Missing,
    // 4: the time is not from the clock to the last clock
    Clock,
    // 5: a write stands there already
    Standing,
    // 6: a number that must grow cannot
    Growth,
    // 7: the setup is out of range
    Setup,
    // 8: the bytes are not a frame, or the fields are not a message's
    Frame,
    // 8: the output is too short
    Room,
    // 9: the bytes are not a run file
    File,
    // 10: the parts make no run file
    Parts,
    // 11: no state has this name
    Name,
}

impl From<Refusal> for u8 {
    ghost from_gives = { λ r n. n ≡ number_of r };

    // Returns the refusal's number in 01 or 02.
    fn from(refusal: Refusal) -> u8 {
        match refusal {
            Refusal::Unsound => 1,
            Refusal::Kind => 2,
            Refusal::Missing => 3,
            Refusal::Clock => 4,
            Refusal::Standing => 5,
            Refusal::Growth => 6,
            Refusal::Setup => 7,
            Refusal::Frame => 8,
            Refusal::Room => 8,
            Refusal::File => 9,
            Refusal::Parts => 10,
            Refusal::Name => 11,
        }
    }
}
