use crate::message::Message;
use crate::records::Copy;
use crate::tables::Tables;

// A step, by the number of its kind (01, "Steps"): 1 clock, 2 read, 3 ask, 4 write, 5 deliver, 6 lose, 7 double, 8 restart server, 9 restart client; by 02,
// A7, 10 save and 11 return, with the name in `place`. A field that its kind does not use is not asked about.
// Kept: the kind stays a number, since question 2 is about numbers that no kind has, and a run file keeps any byte (known_kinds::StepKind has the kinds).
#[derive(Clone, Copy)]
pub struct Step {
    pub kind: u8,
    pub client: u8,
    pub object: u8,
    pub place: u8,
    pub clock: u32,
    pub value: u64,
}

// What a step answers. 01's number and value of each are `answer_number` and `answer_value` of specs/Answers.antt.
#[derive(Clone, Copy)]
pub enum Answer {
    Done,
    Shown(u64),
    AskFirst,
    // how many writes completed, at least one
    Completed(u32),
    // the message that was delivered, and how many writes completed
    Delivered(Message, u32),
    // the number of the question that was answered "no"
    // Kept: the theorems speak of this number (`answer_value` of specs/Answers.antt, `refused_with` of specs/Decide.antt); `u8::from` makes it of a `Refusal`.
    Refused(u8),
}

// What becomes of the client's request: nothing, it takes the next number for an object, or it ends.
// Kept: three cases, so no shape of Option or Result; nor have the two types below one, with three cases and four.
#[derive(Clone, Copy)]
pub enum Turn {
    Keep,
    Take(u8),
    End,
}

// What becomes of one copy: nothing, it is filled with the copy that a GRANT stores, or it is erased.
#[derive(Clone, Copy)]
pub enum CopyChange {
    Keep,
    Fill(Copy),
    Erase,
}

// What becomes of all copies of one client: nothing, the expiries of one volume's objects become 0 (an OFFER was taken), those of a set are erased, bit k
// for object k (a BATCH was taken), or all are erased (a restart).
#[derive(Clone, Copy)]
pub enum Sweep {
    Keep,
    Expire(u8),
    Forget(u32),
    Erase,
}

// Whose records a step can touch, and where they lie in the lent lists: the client's request, its copy of one object, and its copies from the first.
#[derive(Clone, Copy)]
pub struct Target {
    pub client: usize,
    pub copy: usize,
    pub first: usize,
}

// What becomes of the client's records: of the one copy, of the request, and then of all the client's copies.
#[derive(Clone, Copy)]
pub struct Change {
    pub copy: CopyChange,
    pub request: Turn,
    pub sweep: Sweep,
}

#[derive(Clone, Copy)]
pub struct Outcome {
    pub answer: Answer,
    pub tables: Tables,
}

#[derive(Clone, Copy)]
pub struct Decision {
    pub change: Change,
    pub outcome: Outcome,
}
