// Offsets of the fields between server and clients: the clock that all of them use, and the messages in transit.

// "clock 0" when fresh
pub const CLOCK: usize = 0;

// "Message list: at most 64": the number of messages
pub const LENGTH: usize = 1;

// "in sending order": a row for each place
pub const MESSAGES: usize = 2;

// in the values: one per message
pub const MESSAGE_VALUE: usize = 0;

// the number of words in a row
pub const ROW: usize = 9;
