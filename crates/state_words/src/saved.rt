// Four saved states beside the present one (02, A7), each in words and values of its own.
use crate::{Values, Words};

// "Give four named states, 0 to 3"
pub const NAMES: usize = 4;

pub type SavedWords = [Words; NAMES];

pub type SavedValues = [Values; NAMES];

// the last word: nonzero in the words of a saved state, so that a name that was never saved is known
pub const SAVED: usize = 3274;
