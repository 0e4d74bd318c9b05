// The present state and the saved ones that the steps of a case are performed on.
ghost use Rattle.std.specs.Prelude.{◌<◌};
ghost use Rattle.protocol.specs.Saved.{names};

use state_words::saved::{NAMES, SavedValues, SavedWords};
use state_words::{VALUES, Values, WORDS, Words};

// One state: its words and values.
#[derive(Clone, Copy)]
pub struct State<'a> {
    pub words: &'a Words,
    pub values: &'a Values,
}

// The present state, and the one under each name.
#[derive(Clone, Copy)]
pub struct States {
    pub words: Words,
    pub values: Values,
    pub saved: SavedWords,
    pub saved_values: SavedValues,
}

impl States {
    // Returns fresh states. None is there under a name.
    pub fn fresh() -> States {
        let mut words = [0u32; WORDS];
        let mut values = [0u64; VALUES];
        state_words::fresh::fresh(&mut words, &mut values);
        States {
            words,
            values,
            saved: [words; NAMES],
            saved_values: [values; NAMES],
        }
    }

    // Returns the present state.
    pub fn present(&self) -> State<'_> {
        State {
            words: &self.words,
            values: &self.values,
        }
    }

    // Returns the state under a name.
    pub fn named(&self, name: usize) -> State<'_>
        requires { name < names }
    {
        State {
            words: &self.saved[name],
            values: &self.saved_values[name],
        }
    }
}
