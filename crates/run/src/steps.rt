// Runs the steps of a run file in order, on words and values that the run owns, those of the four saved states too.
ghost use Rattle.std.specs.Prelude.{◌+◌, ◌*◌, ◌≤◌, ◌≡◌, length};
ghost use Rattle.bytes_layout.specs.Written.{Written};
ghost use Rattle.file_reader.specs.File.{contents_of};
ghost use Rattle.run.specs.Ran.{lines_of};

use file_reader::Contents;
use file_records::sizes;
use state_words::saved::NAMES;
use state_words::{VALUES, WORDS};

// Runs the steps of an accepted file: "The tables start fresh, with no message and no copy. Each step gets tables, messages and lent records as the last
// one left them". Nothing is saved to begin with. Writes one line per step to the output from `at` on, which has room for them. The place in the file runs
// along, whether or not a step is refused: "keep a running place and add 16 after each". Returns the output offset after the last line.
pub fn run_steps(file: &[u8], c: Contents, out: &mut [u8], at: usize) -> usize
    requires c_value { Ok c ≡ contents_of file.now }
    requires count_in_bounds { at + 28 * c.count + 63 ≤ length out.old }
    ensures { Written out.old out.new at (lines_of c.setup file.now) result }
{
    let s = c.setup;
    let mut words = [0; WORDS];
    let mut values = [0; VALUES];
    let mut saved = [[0; WORDS]; NAMES];
    let mut saved_values = [[0; VALUES]; NAMES];
    state_words::fresh::fresh(&mut words, &mut values);
    let mut place = c.first;
    let mut next = at;
    for k in 0..c.count {
        let step = file_reader::step_at(file, place);
        let answer = run_saved::advance(
            s,
            &mut words,
            &mut values,
            &mut saved,
            &mut saved_values,
            step,
        );
        next = listing::write_line(out, next, u64::from(k + 1), answer);
        place += sizes::STEP;
    }
    next
}
