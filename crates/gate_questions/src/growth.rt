// Question 6 at the gate (01, "Questions at the gate"): the numbers that the step increases can grow. Reads the words, not the values.
ghost use Rattle.std.specs.Prelude.{true, ◌≡◌, ℕ, ◌≤◌};
ghost use Rattle.laws.specs.Loop.{all_from};
ghost use Rattle.protocol.specs.Setup.{in_range};
ghost use Rattle.protocol.specs.Sound.{can_grow};
ghost use Rattle.protocol.specs.Tables.{epoch_at, version_at};
ghost use Rattle.protocol.specs.Gate.{growable};
ghost use Rattle.state_words.specs.View.{numbers_of};
ghost use Rattle.setup.specs.Limits.{VOLUMES};

use known_kinds::StepKind;
use protocol::records::Request;
use protocol::setup::Setup;
use protocol::step::Step;
use setup::limits;
use state_words::{Words, server};

// Returns whether the object's version can grow: "Is the version .. that must grow below 4,294,967,295?" An object that has no place in the words passes.
fn version_grows(words: &Words, object: usize) -> bool
    ensures { result ≡ can_grow (version_at (numbers_of words.now) object) }
{
    if object < limits::SLOTS {
        return words[server::VERSION + object] < limits::LARGEST;
    }
    true
}

// Returns whether the epochs of the first n volumes can all grow: "Is .. every epoch .. that must grow below 4,294,967,295?"
fn epochs_grow(words: &Words, n: usize) -> bool
    requires { n ≤ VOLUMES }
    ensures { result ≡ all_from (λ (v : ℕ). can_grow (epoch_at (numbers_of words.now) v)) 0 n }
{
    let mut ok = true;
    for volume in 0..n {
        ok &= words[server::VOLUME_EPOCH + volume] < limits::LARGEST;
    }
    ok
}

// Answers question 6: a write increases a version, a server restart every epoch, an ask the client's next request number. Other steps pass.
pub fn growable(setup: Setup, words: &Words, request: Request, step: Step) -> bool
    requires { in_range setup ≡ true }
    ensures { result ≡ growable setup (numbers_of words.now) request step }
{
    match StepKind::try_from(step.kind) {
        Ok(StepKind::Write) => version_grows(words, usize::from(step.object)),
        Ok(StepKind::RestartServer) => epochs_grow(words, setup.volumes as usize),
        Ok(StepKind::Ask) => request.next < limits::LARGEST,
        _ => true,
    }
}
