// Settings loaded.
ghost use Rattle.std.specs.Prelude.{◌≡◌};
ghost use Rattle.clock.specs.Loading.{told, LoadSays};

use crate::state::Clock;
use refusal::Answered;
use settings::{SettingOutOfRange, Settings};

// Loads settings. The state is made of them alone: nothing that was measured or stored before is in it. With a refusal it is all
// zeros.
#[tactic(auto, unfolding(refusal::specs::Refusal::first))]
pub fn load(settings: Settings) -> Answered<(), SettingOutOfRange, Clock>
    ensures { LoadSays settings result }
{
    match settings.checked() {
        Ok(()) => Answered::accepted((), Clock::fresh(settings)),
        Err(refusal) => Answered::refused(refusal, Clock::none()),
    }
}

// The field number that an answer tells: the first out of range, and 0 where the settings are loaded.
pub fn field_told(answer: Result<(), SettingOutOfRange>) -> u8
    ensures { result ≡ (told answer).field }
{
    match answer {
        Ok(()) => 0,
        Err(SettingOutOfRange(field)) => field,
    }
}
