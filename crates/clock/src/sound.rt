// Soundness of a clock state: a host may hand in any.
ghost use Rattle.std.specs.Prelude.{◌≡◌};
ghost use Rattle.clock.specs.Sound.{cycle_sound, rate_sound, sound};

use crate::state::Clock;
use base_types::{Cycle, SignedMicrotick};
use settings::Field;

// Soundness as 01 writes it, clause by clause, with that of 02 (C-17) on marks, of the lists that the rows stand for. It is no stricter:
// refusal 23 is given exactly where a state is not sound. What is asked of rows besides is that they stand for a list at all.
pub fn is_sound(clock: Clock) -> bool
    ensures { result ≡ sound clock }
{
    let settings = clock.settings;
    let limit = settings.get(Field::SyncIdLimit);
    settings.first_out_of_range().is_none()
        && cycle_sound(clock.opened)
        && cycle_sound(clock.last_closed)
        && list_soundness::is_sound(&clock.even, limit, settings.mark)
        && list_soundness::is_sound(&clock.odd, limit, settings.mark)
        && rate_sound(clock.rate, settings.get(Field::RateLimit))
}

// Whether a cycle is at most the highest, where there is one.
fn cycle_sound(cycle: Option<Cycle>) -> bool
    ensures { result ≡ cycle_sound cycle }
{
    cycle.is_none_or(|number| !number.is_too_high())
}

// Whether a stored rate is within its limit.
fn rate_sound(rate: SignedMicrotick, limit: u32) -> bool
    ensures { result ≡ rate_sound rate limit }
{
    rate.amount() <= limit
}
