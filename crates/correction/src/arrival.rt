// How far a frame came from its expected time.
ghost use Rattle.std.specs.Prelude.{◌≡◌};
ghost use Rattle.base_types.specs.Microtick.{held};
ghost use Rattle.correction.specs.Deviation.{deviation as deviation_deviation};

use base_types::{Microtick, SignedMicrotick};

// The deviation of a frame: below zero where it came early. `correction` is the decoding correction, `delay` that of its channel.
pub fn deviation(
    observed: Microtick,
    correction: u32,
    delay: u32,
    action_point: Microtick,
) -> SignedMicrotick
    ensures { result.0 ≡ held (deviation_deviation observed.0 correction delay action_point.0) }
{
    let sent = i64::from(observed.0) - i64::from(correction) - i64::from(delay);
    let wide = sent - i64::from(action_point.0);
    SignedMicrotick::holding(wide)
}
