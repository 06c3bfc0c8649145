// The external term, which a host may add to each reported term.
ghost use Rattle.std.specs.Prelude.{◌≡◌};
ghost use Rattle.base_types.specs.Microtick.{held};
ghost use Rattle.correction.specs.External.{control_named, refusal_number, sign_of, external_term, with_external};

use base_types::SignedMicrotick;
use refusal::Refusal;

// What a host asks of a term: a unit less, nothing, or a unit more.
#[derive(Clone, Copy)]
pub enum Control {
    Less,
    Same,
    More,
}

// Refusal 21: a number that is no control.
#[derive(Clone, Copy)]
pub struct NotAControl;

impl Refusal for NotAControl {
    ghost number_of = { refusal_number };

    fn number(self) -> u8 {
        21
    }
}

// The control that 01 gives a number.
impl TryFrom<i32> for Control {
    type Error = NotAControl;

    ghost try_from_gives = { λ number named. named ≡ control_named number };

    fn try_from(number: i32) -> Result<Control, NotAControl> {
        match number {
            -1 => Ok(Control::Less),
            0 => Ok(Control::Same),
            1 => Ok(Control::More),
            _ => Err(NotAControl),
        }
    }
}

// The control times the external unit.
fn external_term(control: Control, unit: u32) -> i64
    ensures { result ≡ external_term (sign_of control) unit }
{
    let wide = i64::from(unit);
    match control {
        Control::Less => -wide,
        Control::Same => 0,
        Control::More => wide,
    }
}

// A term with its external term. It is not limited again, and what is stored is without it.
pub fn with_external(term: SignedMicrotick, control: Control, unit: u32) -> SignedMicrotick
    ensures { result.0 ≡ held (with_external term.0 (sign_of control) unit) }
{
    SignedMicrotick::holding(i64::from(term.0) + external_term(control, unit))
}
