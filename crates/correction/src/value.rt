// What an ID adds to a midpoint: one value for the offset, one for the rate, or none.
ghost use Rattle.std.specs.Prelude.{◌≡◌};
ghost use Rattle.base_types.specs.Microtick.{held};
ghost use Rattle.correction.specs.Values.{smaller as values_smaller, difference_by, joined as values_joined, offset_value, rate_value_by};

use base_types::SignedMicrotick;

// The deviations of an ID in one cycle, one for each channel that it was measured on. (No array: 01 and the rules name each channel.)
#[derive(Clone, Copy)]
pub struct Deviations {
    pub on_a: Option<SignedMicrotick>,
    pub on_b: Option<SignedMicrotick>,
}

// The offset value of an ID: the smaller of its deviations, by sign.
pub fn offset_value(deviations: Deviations) -> Option<SignedMicrotick>
    ensures { result ≡ offset_value deviations }
{
    smaller(deviations.on_a, deviations.on_b)
}

// The rate value of an ID: odd minus even on each channel with both, and of two channels half the sum.
pub fn rate_value(odd: Deviations, even: Deviations) -> Option<SignedMicrotick>
    ensures { result ≡ rate_value_by held odd even }
{
    let on_a = difference(odd.on_a, even.on_a);
    let on_b = difference(odd.on_b, even.on_b);
    joined(on_a, on_b)
}

// (The numbers are compared: for this one place an order of the type would promise more than is used.)
fn smaller(one: Option<SignedMicrotick>, other: Option<SignedMicrotick>) -> Option<SignedMicrotick>
    ensures { result ≡ values_smaller one other }
{
    match (one, other) {
        (Some(x), Some(y)) => Some(if y.0 < x.0 { y } else { x }),
        _ => one.or(other),
    }
}

fn difference(
    odd: Option<SignedMicrotick>,
    even: Option<SignedMicrotick>,
) -> Option<SignedMicrotick>
    ensures { result ≡ difference_by held odd even }
{
    let (x, y) = odd.zip(even)?;
    Some(SignedMicrotick::holding(i64::from(x.0) - i64::from(y.0)))
}

fn joined(on_a: Option<SignedMicrotick>, on_b: Option<SignedMicrotick>) -> Option<SignedMicrotick>
    ensures { result ≡ values_joined on_a on_b }
{
    match (on_a, on_b) {
        (Some(x), Some(y)) => Some(SignedMicrotick(midpoint::half_sum(x.0, y.0))),
        _ => on_a.or(on_b),
    }
}
