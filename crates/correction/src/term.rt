// Both terms, as they are found: before the external term is added.
ghost use Rattle.std.specs.Prelude.{◌≡◌, ◌+ℤ◌};
ghost use Rattle.base_types.specs.Microtick.{held};
ghost use Rattle.correction.specs.Terms.{most_ids, values_in, middle_of, missing as terms_missing, damped as terms_damped, limited as terms_limited, offset_term, rate_term_by};

use base_types::SignedMicrotick;

// The most IDs that a list holds: the highest value of field 4.
pub const MOST_IDS: usize = 15;

// The constant is its rule's (DECISIONS 108).
fn constants()
    ensures { MOST_IDS ≡ most_ids }
{}

// The values that a midpoint is taken of: the first `count` numbers. There is room for this node's own zero behind them. Fixed memory and a
// count, and no `Vec`: no entry may fail for lack of memory.
#[derive(Clone, Copy)]
pub struct Values {
    pub numbers: [i32; midpoint::MOST],
    pub count: usize,
}

// A missing term has a value too, so this is no Option: the stored rate stands for a missing rate. A limited one has its
// limit.
#[derive(Clone, Copy)]
pub struct Term {
    pub value: SignedMicrotick,
    pub is_missing: bool,
    pub is_limited: bool,
}

// The offset term, by the offset value of each ID.
pub fn offset_term(values: Values, sends_sync: bool, limit: u32) -> Term
    ensures { result ≡ offset_term (values_in values) sends_sync limit }
{
    let Some(middle) = values.middle(sends_sync) else {
        return Term::missing(SignedMicrotick(0));
    };
    Term::limited(middle, limit)
}

// The rate term, by the rate value of each ID. Where there is none the stored rate stays as it is.
pub fn rate_term(
    values: Values,
    sends_sync: bool,
    stored: SignedMicrotick,
    damping: u32,
    limit: u32,
) -> Term
    ensures { result ≡ rate_term_by held (values_in values) sends_sync stored.0 damping limit }
{
    let Some(middle) = values.middle(sends_sync) else {
        return Term::missing(stored);
    };
    let rate = sum(middle, stored);
    Term::limited(damped(rate, damping), limit)
}

impl Values {
    // The midpoint of the values, with one value 0 more where this node sends sync; none where there is no value. A count that leaves no
    // room for the own zero counts as none: no list of a clock state gives one.
    fn middle(self, sends_sync: bool) -> Option<SignedMicrotick>
        ensures { result ≡ middle_of sends_sync (values_in self) }
    {
        if self.count == 0 || MOST_IDS < self.count {
            return None;
        }
        let mut numbers = self.numbers;
        numbers[self.count] = 0;
        let taken = self.count + usize::from(sends_sync);
        Some(SignedMicrotick(midpoint::midpoint(numbers, taken)))
    }
}

impl Term {
    // A term that is missing, with what stands for it.
    fn missing(value: SignedMicrotick) -> Term
        ensures { result ≡ terms_missing value.0 }
    {
        Term {
            value,
            is_missing: true,
            is_limited: false,
        }
    }

    // The term x, set to the limit that it lies outside of, and whether it does.
    fn limited(x: SignedMicrotick, limit: u32) -> Term
        ensures { result ≡ terms_limited limit x.0 }
    {
        let highest = i64::from(limit);
        let within = i64::from(x.0).clamp(-highest, highest);
        Term {
            value: SignedMicrotick(within as i32),
            is_missing: false,
            is_limited: limit < x.amount(),
        }
    }
}

// The sum of both, as the signed type holds it.
fn sum(x: SignedMicrotick, y: SignedMicrotick) -> SignedMicrotick
    ensures { result.0 ≡ held (x.0 +ℤ y.0) }
{
    SignedMicrotick::holding(i64::from(x.0) + i64::from(y.0))
}

// Brings x toward zero by d.
fn damped(x: SignedMicrotick, d: u32) -> SignedMicrotick
    ensures { result.0 ≡ terms_damped d x.0 }
{
    let rate = i64::from(x.0);
    let damping = i64::from(d);
    if damping < rate {
        return SignedMicrotick((rate - damping) as i32);
    }
    if rate < -damping {
        return SignedMicrotick((rate + damping) as i32);
    }
    SignedMicrotick(0)
}
