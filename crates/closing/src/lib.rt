// A cycle closed, with both terms worked out (document 01, "Clock").
//
// Entry: `close_cycle` on a clock state and two external controls. It takes whatever comes and gives an answer and a clock state.
#![tactic(auto)]

ghost use Rattle.std.specs.Prelude.{◌≡◌, true};
ghost use Rattle.correction.specs.External.{sign_of};
ghost use Rattle.clock.specs.Sound.{sound};
ghost use Rattle.closing.specs.declared.CloseRefusal.TheVariants.{NotAControl as CloseRefusal-as-NotAControl};
ghost use Rattle.closing.specs.Closing.{number_of, offset_found, rate_found, report_of, closed_with, ControlsSays, CloseSays, no_report};

use base_types::SignedMicrotick;
use clock::Clock;
use correction::{Control, NotAControl, Term};
use refusal::{Answered, Refusal};
use settings::{Field, Mark};

// What a closed cycle reports. (Flat: terms and flags, as 01 lists them.)
#[derive(Clone, Copy)]
pub struct Report {
    pub offset: SignedMicrotick,
    pub rate: SignedMicrotick,
    pub offset_missing: bool,
    pub rate_missing: bool,
    pub offset_limited: bool,
    pub rate_limited: bool,
    // How many different IDs were measured.
    pub ids: usize,
    // That of the settings by which all this was worked out.
    pub mark: Mark,
}

impl Report {
    // All zeros, all flags clear: what stands beside a refusal.
    pub const NONE: Report = Report {
        offset: SignedMicrotick(0),
        rate: SignedMicrotick(0),
        offset_missing: false,
        rate_missing: false,
        offset_limited: false,
        rate_limited: false,
        ids: 0,
        mark: Mark(0),
    };

    // The constant is its rule's (DECISIONS 108).
    fn constants()
        ensures { Report.NONE ≡ no_report }
    {}
}

// Why a cycle is not closed.
#[derive(Clone, Copy)]
pub enum CloseRefusal {
    NotSound,
    NoCycleOpen,
    NotAControl,
}

impl Refusal for CloseRefusal {
    ghost number_of = { number_of };

    fn number(self) -> u8 {
        match self {
            CloseRefusal::NotSound => 23,
            CloseRefusal::NoCycleOpen => 18,
            CloseRefusal::NotAControl => 21,
        }
    }
}

impl From<NotAControl> for CloseRefusal {
    ghost from_gives = { λ _ refusal. refusal ≡ CloseRefusal-as-NotAControl };

    fn from(_refusal: NotAControl) -> CloseRefusal {
        CloseRefusal::NotAControl
    }
}

// Closes the open cycle. With a refusal the state is the one handed in.
#[tactic(auto, unfolding(refusal::specs::Refusal::first))]
pub fn close_cycle(
    clock: Clock,
    offset_control: i32,
    rate_control: i32,
) -> Answered<Report, CloseRefusal, Clock>
    ensures { CloseSays clock offset_control rate_control result }
{
    match controls(clock, offset_control, rate_control) {
        Ok((offset, rate)) => {
            let found = rate_found(clock);
            let report = report_of(clock, found, offset, rate);
            Answered::accepted(report, closed_with(clock, found.value))
        }
        Err(refusal) => Answered::refused(refusal, clock),
    }
}

// Both controls, where the cycle may be closed. The tests come in 01's order. (No clock state is returned here: it is large, and each return copies
// it, DECISIONS 203.)
#[tactic(auto, unfolding(refusal::specs::Refusal::first))]
fn controls(
    clock: Clock,
    offset_control: i32,
    rate_control: i32,
) -> Result<(Control, Control), CloseRefusal>
    ensures { ControlsSays clock offset_control rate_control result }
{
    if !clock::is_sound(clock) {
        return Err(CloseRefusal::NotSound);
    }
    if clock.opened.is_none() {
        return Err(CloseRefusal::NoCycleOpen);
    }
    let offset = Control::try_from(offset_control)?;
    let rate = Control::try_from(rate_control)?;
    Ok((offset, rate))
}

// The offset term, without its external term.
fn offset_found(clock: Clock) -> Term
    ensures { result ≡ offset_found clock }
{
    let settings = clock.settings;
    let list = clock.list_of(clock.current_cycle());
    let values = list_values::offset_values(list);
    correction::offset_term(
        values,
        settings.sends_sync,
        settings.get(Field::OffsetLimit),
    )
}

// The rate term, without its external term: in an even cycle it is the stored rate.
fn rate_found(clock: Clock) -> Term
    requires { sound clock ≡ true }
    ensures { result ≡ rate_found clock }
{
    if !clock.current_cycle().is_odd() {
        return Term {
            value: clock.rate,
            is_missing: false,
            is_limited: false,
        };
    }
    let settings = clock.settings;
    let values = list_values::rate_values(clock.odd, clock.even);
    correction::rate_term(
        values,
        settings.sends_sync,
        clock.rate,
        settings.get(Field::DriftDamping),
        settings.get(Field::RateLimit),
    )
}

// The report, with the external term added to each term last. The rate term is handed in, since the stored rate is taken from it too.
fn report_of(clock: Clock, rate: Term, offset_control: Control, rate_control: Control) -> Report
    requires { (sound clock ≡ true) × (rate ≡ rate_found clock) }
    ensures { result ≡ report_of clock (sign_of offset_control) (sign_of rate_control) }
{
    let settings = clock.settings;
    let list = clock.list_of(clock.current_cycle());
    let offset = offset_found(clock);
    let offset_reported = correction::with_external(
        offset.value,
        offset_control,
        settings.get(Field::ExternalOffsetUnit),
    );
    let rate_reported = correction::with_external(
        rate.value,
        rate_control,
        settings.get(Field::ExternalRateUnit),
    );
    Report {
        offset: offset_reported,
        rate: rate_reported,
        offset_missing: offset.is_missing,
        rate_missing: rate.is_missing,
        offset_limited: offset.is_limited,
        rate_limited: rate.is_limited,
        ids: list.count,
        mark: settings.mark,
    }
}

// The state with the cycle closed, and with this stored rate.
fn closed_with(clock: Clock, rate: SignedMicrotick) -> Clock
    ensures { result ≡ closed_with clock rate }
{
    Clock {
        opened: None,
        last_closed: Some(clock.current_cycle()),
        rate,
        ..clock
    }
}
