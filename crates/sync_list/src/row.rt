// A row: an ID, and what was measured of it on each channel.
ghost use Rattle.std.specs.Prelude.{◌≡◌};
ghost use Rattle.sync_list.specs.Rows.{blank as rows_blank, on as rows_on, with_measured, deviations_of};

use base_types::{Channel, SignedMicrotick, Slot};
use correction::Deviations;
use settings::Mark;

#[derive(Clone, Copy)]
pub struct Measurement {
    pub deviation: SignedMicrotick,
    // That of the settings that it was taken under.
    pub mark: Mark,
}

// An ID, and what was measured of it on each channel. (No array: 01 and the rules name each channel.)
#[derive(Clone, Copy)]
pub struct Row {
    pub id: Slot,
    pub on_a: Option<Measurement>,
    pub on_b: Option<Measurement>,
}

impl Row {
    // The row of an ID that is not measured.
    pub fn blank(id: Slot) -> Row
        ensures { result ≡ rows_blank id }
    {
        Row {
            id,
            on_a: None,
            on_b: None,
        }
    }

    // What was measured on a channel.
    pub(crate) fn on(self, channel: Channel) -> Option<Measurement>
        ensures { result ≡ rows_on channel self }
    {
        match channel {
            Channel::A => self.on_a,
            Channel::B => self.on_b,
        }
    }

    // The row with a measurement on a channel.
    pub(crate) fn with(self, channel: Channel, measurement: Measurement) -> Row
        ensures { result ≡ with_measured channel measurement self }
    {
        match channel {
            Channel::A => Row {
                on_a: Some(measurement),
                ..self
            },
            Channel::B => Row {
                on_b: Some(measurement),
                ..self
            },
        }
    }

    pub fn deviations(self) -> Deviations
        ensures { result ≡ deviations_of self }
    {
        Deviations {
            on_a: self.on_a.map(|measurement| measurement.deviation),
            on_b: self.on_b.map(|measurement| measurement.deviation),
        }
    }
}
