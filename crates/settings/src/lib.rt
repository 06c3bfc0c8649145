// The settings sheet of a node (document 01, "Settings sheet"): eleven numbers, each with its range, a yes or no, and the mark that names
// the sheet (document 02, C-17).
//
// For the crates above: `Settings`, which holds any numbers, `Field`, a name for each field, `checked`, by which an entry refuses a sheet, with
// `SettingOutOfRange`, and `Mark`, which measurements and reports carry.
#![tactic(auto)]

ghost use Rattle.std.specs.Prelude.{◌≡◌, ◌<◌, IfSome};
ghost use Rattle.std.specs.List.{position_from, zip};
ghost use Rattle.settings.specs.Sheet.{field_count, ranges, within, misfit, no_settings, value_of, first_out_of_range, checked, refusal_number};

use refusal::Refusal;

// How many fields have a range.
pub const FIELDS: usize = 11;

// The constant is its rule's (DECISIONS 108).
fn constants()
    ensures { FIELDS ≡ field_count }
{}

// 01's fields in their order, field 1 first.
#[derive(Clone, Copy, PartialEq, Eq)]
pub enum Field {
    DecodingCorrection,
    DelayA,
    DelayB,
    SyncIdLimit,
    OffsetLimit,
    RateLimit,
    DriftDamping,
    ExternalOffsetUnit,
    ExternalRateUnit,
    StaticPayloadWords,
    StaticSlots,
}

#[derive(Clone, Copy)]
pub struct Settings {
    // Field 1 stands first.
    pub fields: [u32; FIELDS],
    // Whether this node sends a sync frame.
    pub sends_sync: bool,
    pub mark: Mark,
}

// The mark of a sheet: any number. It has no range, and nothing is worked out with it; it is a type so that no limit or delay can stand
// in its place.
#[derive(Clone, Copy, PartialEq, Eq)]
pub struct Mark(pub u32);

// Refusal 17: the number of the first field out of its range, counted from 1. (A number and no `Field`: it is what 01 returns with 17.)
#[derive(Clone, Copy)]
pub struct SettingOutOfRange(pub u8);

impl Refusal for SettingOutOfRange {
    ghost number_of = { refusal_number };

    fn number(self) -> u8 {
        17
    }
}

#[derive(Clone, Copy)]
pub struct Range {
    pub lowest: u32,
    pub highest: u32,
}

// The range of each field, field 1 first.
const RANGES: [Range; FIELDS] = [
    // Decoding correction
    Range {
        lowest: 0,
        highest: 255,
    },
    // Delay A
    Range {
        lowest: 0,
        highest: 255,
    },
    // Delay B
    Range {
        lowest: 0,
        highest: 255,
    },
    // Sync ID limit
    Range {
        lowest: 2,
        highest: 15,
    },
    // Offset limit
    Range {
        lowest: 0,
        highest: 20_000,
    },
    // Rate limit
    Range {
        lowest: 0,
        highest: 4_000,
    },
    // Drift damping
    Range {
        lowest: 0,
        highest: 20,
    },
    // External offset unit
    Range {
        lowest: 0,
        highest: 31,
    },
    // External rate unit
    Range {
        lowest: 0,
        highest: 31,
    },
    // Static payload words
    Range {
        lowest: 0,
        highest: 127,
    },
    // Static slots
    Range {
        lowest: 2,
        highest: 1_023,
    },
];

impl Range {
    // Both ends belong to a range.
    fn holds(self, value: u32) -> bool
        ensures { result ≡ within self value }
    {
        (self.lowest..=self.highest).contains(&value)
    }
}

impl Settings {
    // All zeros: what stands beside a refusal.
    pub fn none() -> Settings
        ensures { result ≡ no_settings }
    {
        Settings {
            fields: [0; FIELDS],
            sends_sync: false,
            mark: Mark(0),
        }
    }

    pub fn get(self, field: Field) -> u32
        ensures { result ≡ value_of field self }
    {
        self.fields[field as usize]
    }

    // The place of the first field out of its range, counted from 0.
    fn first_misfit(self) -> Option<usize>
        ensures place { result ≡ position_from misfit 0 (zip ranges self.fields) }
        ensures low { IfSome result (λ place. place < field_count) }
    {
        RANGES
            .iter()
            .zip(self.fields.iter())
            .position(|(range, value)| !range.holds(*value))
    }

    // The number of the first field out of its range, counted from 1.
    pub fn first_out_of_range(self) -> Option<u8>
        ensures { result ≡ first_out_of_range self }
    {
        self.first_misfit().map(|place| place as u8 + 1)
    }

    // Refusal 17.
    pub fn checked(self) -> Result<(), SettingOutOfRange>
        ensures { result ≡ checked self }
    {
        match self.first_out_of_range() {
            Some(number) => Err(SettingOutOfRange(number)),
            None => Ok(()),
        }
    }
}
