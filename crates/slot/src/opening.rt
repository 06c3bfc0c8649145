// A slot opened.
ghost use Rattle.std.specs.Prelude.{◌≡◌};
ghost use Rattle.slot.specs.declared.opening.OpenRefusal.TheVariants.{SettingOutOfRange as OpenRefusal-as-SettingOutOfRange, NotAChannel as OpenRefusal-as-NotAChannel};
ghost use Rattle.slot.specs.Opening.{number_of, field_of, told, OpenSays, OpensTo};

use crate::status::Status;
use base_types::{Channel, Cycle, NotAChannel, Slot};
use refusal::{Answered, Refusal};
use settings::{SettingOutOfRange, Settings};

#[derive(Clone, Copy)]
pub enum OpenRefusal {
    // With the number of the first field out of range.
    SettingOutOfRange(u8),
    NotAChannel,
    NotASlot,
    CycleTooHigh,
}

impl Refusal for OpenRefusal {
    ghost number_of = { number_of };

    fn number(self) -> u8 {
        match self {
            OpenRefusal::SettingOutOfRange(_) => 17,
            OpenRefusal::NotAChannel => 1,
            OpenRefusal::NotASlot => 9,
            OpenRefusal::CycleTooHigh => 11,
        }
    }
}

impl From<SettingOutOfRange> for OpenRefusal {
    ghost from_gives = { λ setting refusal. refusal ≡ OpenRefusal-as-SettingOutOfRange setting.0 };

    fn from(setting: SettingOutOfRange) -> OpenRefusal {
        OpenRefusal::SettingOutOfRange(setting.0)
    }
}

impl From<NotAChannel> for OpenRefusal {
    ghost from_gives = { λ _ refusal. refusal ≡ OpenRefusal-as-NotAChannel };

    fn from(_refusal: NotAChannel) -> OpenRefusal {
        OpenRefusal::NotAChannel
    }
}

impl OpenRefusal {
    // The number of the first field out of range, 0 unless that is the refusal. (0 and no Option: 01 tells 0.)
    pub fn field(self) -> u8
        ensures { result ≡ field_of self }
    {
        let OpenRefusal::SettingOutOfRange(field) = self else {
            return 0;
        };
        field
    }
}

// The field number that an answer tells: that of its refusal, and 0 where the slot is opened.
pub fn field_told(answer: Result<(), OpenRefusal>) -> u8
    ensures { result ≡ (told answer).field }
{
    match answer {
        Ok(()) => 0,
        Err(refusal) => refusal.field(),
    }
}

// What opening a slot answers, and the status beside it.
pub type Opened = Answered<(), OpenRefusal, Status>;

// Opens a slot; with a refusal the status is all zeros.
pub fn open_slot(settings: Settings, channel: u8, slot: Slot, cycle: Cycle) -> Opened
    ensures { OpenSays settings channel slot cycle result }
{
    match opened(settings, channel, slot, cycle) {
        Ok(status) => Answered::accepted((), status),
        Err(refusal) => Answered::refused(refusal, Status::none()),
    }
}

// The status of a slot that is opened. The tests come in 01's order.
#[tactic(auto, unfolding(refusal::specs::Refusal::first, base_types::specs::Channel::named_by, base_types::specs::Channel::not_a_channel, base_types::specs::Channel::channel_of))]
fn opened(settings: Settings, channel: u8, slot: Slot, cycle: Cycle) -> Result<Status, OpenRefusal>
    ensures { OpensTo settings channel slot cycle result }
{
    settings.checked()?;
    let named = Channel::try_from(channel)?;
    if slot.is_not_an_id() {
        return Err(OpenRefusal::NotASlot);
    }
    if cycle.is_too_high() {
        return Err(OpenRefusal::CycleTooHigh);
    }
    Ok(Status::fresh(settings, named, slot, cycle))
}
