// The two channels, and what a number names.
ghost use Rattle.std.specs.Prelude.{◌≡◌, ◌<◌, ◌^◌, Ok};
ghost use Rattle.base_types.specs.declared.channel.Channel.TheVariants.{A as Channel-as-A, B as Channel-as-B};
ghost use Rattle.base_types.specs.Channel.{number_of, start_of, named_by, refusal_number};

use refusal::Refusal;

#[derive(Clone, Copy, PartialEq, Eq)]
pub enum Channel {
    A,
    B,
}

// Refusal 1: a number that names no channel.
#[derive(Clone, Copy)]
pub struct NotAChannel;

impl Refusal for NotAChannel {
    ghost number_of = { refusal_number };

    fn number(self) -> u8 {
        1
    }
}

// Which channel a number names is said here and in the conversion back, and nowhere else.
impl TryFrom<u8> for Channel {
    type Error = NotAChannel;

    ghost try_from_gives = { λ number named. named ≡ named_by number };

    #[tactic(auto, unfolding(crate::specs::Channel::named_by, crate::specs::Channel::not_a_channel, crate::specs::Channel::channel_of))]
    fn try_from(number: u8) -> Result<Channel, NotAChannel> {
        match number {
            0 => Ok(Channel::A),
            1 => Ok(Channel::B),
            _ => Err(NotAChannel),
        }
    }
}

impl From<Channel> for u8 {
    ghost from_gives = { λ channel number. (number ≡ number_of channel) × (named_by number ≡ Ok channel) };

    #[tactic(auto, unfolding(crate::specs::Channel::named_by, crate::specs::Channel::not_a_channel, crate::specs::Channel::channel_of))]
    fn from(channel: Channel) -> u8 {
        match channel {
            Channel::A => 0,
            Channel::B => 1,
        }
    }
}

impl Channel {
    // The frame checksum's start value on each channel. They differ, so that crossed channels are noticed.
    pub const START_A: u32 = 0xFE_DCBA;

    pub const START_B: u32 = 0xAB_CDEF;

    // Both constants are their rule's (DECISIONS 108).
    fn constants()
        ensures a { Channel.START_A ≡ start_of Channel-as-A }
        ensures b { Channel.START_B ≡ start_of Channel-as-B }
    {}

    pub fn start(self) -> u32
        ensures { (result ≡ start_of self) × (result < 2 ^ 24) }
    {
        match self {
            Channel::A => Channel::START_A,
            Channel::B => Channel::START_B,
        }
    }
}
