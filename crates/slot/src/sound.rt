// Soundness of a status: a host may hand in any.
ghost use Rattle.std.specs.Prelude.{◌≡◌};
ghost use Rattle.slot.specs.Judging.{place_of};
ghost use Rattle.slot.specs.Sound.{would_open, could_be_read, keeps_well, sound};

use crate::content;
use crate::status::{Reason, Status};
use header::Header;

// Soundness as 01 writes it, clause by clause, with those of 02: on reason (f) (C-15) and on the two checksums (C-18). It is no stricter: refusal
// 23 is given exactly where a status is not sound. (Joined by `&`: with `&&` the search stops at a limit.)
pub fn is_sound(status: Status) -> bool
    ensures { result ≡ sound status }
{
    let is_second = matches!(status.reason, Some(Reason::SecondGoodFrame));
    would_open(status)
        & (status.content_error == status.reason.is_some())
        & (status.valid == status.kept.is_some())
        & keeps_well(status)
        & (!is_second | status.valid)
        & (status.checksums.is_none() | status.syntax_error)
        & (status.conflict == (status.own_sending & status.has_arrival()))
}

// Whether its settings, slot and cycle would open a slot. Its channel would: it is one.
#[tactic(auto, unfolding(refusal::specs::Refusal::first, base_types::specs::Channel::not_a_channel))]
fn would_open(status: Status) -> bool
    ensures { result ≡ would_open (place_of status) }
{
    status.settings.checked().is_ok() && !status.slot.is_not_an_id() && !status.cycle.is_too_high()
}

// Whether a kept frame is one that a read could give and passes (a) to (e).
fn keeps_well(status: Status) -> bool
    ensures { result ≡ keeps_well (place_of status) status.kept }
{
    let Some(header) = status.kept else {
        return true;
    };
    could_be_read(header) && content::first_miss(status, header).is_none()
}

// Whether a read could give this header.
fn could_be_read(header: Header) -> bool
    ensures { result ≡ could_be_read header }
{
    !header.id.is_not_an_id()
        && header.words <= Header::MOST_WORDS
        && !header.cycle.is_too_high()
        && !header::startup_without_sync(header.startup, header.sync)
        && header.checksum == header.checksum_due()
}
