// Tests (a) to (e), by which a frame is right or wrong for its slot.
ghost use Rattle.std.specs.Prelude.{◌≡◌};
ghost use Rattle.slot.specs.Judging.{place_of, is_static, misses_words, misses_clear, misses_not_null, first_miss};

use crate::status::{Miss, Status};
use header::Header;
use settings::Field;

// Whether the slot is static, by the settings that it was opened with. Any other is dynamic.
pub fn is_static(status: Status) -> bool
    ensures { result ≡ is_static (place_of status) }
{
    status.slot.0 as u32 <= status.settings.get(Field::StaticSlots)
}

// The first test that the frame misses, if any. They come in 01's order: which is the first is part of the answer.
pub fn first_miss(status: Status, header: Header) -> Option<Miss>
    ensures { result ≡ first_miss (place_of status) header }
{
    if header.id != status.slot {
        return Some(Miss::OtherId);
    }
    if header.cycle != status.cycle {
        return Some(Miss::OtherCycle);
    }
    if misses_words(status, header) {
        return Some(Miss::OtherWords);
    }
    if misses_clear(status, header) {
        return Some(Miss::SyncOrStartup);
    }
    if misses_not_null(status, header) {
        return Some(Miss::NullFrame);
    }
    None
}

// Misses (c), which is for static slots.
fn misses_words(status: Status, header: Header) -> bool
    ensures { result ≡ misses_words (place_of status) header }
{
    is_static(status) & (header.words as u32 != status.settings.get(Field::StaticPayloadWords))
}

// Misses (d), which is for dynamic slots.
fn misses_clear(status: Status, header: Header) -> bool
    ensures { result ≡ misses_clear (place_of status) header }
{
    !is_static(status) & (header.sync | header.startup)
}

// Misses (e), which is for dynamic slots.
fn misses_not_null(status: Status, header: Header) -> bool
    ensures { result ≡ misses_not_null (place_of status) header }
{
    !is_static(status) & !header.null_frame_bit
}
