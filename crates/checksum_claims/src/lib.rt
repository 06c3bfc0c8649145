// What follows from the checksums' rules. `specs/` states the claims, `proofs/` proves them, and this file has their witnesses:
// short functions over the entry, proved from its contract alone.
#![tactic(auto)]

ghost use Rattle.std.specs.Prelude.{◌≡◌, false};
ghost use Rattle.base_types.specs.Channel.{not_a_channel};

// Whether these bytes have one frame checksum on both channels. They never have.
pub fn same_on_both(bytes: &[u8]) -> bool
    ensures { result ≡ false }
{
    let on_a = checksum::frame_checksum(0, bytes);
    let on_b = checksum::frame_checksum(1, bytes);
    on_a.unwrap_or(0) == on_b.unwrap_or(0)
}

// Whether the entry refuses: exactly where the number is no channel's, whatever the bytes.
pub fn refused(channel: u8, bytes: &[u8]) -> bool
    ensures { result ≡ not_a_channel channel }
{
    checksum::frame_checksum(channel, bytes).is_err()
}
