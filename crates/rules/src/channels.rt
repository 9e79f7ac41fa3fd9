// Sets of channels, one bit a channel.
ghost use Rattle.std.specs.Prelude.{◌≡◌};
ghost use Rattle.rules.specs.Channels.{channel_in};

// Whether a set has a channel; none above 63 is in any.
pub fn has_channel(set: u64, channel: u8) -> bool
    ensures { result ≡ channel_in set channel }
{
    channel < 64 && (set >> channel) % 2 == 1
}
