// The buffer that is lent for a PDU or a message.
ghost use Rattle.std.specs.Prelude.{◌≡◌, replicate};
ghost use Rattle.transport.specs.Segment.{message_octets};

// The longest that `room` can name.
pub(crate) fn longest() -> [u8; transport::securing::MESSAGE]
    ensures { result ≡ replicate message_octets 0 }
{
    [0u8; transport::securing::MESSAGE]
}
