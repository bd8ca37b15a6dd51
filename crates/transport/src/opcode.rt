// The opcode of a control PDU says whether it is an acknowledgement or a control message.
ghost use Rattle.std.specs.Prelude.{◌≡◌};
ghost use Rattle.transport.specs.Opcode.{opcode_kind};

// What an opcode stands for.
#[derive(Clone, Copy)]
pub enum OpcodeKind {
    // An acknowledgement.
    OfAcknowledgement,
    // A control message, which goes whole or in segments.
    OfControl,
    // Nothing: an opcode has 7 bits. A case and no Option: document 01 names the match of every octet by its range.
    NoOpcode,
}

// The kind of an opcode, by its range.
#[tactic(auto, unfolding(crate::specs::Opcode::opcode_kind))]
pub fn kind(opcode: u8) -> OpcodeKind
    ensures { result ≡ opcode_kind opcode }
{
    match opcode {
        0x00 => OpcodeKind::OfAcknowledgement,
        0x01..=0x7F => OpcodeKind::OfControl,
        0x80..=0xFF => OpcodeKind::NoOpcode,
    }
}
