// The octets of a segment in front of its body, and an acknowledgement, as they are sent. RFU bits are written 0.
ghost use Rattle.std.specs.Prelude.{◌≡◌};
ghost use Rattle.transport.specs.Segment.{access_octet, control_octet, segment_number, segment_front, acknowledgement_number, acknowledgement_octets, full_octets};

use super::form::SegmentFields;

// Octet 0 of an access message, whole or a segment; of aid the low 6 bits count.
#[tactic(auto, unfolding(crate::specs::Segment::access_octet))]
pub fn access_octet(seg: bool, akf: bool, aid: u8) -> u8
    ensures { result ≡ access_octet seg akf aid }
{
    let low = aid % 64;
    if seg {
        if akf {
            return 128 + 64 + low;
        }
        return 128 + low;
    }
    if akf {
        return 64 + low;
    }
    low
}

// Octet 0 of a control message, whole or a segment; of opcode the low 7 bits count.
#[tactic(auto, unfolding(crate::specs::Segment::control_octet))]
pub fn control_octet(seg: bool, opcode: u8) -> u8
    ensures { result ≡ control_octet seg opcode }
{
    if seg {
        return 128 + opcode % 128;
    }
    opcode % 128
}

// The octets of a full segment behind the four in front.
pub fn full_octets(ctl: bool) -> usize
    ensures { result ≡ full_octets ctl }
{
    if ctl { 8 } else { 12 }
}

// SZMIC, SeqZero, SegO and SegN as one number of 24 bits.
#[tactic(auto, unfolding(crate::specs::Segment::segment_number))]
fn number(fields: SegmentFields) -> u32
    ensures { result ≡ segment_number fields.szmic fields.seqzero fields.sego fields.segn }
{
    let SegmentFields {
        szmic,
        seqzero,
        sego,
        segn,
    } = fields;
    let low = (seqzero % 8192) as u32 * 1024 + (sego % 32) as u32 * 32 + (segn % 32) as u32;
    if szmic {
        return 8388608 + low;
    }
    low
}

// The four octets in front of a segment; a number wider than its field counts by its low bits.
#[tactic(auto, unfolding(crate::specs::Segment::segment_front, network::specs::Octets::octets))]
pub fn front(first: u8, fields: SegmentFields) -> [u8; 4]
    ensures { result ≡ segment_front first fields.szmic fields.seqzero fields.sego fields.segn }
{
    let n = number(fields).to_be_bytes();
    [first, n[1], n[2], n[3]]
}

// OBO and SeqZero as one number of 16 bits.
#[tactic(auto, unfolding(crate::specs::Segment::acknowledgement_number))]
fn ack_number(obo: bool, seqzero: u16) -> u16
    ensures { result ≡ acknowledgement_number obo seqzero }
{
    let low = seqzero % 8192 * 4;
    if obo {
        return 32768 + low;
    }
    low
}

// The seven octets of an acknowledgement; of seqzero the low 13 bits count.
#[tactic(auto, unfolding(crate::specs::Segment::acknowledgement_octets, network::specs::Octets::octets))]
pub fn acknowledgement(obo: bool, seqzero: u16, bits: u32) -> [u8; 7]
    ensures { result ≡ acknowledgement_octets obo seqzero bits }
{
    let n = ack_number(obo, seqzero).to_be_bytes();
    let b = bits.to_be_bytes();
    [0x00, n[0], n[1], b[0], b[1], b[2], b[3]]
}
