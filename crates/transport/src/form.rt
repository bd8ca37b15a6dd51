// A transport PDU is told by CTL and its octets: which of document 01's kinds it is, with its fields, or refusal 7.
ghost use Rattle.std.specs.Prelude.{◌≡◌};
ghost use Rattle.transport.specs.Fields.{seg, akf};
ghost use Rattle.transport.specs.Form.{key_fits, segment_fits, fields_in, fields_of, access_form, access_segment_form, control_form, control_segment_form, form_of};

use super::opcode::OpcodeKind;
use network::header::Header;

// Which segment of which message a segment is. SZMIC says that the message has the long TransMIC; of a control segment it is false.
#[derive(Clone, Copy)]
pub struct SegmentFields {
    pub szmic: bool,
    pub seqzero: u16,
    pub sego: u8,
    pub segn: u8,
}

// What a transport PDU is.
#[derive(Clone, Copy)]
pub enum Form {
    // A whole access message.
    Access {
        akf: bool,
        aid: u8,
    },
    // A segment of an access message.
    AccessSegment {
        akf: bool,
        aid: u8,
        fields: SegmentFields,
    },
    // A whole control message.
    Control {
        opcode: u8,
    },
    // A segment of a control message.
    ControlSegment {
        opcode: u8,
        fields: SegmentFields,
    },
    // An acknowledgement, with its BlockAck.
    Acknowledgement {
        obo: bool,
        seqzero: u16,
        bits: u32,
    },
}

// Octet 0: SEG is its highest bit, AKF the next.
pub(crate) fn seg_of(first: u8) -> bool
    ensures { result ≡ seg first }
{
    128 <= first
}

pub(crate) fn akf_of(first: u8) -> bool
    ensures { result ≡ akf first }
{
    64 <= first % 128
}

// AKF 0 needs AID 0 and a unicast DST.
#[tactic(auto, unfolding(crate::specs::Form::key_fits))]
fn key_fits(akf: bool, aid: u8, dst: u16) -> bool
    ensures { result ≡ key_fits akf aid dst }
{
    akf || aid == 0 && network::address::is_unicast(dst)
}

// A segment of n octets: there is at least one octet behind the four in front, SegO is at most SegN, and every segment but the last is full.
#[tactic(auto, unfolding(crate::specs::Form::segment_fits))]
fn segment_fits(sego: u8, segn: u8, n: usize, full: usize) -> bool
    ensures { result ≡ segment_fits sego segn n full }
{
    5 <= n && sego <= segn && (sego == segn || n == full)
}

// The fields behind octet 0 of a segment, as its octets have them: of a control segment the bit before SeqZero is RFU.
pub(crate) fn fields_in(t: &[u8]) -> SegmentFields
    ensures { result ≡ fields_in t.now }
{
    let n = u32::from_be_bytes([
        0,
        common::octet(t, 1),
        common::octet(t, 2),
        common::octet(t, 3),
    ]);
    SegmentFields {
        szmic: 8388608 <= n,
        seqzero: (n / 1024 % 8192) as u16,
        sego: (n / 32 % 32) as u8,
        segn: (n % 32) as u8,
    }
}

// The fields behind octet 0 of a segment: of a control segment the bit is ignored.
#[tactic(auto, unfolding(crate::specs::Form::fields_of))]
fn fields_of(h: Header) -> SegmentFields
    ensures { result ≡ fields_of h }
{
    let fields = fields_in(&h.transport);
    SegmentFields {
        szmic: !h.ctl && fields.szmic,
        ..fields
    }
}

// CTL 0, SEG 0.
#[tactic(auto, unfolding(crate::specs::Form::access_form))]
fn access(h: Header) -> Option<Form>
    ensures { result ≡ access_form h }
{
    let t = h.transport;
    let akf = akf_of(t[0]);
    let aid = t[0] % 64;
    if h.len < 6 {
        return None;
    }
    if key_fits(akf, aid, h.dst) {
        return Some(Form::Access { akf, aid });
    }
    None
}

// CTL 0, SEG 1.
#[tactic(auto, unfolding(crate::specs::Form::access_segment_form))]
fn access_segment(h: Header) -> Option<Form>
    ensures { result ≡ access_segment_form h }
{
    let t = h.transport;
    let akf = akf_of(t[0]);
    let aid = t[0] % 64;
    let fields = fields_of(h);
    if !key_fits(akf, aid, h.dst) {
        return None;
    }
    if !segment_fits(
        fields.sego,
        fields.segn,
        h.len,
        4 + super::segment::full_octets(false),
    ) {
        return None;
    }
    Some(Form::AccessSegment { akf, aid, fields })
}

// CTL 1, SEG 0.
#[tactic(auto, unfolding(crate::specs::Form::control_form, crate::specs::Form::control_as))]
fn control(h: Header) -> Option<Form>
    ensures { result ≡ control_form h }
{
    let t = h.transport;
    let opcode = t[0] % 128;
    match super::opcode::kind(opcode) {
        OpcodeKind::OfAcknowledgement => {
            if h.len != 7 {
                return None;
            }
            let n = u32::from_be_bytes([0, 0, t[1], t[2]]);
            Some(Form::Acknowledgement {
                obo: 32768 <= n,
                seqzero: (n / 4 % 8192) as u16,
                bits: u32::from_be_bytes([t[3], t[4], t[5], t[6]]),
            })
        }
        OpcodeKind::OfControl => Some(Form::Control { opcode }),
        OpcodeKind::NoOpcode => None,
    }
}

// CTL 1, SEG 1.
#[tactic(auto, unfolding(crate::specs::Form::control_segment_form, crate::specs::Form::control_segment_as))]
fn control_segment(h: Header) -> Option<Form>
    ensures { result ≡ control_segment_form h }
{
    let opcode = h.transport[0] % 128;
    let fields = fields_of(h);
    match super::opcode::kind(opcode) {
        OpcodeKind::OfAcknowledgement => None,
        OpcodeKind::OfControl => {
            if !segment_fits(
                fields.sego,
                fields.segn,
                h.len,
                4 + super::segment::full_octets(true),
            ) {
                return None;
            }
            Some(Form::ControlSegment { opcode, fields })
        }
        OpcodeKind::NoOpcode => None,
    }
}

// What the transport PDU of an opened header is. None, refusal 7: the transport form is wrong.
#[tactic(auto, unfolding(crate::specs::Form::form_of))]
pub fn read(h: Header) -> Option<Form>
    ensures { result ≡ form_of h }
{
    let seg = seg_of(h.transport[0]);
    if h.ctl {
        if seg {
            return control_segment(h);
        }
        return control(h);
    }
    if seg {
        return access_segment(h);
    }
    access(h)
}
