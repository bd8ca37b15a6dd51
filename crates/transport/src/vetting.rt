// A vendor's segments are vetted: whether some upper transport PDU has exactly these transport PDUs as its segments, and which. No key and no state.
//
// The PDUs stand in one list of octets, each behind one octet with its length, in SegO order.
ghost use Rattle.std.specs.Prelude.{◌≡◌, ◌++◌, ◌+◌, ◌*◌, ◌≤◌, ◌<◌, min, length, get_or, take, drop};
ghost use Rattle.common.specs.Lent.{lent};
ghost use Rattle.common.specs.Lists.{onto};
ghost use Rattle.common.specs.Paper.{number_of};
ghost use Rattle.transport.specs.Listed.{pdus};
ghost use Rattle.transport.specs.Segment.{full_octets};
ghost use Rattle.transport.specs.Vetting.{octet_allowed, bit_allowed, least, stated_by, fills, fits, judged_from, judged, joined, vetting, paper};

use super::form::SegmentFields;
use super::listed::listed;

// Why PDUs are not approved.
#[derive(Clone, Copy)]
pub enum Refusal {
    // 16: the buffer is shorter than 384.
    ShortBuffer,
    // 26: with the PDUs before it this one, counted from 0, begins no message's segments.
    Fault(usize),
    // 27: no PDU is at fault, and the list ends before the last.
    Unfinished,
}

// What PDU 0 states of the message.
#[derive(Clone, Copy)]
struct Stated {
    first: u8,
    szmic: bool,
    seqzero: u16,
    segn: u8,
}

fn read_first(p: &[u8]) -> Stated
    ensures { result ≡ stated_by p.now }
{
    let fields = super::form::fields_in(p);
    Stated {
        first: common::octet(p, 0),
        szmic: fields.szmic,
        seqzero: fields.seqzero,
        segn: fields.segn,
    }
}

// SEG is 1; CTL 0: AKF 1, or AKF 0 and AID 0; CTL 1: an opcode of 0x01-0x7F.
#[tactic(auto, unfolding(crate::specs::Vetting::octet_allowed))]
fn octet_allowed(ctl: bool, first: u8) -> bool
    ensures { result ≡ octet_allowed ctl first }
{
    let rest = if ctl {
        0 < first % 128
    } else {
        super::form::akf_of(first) || first % 64 == 0
    };
    super::form::seg_of(first) && rest
}

// Of a control segment the bit is RFU, and 0.
#[tactic(auto, unfolding(crate::specs::Vetting::bit_allowed))]
fn bit_allowed(ctl: bool, szmic: bool) -> bool
    ensures { result ≡ bit_allowed ctl szmic }
{
    !ctl || !szmic
}

// The fewest octets of an upper transport PDU.
#[tactic(auto, unfolding(crate::specs::Vetting::least))]
fn fewest(ctl: bool, szmic: bool) -> usize
    ensures { result ≡ least ctl szmic }
{
    if ctl {
        return 1;
    }
    if szmic {
        return 9;
    }
    5
}

// Whether segment k of a message with SegN n may have so many octets behind its front: each before the last is full, and the last has one at least and
// brings the message to its least length.
#[tactic(auto, unfolding(crate::specs::Vetting::fills))]
fn fills_up(ctl: bool, szmic: bool, k: usize, n: u8, octets: usize) -> bool
    ensures { result ≡ fills (full_octets ctl) (least ctl szmic) k n octets }
{
    let size = super::segment::full_octets(ctl);
    if k < n as usize {
        return octets == size;
    }
    1 <= octets && octets <= size && fewest(ctl, szmic) <= size * n as usize + octets
}

// Whether p may be PDU k of a message of which PDU 0 states s.
#[tactic(auto, using(crate::proofs::VettingRules::short_front), unfolding(crate::specs::Vetting::fits))]
fn fit(ctl: bool, s: Stated, k: usize, p: &[u8]) -> bool
    ensures { result ≡ fits ctl s k p.now }
{
    if (s.segn as usize) < k || p.len() < 4 {
        return false;
    }
    let fields = SegmentFields {
        szmic: s.szmic,
        seqzero: s.seqzero,
        sego: k as u8,
        segn: s.segn,
    };
    let front = super::segment::front(s.first, fields);
    octet_allowed(ctl, s.first)
        && bit_allowed(ctl, s.szmic)
        && common::equal(&p[..4], &front)
        && fills_up(ctl, s.szmic, k, s.segn, p.len() - 4)
}

// Judges the PDUs of a list, of which PDU 0 states s: they are all of a message, or the first at fault is named, or they end too early.
#[tactic(auto, using(crate::proofs::ListedLaws::pdus_most), unfolding(crate::specs::Vetting::judged_from))]
fn judge_by(ctl: bool, s: Stated, list: &[u8]) -> Result<(), Refusal>
    ensures { result ≡ judged_from ctl s 0 (pdus list.now) }
{
    // k is wanted behind the loop, too: there it says how many PDUs there are.
    let mut k: usize = 0;
    for p in listed(list) {
        if !fit(ctl, s, k, p) {
            return Err(Refusal::Fault(k));
        }
        k += 1;
    }
    if k <= s.segn as usize {
        return Err(Refusal::Unfinished);
    }
    Ok(())
}

// Judges the PDUs of a list by what the first of them states.
#[tactic(auto, unfolding(crate::specs::Vetting::judged, crate::specs::Vetting::judged_from))]
fn judge(ctl: bool, list: &[u8]) -> Result<(), Refusal>
    ensures { result ≡ judged ctl (pdus list.now) }
{
    let Some(p) = listed(list).next() else {
        return Err(Refusal::Unfinished);
    };
    judge_by(ctl, read_first(p), list)
}

// The octets behind the front of a PDU: none where it is no longer than a front.
fn behind_front(p: &[u8]) -> &[u8]
    ensures { result.now ≡ drop 4 p.now }
{
    &p[p.len().min(4)..]
}

// Lays octets onto out from `to` on.
fn lay(octets: &[u8], out: &mut [u8], to: usize)
    requires { to + length octets.now ≤ length out.old }
    ensures { out.new ≡ take to out.old ++ onto octets.now (drop to out.old) }
{
    common::copy(octets, &mut out[to..]);
}

// Lays what stands behind the fronts into out, one behind the other, and says how many octets these are.
fn join(list: &[u8], out: &mut [u8]) -> usize
    requires { length (joined (pdus list.now)) ≤ length out.old }
    ensures { lent result out.new ≡ lent (length (joined (pdus list.now))) (onto (joined (pdus list.now)) out.old) }
{
    let mut to: usize = 0;
    for p in listed(list) {
        let octets = behind_front(p);
        lay(octets, out, to);
        to += octets.len();
    }
    to
}

// Vets the PDUs of a list. Only where they are approved something is written to out: the upper transport PDU, into its first octets, so many.
#[tactic(auto, using(crate::proofs::VetRules::vet_rules, crate::proofs::VetRules::vet_room))]
pub fn vet(ctl: bool, list: &[u8], out: &mut [u8]) -> Result<usize, Refusal>
    ensures { lent result out.new ≡ vetting ctl list.now out.old }
{
    if out.len() < super::securing::MESSAGE {
        return Err(Refusal::ShortBuffer);
    }
    judge(ctl, list)?;
    Ok(join(list, out))
}

// This paper's number of an answer: 0 where nothing is refused.
pub fn number(v: Result<usize, Refusal>) -> u32
    ensures { result ≡ number_of (paper v) }
{
    let Err(refusal) = v else {
        return 0;
    };
    match refusal {
        Refusal::ShortBuffer => 16,
        Refusal::Fault(_) => 26,
        Refusal::Unfinished => 27,
    }
}
