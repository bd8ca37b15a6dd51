// One PDU is heard: opened, looked up in the cache, forwarded, and its message handed up or refused.
ghost use Rattle.std.specs.Prelude.{◌≡◌, ◌≤◌, length};
ghost use Rattle.common.specs.Lent.{lent};
ghost use Rattle.transport.specs.Form.{form_of};
ghost use Rattle.transport.specs.Segment.{message_octets};
ghost use Rattle.receiver.specs.Hearing.{refused_heard, relayed, taken_as, taken, outcome, passed, voiced, hearing};

use super::answer::{Heard, Refusal, Taken};
use super::state::Receiver;
use network::header::Header;
use node::addresses::Node;
use transport::form::Form;

// A refusal that leaves everything.
fn refuse(r: Receiver, refusal: Refusal, trials: usize) -> Heard
    ensures { result ≡ refused_heard r refusal trials }
{
    Heard {
        answer: Err(refusal),
        network: trials,
        application: 0,
        forwarded: 0,
        receiver: r,
    }
}

// Forwards a PDU where it is to be forwarded; gives the octets written.
#[tactic(auto, unfolding(crate::specs::Hearing::relayed))]
fn relay(node: Node, h: Header, forward: &mut [u8]) -> usize
    ensures { lent result forward.new ≡ relayed node h forward.old }
{
    let local = node::addresses::is_local(node, h.dst);
    if !network::sealing::is_forwarded(node.relay, local, h) {
        return 0;
    }
    network::sealing::forward(node.materials, h, forward).unwrap_or(0)
}

// A PDU for this node, by its transport form. Segments have one arm, so that the state goes to one place.
// That the message buffer is long enough is asked here and in what this calls, not kept in a struct with the buffer: each function that
// takes such a struct would have to promise too that the same buffer is left in it.
#[tactic(auto, unfolding(crate::specs::Hearing::taken_as_by))]
fn take_form(r: Receiver, h: Header, message: &mut [u8]) -> Taken
    requires { message_octets ≤ length message.old }
    ensures { lent result message.new ≡ taken_as (form_of h) r h message.old }
{
    let Some(form) = transport::form::read(h) else {
        return super::whole::refuse(r, Refusal::WrongForm, 0);
    };
    match form {
        Form::Access { akf, aid } => super::whole::access(r, h, akf, aid, message),
        Form::Control { opcode } => super::whole::control(r, h, opcode, message),
        Form::Acknowledgement { obo, seqzero, bits } => super::whole::acknowledgement(
            r, h, obo, seqzero, bits,
        ),
        Form::AccessSegment {
            akf: _,
            aid: _,
            fields,
        }
        | Form::ControlSegment { opcode: _, fields } => {
            super::segmented::segment(r, h, fields, message)
        }
    }
}

// A PDU that is in the cache now.
#[tactic(auto, unfolding(crate::specs::Hearing::taken_by))]
fn take(r: Receiver, h: Header, message: &mut [u8]) -> Taken
    requires { message_octets ≤ length message.old }
    ensures { lent result message.new ≡ taken r h message.old }
{
    if node::addresses::is_for(r.node, h.dst) {
        return take_form(r, h, message);
    }
    super::whole::refuse(r, Refusal::NotForNode, 0)
}

// A PDU that passed refusals 1 to 4, 22 and 5 is cached, forwarded, and taken.
#[tactic(auto, unfolding(crate::specs::Hearing::passed_by))]
fn pass(r: Receiver, h: Header, trials: usize, forward: &mut [u8], message: &mut [u8]) -> Heard
    requires { message_octets ≤ length message.old }
    ensures { outcome result forward.new message.new ≡ passed r h trials forward.old message.old }
{
    let cache = memory::cache::remember(r.cache, h);
    let forwarded = relay(r.node, h, forward);
    let t = take(r.with_cache(cache), h, message);
    Heard {
        answer: t.answer,
        network: trials,
        application: t.trials,
        forwarded,
        receiver: t.receiver,
    }
}

// An opened PDU: 22 where its SRC is one of our elements, 5 where it is in the cache.
#[tactic(auto, unfolding(crate::specs::Hearing::voiced_by, crate::specs::Hearing::uncached_by))]
fn pass_new(r: Receiver, h: Header, trials: usize, forward: &mut [u8], message: &mut [u8]) -> Heard
    requires { message_octets ≤ length message.old }
    ensures { outcome result forward.new message.new ≡ voiced r h trials forward.old message.old }
{
    if node::addresses::is_local(r.node, h.src) {
        return refuse(r, Refusal::OwnSource, trials);
    }
    if memory::cache::is_seen(r.cache, h) {
        return refuse(r, Refusal::Cached, trials);
    }
    pass(r, h, trials, forward, message)
}

// Hears one PDU. A PDU that is forwarded fills the first octets of forward, a message handed up the first of message.
#[tactic(auto, unfolding(crate::specs::Hearing::hearing_by, crate::specs::Hearing::opened_as_by))]
pub fn hear(r: Receiver, pdu: &[u8], forward: &mut [u8], message: &mut [u8]) -> Heard
    ensures { outcome result forward.new message.new ≡ hearing r pdu.now forward.old message.old }
{
    if forward.len() < network::header::PDU {
        return refuse(r, Refusal::ShortBuffer, 0);
    }
    if message.len() < transport::securing::MESSAGE {
        return refuse(r, Refusal::ShortBuffer, 0);
    }
    let node = r.node;
    let o = network::opening::open(node.materials, node.networks, node.iv, pdu);
    let trials = o.trials;
    // A refusal returns here: as an arm beside the other it would have the compiler make both answers, part by part, whichever is given.
    let header = match o.opened {
        Err(refusal) => return refuse(r, Refusal::from(refusal), trials),
        Ok(header) => header,
    };
    pass_new(r, header, trials, forward, message)
}
