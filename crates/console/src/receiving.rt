// What a line asks of the receiver is done, and its answer is written behind the others.
ghost use Rattle.std.specs.Prelude.{◌≡◌, ◌≤◌, length};
ghost use Rattle.common.specs.Lent.{lent};
ghost use Rattle.transport.specs.Segment.{message_octets};
ghost use Rattle.answers.specs.Fits.{Fits};
ghost use Rattle.console.specs.Answered.{put, answer_put};
ghost use Rattle.console.specs.Receiving.{hears_into, hears, sent, speaks_into, speaks, given_up, gives_up, shows};

use answers::answer;
use answers::answer::Trials;
use commands::desk::Room;
use commands::line::{GivingUp, Sending};
use receiver::give_up::GivenUp;
use receiver::state::Receiver;
use sending::answer::Spoken;
use text::writer::Writer;

// Hears a PDU. Of the buffers as much is lent as `room` said.
#[tactic(auto, using(crate::proofs::ReceivingLaws::lent_is), unfolding(crate::specs::Receiving::hears))]
pub(crate) fn hear(r: Receiver, room: Room, pdu: &[u8], w: &mut Writer) -> Receiver
    ensures exact { put result w.new ≡ answer_put (hears r room pdu.now) w.old }
    ensures fits { Fits (hears r room pdu.now).text }
{
    let mut forward = super::lent::longest();
    let mut message = super::lent::longest();
    let n = text::within(room.forward, &forward);
    let m = text::within(room.message, &message);
    hear_into(r, pdu, &mut forward[..n], &mut message[..m], w)
}

fn hear_into(
    r: Receiver,
    pdu: &[u8],
    forward: &mut [u8],
    message: &mut [u8],
    w: &mut Writer,
) -> Receiver
    requires { (length forward.old ≤ message_octets) × (length message.old ≤ message_octets) }
    ensures exact { put result w.new ≡ answer_put (hears_into r pdu.now forward.old message.old) w.old }
    ensures fits { Fits (hears_into r pdu.now forward.old message.old).text }
{
    let h = receiver::hear::hear(r, pdu, forward, message);
    let trials = Trials {
        network: h.network,
        application: h.application,
    };
    answer::put_heard(h.answer, trials, message, w);
    answer::put_forward(text::first(forward, h.forwarded), w);
    h.receiver
}

// Sends. Of the buffer for a PDU as much is lent as `room` said.
#[tactic(auto, using(crate::proofs::ReceivingLaws::lent_is), unfolding(crate::specs::Receiving::speaks))]
pub(crate) fn speak(r: Receiver, room: Room, s: Sending, octets: &[u8], w: &mut Writer) -> Receiver
    ensures exact { put result w.new ≡ answer_put (speaks r room s octets.now) w.old }
    ensures fits { Fits (speaks r room s octets.now).text }
{
    let mut pdu = super::lent::longest();
    let n = text::within(room.forward, &pdu);
    speak_into(r, s, octets, &mut pdu[..n], w)
}

#[tactic(auto, using(answers::proofs::Fits::spoken_fits), unfolding(crate::specs::Receiving::speaks_into))]
fn speak_into(r: Receiver, s: Sending, octets: &[u8], pdu: &mut [u8], w: &mut Writer) -> Receiver
    requires { length pdu.old ≤ message_octets }
    ensures exact { put result w.new ≡ answer_put (speaks_into r s octets.now pdu.old) w.old }
    ensures fits { Fits (speaks_into r s octets.now pdu.old).text }
{
    let spoken = send(r, s, octets, pdu);
    answer::put_spoken(spoken.answer, pdu, w);
    spoken.receiver
}

#[tactic(auto, unfolding(crate::specs::Receiving::sent))]
fn send(r: Receiver, s: Sending, octets: &[u8], pdu: &mut [u8]) -> Spoken
    ensures { lent result pdu.new ≡ sent r s octets.now pdu.old }
{
    match s {
        Sending::Access {
            request,
            key,
            szmic,
            len,
        } => sending::access::send(r, request, key, szmic, text::first(octets, len), pdu),
        Sending::Control {
            request,
            opcode,
            len,
        } => sending::control::send(r, request, opcode, text::first(octets, len), pdu),
        Sending::Segment(n) => sending::segment::send(r, n, pdu),
        Sending::Acknowledgement { network, src } => {
            sending::acknowledge::send(r, network, src, pdu)
        }
    }
}

// Gives up.
#[tactic(auto, unfolding(crate::specs::Receiving::gives_up))]
pub(crate) fn quit(r: Receiver, what: GivingUp, w: &mut Writer) -> Receiver
    ensures { put result w.new ≡ answer_put (gives_up r what) w.old }
{
    let g = give_up(r, what);
    answer::put_given_up(g.answer, w);
    g.receiver
}

#[tactic(auto, unfolding(crate::specs::Receiving::given_up))]
fn give_up(r: Receiver, what: GivingUp) -> GivenUp
    ensures { result ≡ given_up r what }
{
    match what {
        GivingUp::Message => sending::stop::stop(r),
        GivingUp::Session(src) => receiver::give_up::session(r, src),
    }
}

// Shows what the receiver holds.
#[tactic(auto, using(common::proofs::Lists::length_mapped, answers::proofs::Fits::receiver_fits), unfolding(crate::specs::Receiving::shows))]
pub(crate) fn show(r: Receiver, w: &mut Writer) -> Receiver
    ensures exact { put result w.new ≡ answer_put (shows r) w.old }
    ensures fits { Fits (shows r).text }
{
    answers::looking::put_receiver(r, w);
    r
}
