// One PDU heard again and again, each time by a receiver that was just set up; many heard in a row by one receiver; and, for comparison, a PDU's
// network layer opened again and again.
ghost use Rattle.std.specs.Prelude.{◌≡◌, ◌≤◌, ◌<◌, ◌/◌, length};
ghost use Rattle.common.specs.Lent.{lent};
ghost use Rattle.network.specs.Pdu.{pdu_octets};
ghost use Rattle.speed.specs.Hearing.{key_at, setup_of, receiver_of, accepted, held, heard_over, heard_times, counted_row, heard_all, opened, opened_over, opened_times};

use network::header::Header;
use network::opening::Refusal as Network;
use node::addresses::Node;
use node::setup;
use node::setup::Setup;
use receiver::answer::{Answer, Refusal};
use receiver::state::Receiver;

// Key i, from 0, of the three.
fn key(keys: &[u8; 48], i: usize) -> [u8; 16]
    requires { i < 3 }
    ensures { result ≡ key_at keys.now i }
{
    let mut key = [0; 16];
    key.copy_from_slice(&keys[16 * i..][..16]);
    key
}

// A network key, an application key bound to it and a device key; one element, whose next SEQ is 0; no groups, relay off.
// Keys, address and IV index are handed on as the exported functions take them: a struct of them would be made for this one call.
fn setup(keys: &[u8; 48], first: u16, iv: u32) -> Setup
    ensures { result ≡ setup_of keys.now first iv }
{
    let keyed = setup::with_network_key(setup::nothing(), key(keys, 0));
    Setup {
        device: key(keys, 2),
        first,
        elements: 1,
        iv,
        ..setup::with_application_key(keyed, 0, key(keys, 1))
    }
}

// The receiver so set up.
fn receiver(keys: &[u8; 48], first: u16, iv: u32) -> Receiver
    ensures { result ≡ receiver_of keys.now first iv }
{
    receiver::fresh::set_up(setup(keys, first, iv)).receiver
}

// 1 for an answer that is no refusal.
fn accept(answer: Result<Answer, Refusal>) -> u64
    ensures exact { result ≡ accepted answer }
    ensures most { result ≤ 1 }
{
    u64::from(answer.is_ok())
}

// 1 for a session slot that its source holds.
fn hold(src: u16) -> u64
    ensures exact { result ≡ held src }
    ensures most { result ≤ 1 }
{
    u64::from(src != 0)
}

// Hears the PDU `times` times, each time by the receiver r, and counts what is accepted, and the session slot where it is held then.
#[tactic(auto, unfolding(crate::specs::Hearing::heard_over))]
fn hear_over(r: Receiver, pdu: &[u8], slot: usize, message: &mut [u8], times: u32) -> u64
    requires { slot < 8 }
    ensures { lent result message.new ≡ heard_over r pdu.now slot message.old times }
{
    let mut count = 0;
    for _ in 0..times {
        let mut forward = [0; network::header::PDU];
        let h = receiver::hear::hear(r, pdu, &mut forward, message);
        count += accept(h.answer) + hold(h.receiver.sessions[slot].src);
    }
    count
}

// Hears a PDU `times` times, each time by a receiver just set up, to which message is lent. Each hearing that is not refused counts 1, and each after
// which session slot `slot % 8` is held counts 1. Where keys is not 48 octets nothing is heard.
#[tactic(auto, unfolding(crate::specs::Hearing::heard_times))]
pub fn speed_hear(
    keys: &[u8],
    first: u16,
    iv: u32,
    pdu: &[u8],
    slot: usize,
    message: &mut [u8],
    times: u32,
) -> u64
    ensures { lent result message.new ≡ heard_times keys.now first iv pdu.now slot message.old times }
{
    let Ok(keys) = <&[u8; 48]>::try_from(keys) else {
        return 0;
    };
    hear_over(receiver(keys, first, iv), pdu, slot % 8, message, times)
}

// Hears the PDUs of a row, 29 octets each, one after the other, and counts what is accepted.
#[tactic(auto, unfolding(crate::specs::Hearing::heard_row))]
fn hear_row(r: Receiver, pdus: &[u8], message: &mut [u8]) -> u64
    ensures { lent result message.new ≡ counted_row r pdus.now message.old (length pdus.now / pdu_octets) }
{
    let mut receiver = r;
    let mut count = 0;
    for pdu in pdus.chunks_exact(network::header::PDU) {
        let mut forward = [0; network::header::PDU];
        let h = receiver::hear::hear(receiver, pdu, &mut forward, message);
        count += accept(h.answer);
        receiver = h.receiver;
    }
    count
}

// Hears the PDUs of a row, 29 octets each, by one receiver just set up, to which message is lent, and says how many are not refused. Where keys is not
// 48 octets nothing is heard.
#[tactic(auto, unfolding(crate::specs::Hearing::heard_all))]
pub fn speed_hear_row(keys: &[u8], first: u16, iv: u32, pdus: &[u8], message: &mut [u8]) -> u64
    ensures { lent result message.new ≡ heard_all keys.now first iv pdus.now message.old }
{
    let Ok(keys) = <&[u8; 48]>::try_from(keys) else {
        return 0;
    };
    hear_row(receiver(keys, first, iv), pdus, message)
}

// 1 for a PDU that was opened.
fn open(opening: Result<Header, Network>) -> u32
    ensures exact { result ≡ opened opening }
    ensures most { result ≤ 1 }
{
    u32::from(opening.is_ok())
}

// How many of `times` openings with a node's network keys open the PDU.
#[tactic(auto, unfolding(crate::specs::Hearing::opened_over))]
fn open_over(node: Node, pdu: &[u8], times: u32) -> u32
    ensures { result ≡ opened_over node pdu.now times }
{
    let mut count: u32 = 0;
    for _ in 0..times {
        let o = network::opening::open(node.materials, node.networks, node.iv, pdu);
        count += open(o.opened);
    }
    count
}

// How many of `times` openings of a PDU open it, with the network key of the same receiver. None where keys is not 48 octets.
#[tactic(auto, unfolding(crate::specs::Hearing::opened_times))]
pub fn speed_open_pdu(keys: &[u8], first: u16, iv: u32, pdu: &[u8], times: u32) -> u32
    ensures { result ≡ opened_times keys.now first iv pdu.now times }
{
    let Ok(keys) = <&[u8; 48]>::try_from(keys) else {
        return 0;
    };
    open_over(receiver(keys, first, iv).node, pdu, times)
}
