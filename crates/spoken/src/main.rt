// Sends MP's sample messages (MP 8.3) from their payloads through the sending operations, and writes each Network PDU with its SEQ.
//
// A line that begins with # names the message. Friends and low power nodes, whose credentials we have not, are left out.
#![tactic(auto)]

mod exchange;

use receiver::answer::Refusal;
use receiver::state::Receiver;
use sending::answer::Answer;
use sending::request::{Destination, Request};
use text::writer::Writer;
use transport::securing::MessageKey;

// Sends all with MP's IV Index, then in an update to the next one, in which the one before is still sent with.
fn main() {
    title(b"IV Index 12345678");
    send_all(0x12345678, false);
    title(b"IV Index 12345679, in an update");
    send_all(0x12345679, true);
    title(b"MP 8.3.22: Message #22, to a label");
    send_hello(Destination::Label(0));
    title(b"MP 8.3.22: Message #22, to the label's address, which sending refuses");
    send_hello(Destination::Address(0xB529));
    exchange::acknowledge_all();
    title(b"left out: Message #4, #5, #10, #11, whose credentials are those of a friendship");
}

// Writes a line that begins with #.
pub(crate) fn title(words: &[u8]) {
    let mut line = [0u8; 128];
    let mut w = Writer::new(&mut line, 0);
    w.put(b"# ");
    w.put(words);
    w.put(b"\n");
    io::write_all(1, w.text());
}

// Beside its like in other programs: what writes to standard output stays in the program, since no equation could be its contract.
// Writes what was sent with a SEQ, or why nothing was.
pub(crate) fn say(seq: u32, answer: Result<Answer, Refusal>, pdu: &[u8]) {
    let mut line = [0u8; 128];
    let mut w = Writer::new(&mut line, 0);
    site::words::put_said(seq, answer, pdu, &mut w);
    io::write_all(1, w.text());
}

// What a request to send names.
pub(crate) fn request(dst: Destination, ttl: u8) -> Request {
    Request {
        element: 0,
        dst,
        ttl: Some(ttl),
        network: 0,
    }
}

// Each message by the node that sends it.
fn send_all(iv: u32, flag: bool) {
    title(b"MP 8.3.1: Message #1");
    let request = b"\x4b\x50\x05\x7e\x40\x00\x00\x01\x00\x00";
    control(
        site::setting::node(0x1201, 0x000001, iv, flag),
        0xFFFD,
        3,
        request,
    );
    title(b"MP 8.3.2: Message #2");
    let offer = b"\x32\x03\x08\xba\x07\x2f";
    control(
        site::setting::node(0x2345, 0x014820, iv, flag),
        0x1201,
        4,
        offer,
    );
    title(b"MP 8.3.3: Message #3");
    let other = b"\xfa\x02\x05\xa6\x00\x0a";
    control(
        site::setting::node(0x2FE3, 0x2B3832, iv, flag),
        0x1201,
        4,
        other,
    );
    exchange::send_all(site::setting::node(0x0003, 0x3129AB, iv, flag));
}

// A node sends a control message with TTL 0.
fn control(node: Receiver, dst: u16, opcode: u8, parameters: &[u8]) {
    let mut pdu = [0u8; network::header::PDU];
    let spoken = sending::control::send(
        node,
        request(Destination::Address(dst), 0),
        opcode,
        parameters,
        &mut pdu,
    );
    say(node.next[0], spoken.answer, &pdu);
}

// The label of message #22, whose address is 0xB529.
const LABEL: [u8; 16] = [
    0x00, 0x73, 0xe7, 0xe4, 0xd8, 0xb9, 0x44, 0x0f, 0xaf, 0x84, 0x15, 0xdf, 0x4c, 0x56, 0xc0, 0xe1,
];

// A node that holds the label sends message #22 to a destination, under the application key.
fn send_hello(dst: Destination) {
    let setup = site::setting::setup(0x1234, 0x07080B, 0x12345677, false);
    let ready = receiver::fresh::set_up(node::setup::with_label(setup, LABEL));
    let node = ready.receiver;
    let mut pdu = [0u8; network::header::PDU];
    let spoken = sending::access::send(
        node,
        request(dst, 3),
        MessageKey::Application(0),
        false,
        b"\xd5\x0a\x00Hello",
        &mut pdu,
    );
    say(node.next[0], spoken.answer, &pdu);
}
