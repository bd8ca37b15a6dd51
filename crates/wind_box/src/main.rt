// The rooftop wind box: it sends a short status every time it is asked.
//
// Each digit of standard input asks, while the wind blows with that force (Beaufort); every other octet asks nothing. A line of output is
// what the box sent: its SEQ and the Network PDU.
#![tactic(auto)]

use receiver::state::Receiver;
use sending::request::{Destination, Request};
use text::writer::Writer;
use transport::securing::MessageKey;

// The group that listens for the wind.
const LISTENERS: u16 = 0xC0A1;

// More hops than a TTL left unnamed allows.
const TTL: u8 = 7;

// Sets the box up, reads standard input, its first 4,096 octets, and answers it.
fn main() {
    let mut input = io::buffer();
    let n = io::read_full(0, &mut input);
    let wind_box = site::setting::node(0x0101, 0x000100, 0x12345678, false);
    answer_all(wind_box, &input[..n]);
}

// Answers each octet in turn.
fn answer_all(r: Receiver, questions: &[u8]) {
    let mut wind_box = r;
    for &question in questions {
        wind_box = answer(wind_box, question);
    }
}

// Answers one octet, and gives the box as it is then.
fn answer(wind_box: Receiver, question: u8) -> Receiver {
    match question {
        b'0'..=b'9' => send_status(wind_box, question - b'0'),
        _ => wind_box,
    }
}

// Sends the wind's force: a status to a group, under the application key, with the TTL named.
fn send_status(wind_box: Receiver, force: u8) -> Receiver {
    let request = Request {
        element: 0,
        dst: Destination::Address(LISTENERS),
        ttl: Some(TTL),
        network: 0,
    };
    // A vendor's opcode of three octets (MP 3.7.3.1), and the force.
    let status = [0xC1, 0xFF, 0xFF, force];
    let mut pdu = [0u8; network::header::PDU];
    let spoken = sending::access::send(
        wind_box,
        request,
        MessageKey::Application(0),
        false,
        &status,
        &mut pdu,
    );
    // Beside its like in other programs: what writes to standard output stays in the program, since no equation could be its contract.
    let mut line = [0u8; 128];
    let mut w = Writer::new(&mut line, 0);
    site::words::put_said(wind_box.next[0], spoken.answer, &pdu, &mut w);
    io::write_all(1, w.text());
    spoken.receiver
}
