// The training bench: a box sends one long message to the receiver, segment by segment, and the receiver's answers and the message are shown.
//
// A line of output is a PDU that was sent, with its SEQ, or what the node that hears it answers.
#![tactic(auto)]

use receiver::answer::Refusal;
use receiver::state::Receiver;
use sending::answer::{Answer, Spoken};
use sending::request::{Destination, Request};
use text::writer::Writer;
use transport::securing::MessageKey;

// The two nodes, side by side.
#[derive(Clone, Copy)]
struct Bench {
    sender: Receiver,
    station: Receiver,
}

const SENDER: u16 = 0x0102;

const STATION: u16 = 0x0201;

// More hops than a TTL left unnamed allows; the receiver's acknowledgement cannot name one.
const TTL: u8 = 7;

// Sets both nodes up with the same keys, and lets the box send its message and the receiver acknowledge it.
fn main() {
    let bench = Bench {
        sender: site::setting::node(SENDER, 0x000200, 0x12345678, false),
        station: site::setting::node(STATION, 0x000300, 0x12345678, false),
    };
    acknowledge(send_message(bench));
}

// Begins the message, under the application key, with the TTL named, and sends its segments one after another. Its text stands where an
// opcode and its parameters would.
fn send_message(bench: Bench) -> Bench {
    let request = Request {
        element: 0,
        dst: Destination::Address(STATION),
        ttl: Some(TTL),
        network: 0,
    };
    let mut pdu = [0u8; network::header::PDU];
    let spoken = sending::access::send(
        bench.sender,
        request,
        MessageKey::Application(0),
        false,
        b"Balloon 7 left the filling shed at 11:58. Ground wind 4, from the west. The sonde reads 21.4 degrees and 48 percent.",
        &mut pdu,
    );
    let begun = carry(bench, spoken, &pdu);
    let Ok(Answer::Started { segn, .. }) = spoken.answer else {
        return begun;
    };
    send_rest(begun, segn)
}

// Sends the segments behind segment 0.
fn send_rest(begun: Bench, segn: u8) -> Bench {
    let mut bench = begun;
    for n in 1..=segn {
        bench = send_segment(bench, n);
    }
    bench
}

// Sends one segment.
fn send_segment(bench: Bench, n: u8) -> Bench {
    let mut pdu = [0u8; network::header::PDU];
    let spoken = sending::segment::send(bench.sender, n, &mut pdu);
    carry(bench, spoken, &pdu)
}

// What the box said is carried to the receiver.
fn carry(bench: Bench, spoken: Spoken, pdu: &[u8]) -> Bench {
    say(bench.sender.next[0], spoken.answer, pdu);
    let heard = text::first(pdu, site::words::made(spoken.answer));
    Bench {
        sender: spoken.receiver,
        station: hear(bench.station, heard),
    }
}

// Beside its like in other programs: what writes to standard output stays in the program, since no equation could be its contract.
// Writes what was said with a SEQ.
fn say(seq: u32, answer: Result<Answer, Refusal>, pdu: &[u8]) {
    let mut line = [0u8; 128];
    let mut w = Writer::new(&mut line, 0);
    site::words::put_said(seq, answer, pdu, &mut w);
    io::write_all(1, w.text());
}

// Beside its like in other programs: what writes to standard output stays in the program, since no equation could be its contract.
// A node hears a PDU and answers; what it hands up is shown.
fn hear(node: Receiver, pdu: &[u8]) -> Receiver {
    let mut forward = [0u8; network::header::PDU];
    let mut message = [0u8; transport::securing::MESSAGE];
    let heard = receiver::hear::hear(node, pdu, &mut forward, &mut message);
    let mut line = [0u8; 128];
    let mut w = Writer::new(&mut line, 0);
    site::words::put_answer(heard.answer, &mut w);
    io::write_all(1, w.text());
    let n = site::words::handed_up(heard.answer);
    if 0 < n {
        show(text::first(&message, n));
    }
    heard.receiver
}

// Beside its like in other programs: what writes to standard output stays in the program, since no equation could be its contract.
// Writes a message as a line.
fn show(message: &[u8]) {
    let mut line = [0u8; 512];
    let mut w = Writer::new(&mut line, 0);
    w.put(message);
    w.put(b"\n");
    io::write_all(1, w.text());
}

// The receiver acknowledges, and the box hears it.
fn acknowledge(bench: Bench) {
    let mut pdu = [0u8; network::header::PDU];
    let spoken = sending::acknowledge::send(bench.station, 0, SENDER, &mut pdu);
    say(bench.station.next[0], spoken.answer, &pdu);
    hear(
        bench.sender,
        text::first(&pdu, site::words::made(spoken.answer)),
    );
}
