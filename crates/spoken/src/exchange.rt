// Messages #6 to #9 (MP 8.3.6 to 8.3.9): an access message in two segments under the device key, of which the first is lost and sent again.
use super::{say, title};
use network::header::Header;
use node::addresses::Node;
use receiver::state::Receiver;
use sending::answer::Answer;
use sending::request::Destination;
use text::writer::Writer;
use transport::securing::MessageKey;

// The sender: it sends message #6, hears what a friend of the destination acknowledges (#7, #9), and sends segment 0 again (#8).
pub(crate) fn send_all(node: Receiver) {
    title(b"MP 8.3.6: Message #6");
    let begun = begin(node);
    let sent = segment(begun, 1);
    title(b"MP 8.3.7: Message #7, heard: OBO 1");
    let one =
        b"\x68\xe4\x76\xb5\x57\x9c\x98\x0d\x0d\x73\x0f\x94\xd7\xf3\x50\x9d\xf9\x87\xbb\x41\x7e\xb7\xc0\x5f";
    let marked = hear(sent, one);
    title(b"MP 8.3.8: Message #8");
    let again = segment(marked, 0);
    title(b"MP 8.3.9: Message #9, heard: OBO 1");
    let both =
        b"\x68\xae\xc4\x67\xed\x49\x01\xd8\x5d\x80\x6b\xbe\xd2\x48\x61\x4f\x93\x80\x67\xb0\xd9\x83\xbb\x7b";
    hear(again, both);
}

// Begins message #6: its segment 0.
fn begin(node: Receiver) -> Receiver {
    let mut pdu = [0u8; network::header::PDU];
    let spoken = sending::access::send(
        node,
        super::request(Destination::Address(0x1201), 4),
        MessageKey::Device,
        false,
        b"\x00\x56\x34\x12\x63\x96\x47\x71\x73\x4f\xbd\x76\xe3\xb4\x05\x19\xd1\xd9\x4a\x48",
        &mut pdu,
    );
    say(node.next[0], spoken.answer, &pdu);
    spoken.receiver
}

// Sends a segment of the message that the node keeps.
fn segment(node: Receiver, n: u8) -> Receiver {
    let mut pdu = [0u8; network::header::PDU];
    let spoken = sending::segment::send(node, n, &mut pdu);
    say(node.next[0], spoken.answer, &pdu);
    spoken.receiver
}

// Beside its like in other programs: what writes to standard output stays in the program, since no equation could be its contract.
// A node hears a PDU; a message that it hands up is written.
fn hear(node: Receiver, pdu: &[u8]) -> Receiver {
    let mut forward = [0u8; network::header::PDU];
    let mut message = [0u8; transport::securing::MESSAGE];
    let heard = receiver::hear::hear(node, pdu, &mut forward, &mut message);
    let mut line = [0u8; 128];
    let mut w = Writer::new(&mut line, 0);
    site::words::put_answer(heard.answer, &mut w);
    io::write_all(1, w.text());
    let n = site::words::handed_up(heard.answer);
    if 0 < n {
        write_octets(text::first(&message, n));
    }
    heard.receiver
}

// The destination: it hears segment 1 of message #6, then message #8, and acknowledges each time, where MP lets a friend do it.
pub(crate) fn acknowledge_all() {
    title(b"MP 8.3.6: Message #6, segment 1, heard");
    let station = site::setting::node(0x1201, 0x000004, 0x12345678, false);
    let second =
        b"\x68\x16\x15\xb5\xdd\x4a\x84\x6c\xae\x0c\x03\x2b\xf0\x74\x6f\x44\xf1\xb8\xcc\x8c\xe5\xed\xc5\x7e\x55\xbe\xed\x49\xc0";
    let stored = hear(station, second);
    title(b"MP 8.3.7: Message #7, with OBO 0: the transport PDU");
    let acknowledged = acknowledge(stored);
    title(b"MP 8.3.8: Message #8, heard");
    let first =
        b"\x68\x4d\xaa\x62\x67\xc2\xcf\x0e\x2f\x91\xad\xd6\xf0\x6e\x66\x00\x68\x44\xce\xc9\x7f\x97\x31\x05\xae\x25\x34\xf9\x58";
    let whole = hear(acknowledged, first);
    title(b"MP 8.3.9: Message #9, with OBO 0: the transport PDU");
    acknowledge(whole);
}

// Beside its like in other programs: what writes to standard output stays in the program, since no equation could be its contract.
// Writes octets as a line of hex pairs.
fn write_octets(octets: &[u8]) {
    let mut line = [0u8; 1024];
    let mut w = Writer::new(&mut line, 0);
    w.hex(octets);
    w.put(b"\n");
    io::write_all(1, w.text());
}

// A node acknowledges the sender of message #6, and the transport PDU is written.
fn acknowledge(node: Receiver) -> Receiver {
    let mut pdu = [0u8; network::header::PDU];
    let spoken = sending::acknowledge::send(node, 0, 0x0003, &mut pdu);
    let Ok(Answer::Sent(len)) = spoken.answer else {
        say(node.next[0], spoken.answer, &pdu);
        return node;
    };
    show_transport(node.node, text::first(&pdu, len));
    spoken.receiver
}

// Opens a PDU under the network keys of a node, and writes its transport PDU.
fn show_transport(node: Node, pdu: &[u8]) {
    if let Ok(header) = network::opening::open(node.materials, node.networks, node.iv, pdu).opened {
        write_transport(header);
    }
}

// Writes the transport PDU of a header.
fn write_transport(header: Header) {
    write_octets(text::first(&header.transport, header.len));
}
