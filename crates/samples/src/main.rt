// Runs the samples of public documents: each line of standard input is a request, and its answer is one line of standard output.
//
// A line that begins with # is written out as it is. A request is a word and its fields, with one space between them. Octets are
// hex pairs, at most 384 in a message or in additional data, and - stands for none. A line that is no request, or not of its form,
// is answered `unread`. The form of each request stands over its function, in ciphers.rt, derivation.rt and pdu.rt.
#![tactic(auto)]

mod ciphers;
mod derivation;
mod part;
mod pdu;

use text::writer::Writer;

// Reads standard input, its first 65,536 octets, and answers it.
fn main() {
    let mut input = io::large_buffer();
    let n = io::read_full(0, &mut input);
    answer_all(&input[..n]);
}

// Answers each line, with its newline if it has one.
fn answer_all(input: &[u8]) {
    for line in input.split_inclusive(|&c| c == b'\n') {
        answer(line);
    }
}

// Answers one line, which ends with its newline if it has one.
fn answer(line: &[u8]) {
    if line.starts_with(b"#") {
        io::write_all(1, line);
        return;
    }
    let mut out = io::buffer();
    let mut w = Writer::new(&mut out, 0);
    respond(line.strip_suffix(b"\n").unwrap_or(line), &mut w);
    io::write_all(1, w.text());
}

// Writes the answer to a request, and a newline.
fn respond(line: &[u8], w: &mut Writer) {
    request(line, w);
    if w.text().is_empty() {
        w.put(b"unread");
    }
    w.put(b"\n");
}

// Writes the answer to a request: nothing where the line is no request.
fn request(line: &[u8], w: &mut Writer) {
    ciphers::request(line, w);
    if w.text().is_empty() {
        derivation::request(line, w);
    }
    if w.text().is_empty() {
        pdu::request(line, w);
    }
}
