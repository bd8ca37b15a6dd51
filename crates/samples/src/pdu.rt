// The requests on one Network PDU (MP 3.4).
//
// Each writes its answer: nothing where the line is not of its form.
ghost use Rattle.std.specs.Prelude.{◌<◌};

use keys::NetworkKeys;
use network::header::Header;
use network::opening::Opening;
use std::array;
use text::writer::Writer;
use text::{field, hex};

// Answers a request of this file.
pub(crate) fn request(line: &[u8], w: &mut Writer) {
    match field::nth(line, 0) {
        b"netseal" => sealed(line, w),
        b"netopen" => opened(line, w),
        _ => (),
    }
}

// `netseal NETKEY IVINDEX CTL TTL SEQ SRC DST TRANSPORT`: the Network PDU, or `refused` and the refusal's number.
fn sealed(line: &[u8], w: &mut Writer) {
    let mut key = [0u8; 16];
    let Some(h) = header_of(line) else {
        return;
    };
    if !hex::fill(field::nth(line, 1), &mut key) {
        return;
    }
    let mut pdu = [0u8; network::header::PDU];
    let sealed = network::sealing::seal(keys::k2(key), h, &mut pdu);
    match sealed {
        Ok(n) => w.hex(text::first(&pdu, n)),
        Err(_) => w.refused(network::sealing::number(sealed)),
    }
}

// The header that fields 2 to 8 of a line say: none where one of them is not of its form, or too long, or there is no transport.
fn header_of(line: &[u8]) -> Option<Header> {
    let mut iv = [0u8; 4];
    let mut ttl = [0u8; 1];
    let mut seq = [0u8; 3];
    let mut src = [0u8; 2];
    let mut dst = [0u8; 2];
    let mut transport = [0u8; 16];
    let ctl = field::nth(line, 3);
    if !matches!(ctl, b"0" | b"1")
        || !hex::fill(field::nth(line, 2), &mut iv)
        || !hex::fill(field::nth(line, 4), &mut ttl)
        || !hex::fill(field::nth(line, 5), &mut seq)
        || !hex::fill(field::nth(line, 6), &mut src)
        || !hex::fill(field::nth(line, 7), &mut dst)
    {
        return None;
    }
    let len = hex::read(field::last(line, 8), &mut transport)?;
    if len == 0 {
        return None;
    }
    Some(Header {
        key: 0,
        iv: u32::from_be_bytes(iv),
        ctl: matches!(ctl, b"1"),
        ttl: ttl[0],
        seq: u32::from_be_bytes([0, seq[0], seq[1], seq[2]]),
        src: u16::from_be_bytes(src),
        dst: u16::from_be_bytes(dst),
        len,
        transport,
    })
}

// The network keys that a line says, one to four.
#[derive(Clone, Copy)]
struct Held {
    list: [NetworkKeys; network::opening::KEYS],
    count: usize,
}

// The keys of a field, 16 octets each: none where it has no octets, or no whole number of keys.
fn held_of(text: &[u8]) -> Option<Held> {
    let mut octets = [0u8; 64];
    let n = hex::read(text, &mut octets)?;
    if n == 0 || n % 16 != 0 {
        return None;
    }
    let list = array::from_fn(|i| key_at(&octets, i));
    Some(Held {
        list,
        count: n / 16,
    })
}

// What network key i, from 0, of the four gives.
fn key_at(octets: &[u8; 64], i: usize) -> NetworkKeys
    requires { i < 4 }
{
    keys::k2(array::from_fn(|j| octets[16 * i + j]))
}

// `netopen NETKEYS IVINDEX PDU`: what the Network PDU says, how many keys were tried and which opened it; or `refused`, the
// refusal's number and how many keys were tried.
fn opened(line: &[u8], w: &mut Writer) {
    let Some(held) = held_of(field::nth(line, 1)) else {
        return;
    };
    let mut iv = [0u8; 4];
    if !hex::fill(field::nth(line, 2), &mut iv) {
        return;
    }
    let mut octets = [0u8; 64];
    let Some(n) = hex::read(field::last(line, 3), &mut octets) else {
        return;
    };
    let current = u32::from_be_bytes(iv);
    let pdu = text::first(&octets, n);
    put_opening(
        network::opening::open(held.list, held.count, current, pdu),
        w,
    )
}

// Puts what became of a Network PDU.
fn put_opening(o: Opening, w: &mut Writer) {
    match o.opened {
        Ok(h) => {
            put_header(h, w);
            w.decimal(b" trials ", o.trials as u64);
            w.decimal(b" key ", h.key as u64);
        }
        Err(_) => {
            w.refused(network::opening::number(o.opened));
            w.decimal(b" trials ", o.trials as u64);
        }
    }
}

// Puts what a Network PDU says: CTL, TTL, SEQ, SRC, DST and transport.
fn put_header(h: Header, w: &mut Writer) {
    let transport = h.transport;
    put_front(h, w);
    super::part::put_field(&h.src.to_be_bytes(), w);
    super::part::put_field(&h.dst.to_be_bytes(), w);
    super::part::put_field(text::first(&transport, h.len), w);
}

// Puts CTL, TTL and SEQ.
fn put_front(h: Header, w: &mut Writer) {
    w.put(if h.ctl { b"1" } else { b"0" });
    super::part::put_field(&[h.ttl], w);
    super::part::put_field(&h.seq.to_be_bytes()[1..], w);
}
