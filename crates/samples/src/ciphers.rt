// The requests on AES-128, CMAC and CCM.
//
// Each writes its answer: nothing where the line is not of its form.
ghost use Rattle.std.specs.Prelude.{◌≤◌};

use modes::ccm::MicSize;
use text::writer::Writer;
use text::{field, hex};

// Answers a request of this file.
pub(crate) fn request(line: &[u8], w: &mut Writer) {
    match field::nth(line, 0) {
        b"aes" => encrypted(line, w),
        b"cmac" => mac(line, w),
        b"seal" => ccm(line, true, w),
        b"open" => ccm(line, false, w),
        b"sealwith" => ccm_with(line, true, w),
        b"openwith" => ccm_with(line, false, w),
        _ => (),
    }
}

// `aes KEY BLOCK`: the block, encrypted.
fn encrypted(line: &[u8], w: &mut Writer) {
    let mut key = [0u8; 16];
    let mut block = [0u8; 16];
    if !hex::fill(field::nth(line, 1), &mut key) || !hex::fill(field::last(line, 2), &mut block) {
        return;
    }
    w.hex(&aes::encrypt(aes::expand(key), block));
}

// `cmac KEY MESSAGE`: the MAC of the message.
fn mac(line: &[u8], w: &mut Writer) {
    let mut key = [0u8; 16];
    let mut message = [0u8; modes::ccm::LONGEST];
    if !hex::fill(field::nth(line, 1), &mut key) {
        return;
    }
    let Some(n) = hex::read(field::last(line, 2), &mut message) else {
        return;
    };
    w.hex(&modes::cmac::cmac(aes::expand(key), text::first(&message, n)));
}

// What CCM is used with.
#[derive(Clone, Copy)]
struct Terms {
    key: [u8; 16],
    nonce: [u8; 13],
    mic: MicSize,
}

// The key, the nonce and the size of the MIC, fields 1 to 3 of a line: none where it does not say all three.
fn terms_of(line: &[u8]) -> Option<Terms> {
    let mut key = [0u8; 16];
    let mut nonce = [0u8; 13];
    let mic = mic_size(field::nth(line, 3))?;
    if !hex::fill(field::nth(line, 1), &mut key) || !hex::fill(field::nth(line, 2), &mut nonce) {
        return None;
    }
    Some(Terms { key, nonce, mic })
}

// The size that a field says that the MIC has: none where that is neither 4 nor 8.
fn mic_size(octets: &[u8]) -> Option<MicSize> {
    match octets {
        b"4" => Some(MicSize::Four),
        b"8" => Some(MicSize::Eight),
        _ => None,
    }
}

// How many octets a MIC has.
fn mic_octets(size: MicSize) -> usize
    ensures { result ≤ 8 }
{
    match size {
        MicSize::Four => 4,
        MicSize::Eight => 8,
    }
}

// `seal KEY NONCE SIZE MESSAGE` or `open KEY NONCE SIZE SEALED`.
// A flag says which: a closure that is handed on would need a promise that it may be called, and the two differ in one call.
fn ccm(line: &[u8], seals: bool, w: &mut Writer) {
    let none = [0u8; 0];
    answered(line, seals, &none, field::last(line, 4), w)
}

// `sealwith KEY NONCE SIZE ADDITIONAL MESSAGE` or `openwith KEY NONCE SIZE ADDITIONAL SEALED`.
fn ccm_with(line: &[u8], seals: bool, w: &mut Writer) {
    let mut additional = [0u8; modes::ccm::LONGEST];
    let Some(n) = hex::read(field::nth(line, 4), &mut additional) else {
        return;
    };
    answered(
        line,
        seals,
        text::first(&additional, n),
        field::last(line, 5),
        w,
    )
}

// Seals or opens the octets of the last field with additional data, under the terms of a line.
fn answered(line: &[u8], seals: bool, additional: &[u8], last: &[u8], w: &mut Writer) {
    let Some(terms) = terms_of(line) else {
        return;
    };
    let mut octets = [0u8; 392];
    let Some(n) = hex::read(last, &mut octets) else {
        return;
    };
    let given = text::first(&octets, n);
    if seals {
        sealed(terms, additional, given, w)
    } else {
        opened(terms, additional, given, w)
    }
}

// The message, encrypted, and its MIC.
fn sealed(terms: Terms, additional: &[u8], message: &[u8], w: &mut Writer) {
    let Terms { key, nonce, mic } = terms;
    let ks = aes::expand(key);
    let mut whole = [0u8; 392];
    if modes::ccm::LONGEST < message.len()
        || !modes::ccm::seal_with(ks, nonce, mic, additional, message, &mut whole)
    {
        return;
    }
    w.hex(text::first(&whole, message.len() + mic_octets(mic)));
}

// The message that was sealed, or `refused`.
fn opened(terms: Terms, additional: &[u8], sealed: &[u8], w: &mut Writer) {
    let Terms { key, nonce, mic } = terms;
    let ks = aes::expand(key);
    let mut clear = [0u8; modes::ccm::LONGEST];
    let t = mic_octets(mic);
    if sealed.len() < t || !modes::ccm::open_with(ks, nonce, mic, additional, sealed, &mut clear) {
        return w.put(b"refused");
    }
    w.hex(text::first(&clear, sealed.len() - t));
}
