// The requests on key derivation (MP 3.8.2).
//
// Each writes its answer: nothing where the line is not of its form.
use text::writer::Writer;
use text::{field, hex};

// Answers a request of this file.
pub(crate) fn request(line: &[u8], w: &mut Writer) {
    match field::nth(line, 0) {
        b"s1" => salt(line, w),
        b"k2" => netkeys(line, w),
        b"k4" => aid(line, w),
        _ => (),
    }
}

// `s1 MESSAGE`: the salt.
fn salt(line: &[u8], w: &mut Writer) {
    let mut message = [0u8; modes::ccm::LONGEST];
    let Some(n) = hex::read(field::last(line, 1), &mut message) else {
        return;
    };
    w.hex(&keys::s1(text::first(&message, n)));
}

// `k2 KEY`: NID, encryption key and privacy key.
fn netkeys(line: &[u8], w: &mut Writer) {
    let mut key = [0u8; 16];
    if !hex::fill(field::last(line, 1), &mut key) {
        return;
    }
    let k = keys::k2(key);
    w.hex(&[k.nid]);
    super::part::put_field(&k.encryption, w);
    super::part::put_field(&k.privacy, w);
}

// `k4 KEY`: the AID.
fn aid(line: &[u8], w: &mut Writer) {
    let mut key = [0u8; 16];
    if !hex::fill(field::last(line, 1), &mut key) {
        return;
    }
    w.hex(&[keys::k4(key)]);
}
