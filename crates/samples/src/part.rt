// A field of an answer.
use text::writer::Writer;

// Writes a space and then octets.
pub(crate) fn put_field(octets: &[u8], w: &mut Writer) {
    w.put(b" ");
    w.hex(octets);
}
