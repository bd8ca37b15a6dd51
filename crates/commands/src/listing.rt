// The PDUs that a line lists, one in a field.
ghost use Rattle.std.specs.Prelude.{◌≡◌, ◌≤◌, length, drop};
ghost use Rattle.common.specs.Lent.{lent};
ghost use Rattle.text.specs.Field.{fields};
ghost use Rattle.commands.specs.Listing.{listing};

use text::hex;

// Lists the PDUs of a line, one behind each space, in the first octets of out: each behind one octet with its length. None where a field is no PDU,
// or one of more than 255 octets.
pub(crate) fn list(line: &[u8], out: &mut [u8]) -> Option<usize>
    requires { length line.now ≤ length out.old }
    ensures { lent result out.new ≡ listing (drop 1 (fields line.now)) out.old }
{
    let mut to: usize = 0;
    for digits in line.split(|&c| c == b' ').skip(1) {
        let mut pdu = [0u8; 255];
        let n = hex::read(digits, &mut pdu)?;
        let len = n as u8;
        let from = text::put(&[len], out, to);
        to = text::put(text::first(&pdu, n), out, from);
    }
    Some(to)
}
