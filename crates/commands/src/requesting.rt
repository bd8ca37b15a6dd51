// What a line asks to be sent: element, destination, TTL, network key, and for an access message its key and the size of its MIC.
ghost use Rattle.std.specs.Prelude.{◌≡◌};
ghost use Rattle.commands.specs.Request.{ttl_of, destination_of, key_of, mic_of, request_of};

use sending::request::{Destination, Request};
use text::{field, number};
use transport::securing::MessageKey;

// What a TTL field says: - is one left unnamed.
#[tactic(auto, unfolding(crate::specs::Request::ttl_of))]
fn ttl_of(text: &[u8]) -> Option<Option<u8>>
    ensures { result ≡ ttl_of text.now }
{
    if common::equal(text, b"-") {
        return Some(None);
    }
    Some(Some(number::read_octet(text)?))
}

// Which destination a field names: an address, or `label:` with a label's number behind it.
#[tactic(auto, unfolding(crate::specs::Request::destination_of))]
fn destination_of(dst: &[u8]) -> Option<Destination>
    ensures { result ≡ destination_of dst.now }
{
    if common::equal(text::first(dst, 6), b"label:") {
        let label = number::read_octet(&dst[6..])?;
        return Some(Destination::Label(label as usize));
    }
    Some(Destination::Address(number::read_short(dst)?))
}

// What fields 1 to 4 of a line ask, `E DST TTL K`.
#[tactic(auto, unfolding(crate::specs::Request::request_of))]
pub(crate) fn request_of(line: &[u8]) -> Option<Request>
    ensures { result ≡ request_of line.now }
{
    let element = number::read_octet(field::nth(line, 1))?;
    let dst = destination_of(field::nth(line, 2))?;
    let ttl = ttl_of(field::nth(line, 3))?;
    let network = number::read_octet(field::nth(line, 4))?;
    Some(Request {
        element: element as usize,
        dst,
        ttl,
        network: network as usize,
    })
}

// Which key of an access message a field names: an application key's number, or `dev`.
#[tactic(auto, unfolding(crate::specs::Request::key_of))]
pub(crate) fn key_of(text: &[u8]) -> Option<MessageKey>
    ensures { result ≡ key_of text.now }
{
    if common::equal(text, b"dev") {
        return Some(MessageKey::Device);
    }
    let key = number::read_octet(text)?;
    Some(MessageKey::Application(key as usize))
}

// Whether the MIC has 8 octets, and not 4.
#[tactic(auto, unfolding(crate::specs::Request::mic_of))]
pub(crate) fn mic_of(text: &[u8]) -> Option<bool>
    ensures { result ≡ mic_of text.now }
{
    match number::read_octet(text)? {
        4 => Some(false),
        8 => Some(true),
        _ => None,
    }
}
