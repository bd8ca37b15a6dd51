// What every request to send names: an element, a destination, a TTL and a network key.
ghost use Rattle.std.specs.Prelude.{◌≡◌};
ghost use Rattle.sending.specs.Request.{ttl_of, ttl_allowed, sendable_kind, dst_of, destination_allowed, to_unicast, to_address, request_allowed};

use network::address::AddressKind;
use node::addresses::Node;

// Where a message goes.
#[derive(Clone, Copy)]
pub enum Destination {
    // To a unicast address or a group.
    Address(u16),
    // To the label at this place, from 0: the DST is its address.
    Label(usize),
}

#[derive(Clone, Copy)]
pub struct Request {
    // The element's number, from 0.
    pub element: usize,
    pub dst: Destination,
    // The TTL that is named, or none.
    pub ttl: Option<u8>,
    // The network key's number, from 0.
    pub network: usize,
}

// The TTL that a PDU goes out with.
pub fn ttl_of(ttl: Option<u8>) -> u8
    ensures { result ≡ ttl_of ttl }
{
    ttl.unwrap_or(4)
}

// TTL 1 is refused, and one above 127 is none.
fn ttl_allowed(ttl: Option<u8>) -> bool
    ensures { result ≡ ttl_allowed ttl }
{
    ttl.is_none_or(|n| n != 1 && n <= 127)
}

// A DST is unicast or a group, and not reserved.
fn sendable(kind: AddressKind) -> bool
    ensures { result ≡ sendable_kind kind }
{
    matches!(kind, AddressKind::Unicast | AddressKind::Group)
}

// The DST that a PDU goes out with; past the places of labels there is none.
pub(crate) fn dst_of(node: Node, d: Destination) -> u16
    ensures { result ≡ dst_of node d }
{
    match d {
        Destination::Address(a) => a,
        Destination::Label(j) => node.labels.get(j).map_or(0, |l| l.address),
    }
}

// An address must be of a kind that may be sent to; a label must be held.
fn destination_allowed(node: Node, d: Destination) -> bool
    ensures { result ≡ destination_allowed node d }
{
    match d {
        Destination::Address(a) => sendable(network::address::kind(a)),
        Destination::Label(j) => j < node.labelled.min(transport::securing::LABELS),
    }
}

// Whether a destination is a unicast address.
pub(crate) fn to_unicast(d: Destination) -> bool
    ensures { result ≡ to_unicast d }
{
    match d {
        Destination::Address(a) => network::address::is_unicast(a),
        Destination::Label(_) => false,
    }
}

// Whether a destination is an address, and no label.
pub(crate) fn to_address(d: Destination) -> bool
    ensures { result ≡ to_address d }
{
    matches!(d, Destination::Address(_))
}

// Whether a request is within the rules that all of them share.
#[tactic(auto, unfolding(crate::specs::Request::request_allowed))]
pub fn is_allowed(node: Node, q: Request) -> bool
    ensures { result ≡ request_allowed node q }
{
    q.element < node.elements.min(node::addresses::ELEMENTS)
        && q.network < node.networks.min(network::opening::KEYS)
        && destination_allowed(node, q.dst)
        && ttl_allowed(q.ttl)
}
