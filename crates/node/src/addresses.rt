// The node: what is fixed at setup (keys, addresses, relay), the IV Index with its flag, and which addresses it answers to.
ghost use Rattle.std.specs.Prelude.{◌≡◌};
ghost use Rattle.node.specs.Addresses.{no_node, is_local, listens, holds_label, answers_to, for_node, held_by};

use keys::NetworkKeys;
use transport::securing::{ApplicationKey, Held, LabelUuid};

// How many elements there can be, and group addresses listened to.
pub const ELEMENTS: usize = 8;

pub const GROUPS: usize = 8;

// Sixteen octets of a key. A label is a type of its own: none is taken for a key.
#[derive(Clone, Copy)]
pub struct Key {
    pub octets: [u8; 16],
}

// Sixteen octets of a label.
#[derive(Clone, Copy)]
pub struct Label {
    pub octets: [u8; 16],
}

// Each number of keys, elements, groups or labels stands beside its array, since memory is fixed and a caller fills both in; it is read as at most the places
// that the array has.
#[derive(Clone, Copy)]
pub struct Node {
    // How many network keys there are, in their fixed order; and the security material that is derived from each: NID, encryption key and privacy key.
    pub networks: usize,
    pub netkeys: [Key; network::opening::KEYS],
    pub materials: [NetworkKeys; network::opening::KEYS],
    // How many application keys there are.
    pub applications: usize,
    pub appkeys: [ApplicationKey; transport::securing::KEYS],
    pub device: [u8; 16],
    // The first element's address, and how many elements there are.
    pub first: u16,
    pub elements: usize,
    // How many group addresses are listened to.
    pub listened: usize,
    pub groups: [u16; GROUPS],
    // How many labels are held, in their fixed order; and each with its address, which is derived from it.
    pub labelled: usize,
    pub labels: [LabelUuid; transport::securing::LABELS],
    // The IV Index, which setup only begins with, and its flag.
    pub iv: u32,
    pub flag: bool,
    pub relay: bool,
}

// No node: zeros.
pub fn none() -> Node
    ensures { result ≡ no_node }
{
    let material = NetworkKeys {
        nid: 0,
        encryption: [0u8; 16],
        privacy: [0u8; 16],
    };
    let application_key = ApplicationKey {
        key: [0u8; 16],
        aid: 0,
        bound: 0,
    };
    let label = LabelUuid {
        octets: [0u8; 16],
        address: 0,
    };
    Node {
        networks: 0,
        netkeys: [Key { octets: [0u8; 16] }; network::opening::KEYS],
        materials: [material; network::opening::KEYS],
        applications: 0,
        appkeys: [application_key; transport::securing::KEYS],
        device: [0u8; 16],
        first: 0,
        elements: 0,
        listened: 0,
        groups: [0u16; GROUPS],
        labelled: 0,
        labels: [label; transport::securing::LABELS],
        iv: 0,
        flag: false,
        relay: false,
    }
}

// Whether an address is that of an element.
pub fn is_local(node: Node, address: u16) -> bool
    ensures { result ≡ is_local node address }
{
    if address < node.first {
        return false;
    }
    let place = (address - node.first) as usize;
    place < ELEMENTS && place < node.elements
}

// Whether a group address is listened to.
fn is_listened(node: Node, address: u16) -> bool
    ensures { result ≡ listens node address }
{
    node.groups
        .iter()
        .take(node.listened)
        .any(|g| *g == address)
}

// Whether an address is that of a label held.
fn is_held(node: Node, address: u16) -> bool
    ensures { result ≡ holds_label node address }
{
    node.labels
        .iter()
        .take(node.labelled)
        .any(|l| l.address == address)
}

// Whether a DST is one that the node answers to.
#[tactic(auto, unfolding(crate::specs::Addresses::answers_to))]
fn is_answered(node: Node, dst: u16) -> bool
    ensures { result ≡ answers_to node dst }
{
    is_local(node, dst)
        || dst == 0xFFFF
        || (dst == 0xFFFE && node.relay)
        || is_listened(node, dst)
        || is_held(node, dst)
}

// Whether a PDU to this DST is for this node: never, where the DST is reserved.
#[tactic(auto, unfolding(crate::specs::Addresses::for_node))]
pub fn is_for(node: Node, dst: u16) -> bool
    ensures { result ≡ for_node node dst }
{
    !network::address::is_reserved(dst) && is_answered(node, dst)
}

// What the node opens access messages by.
pub fn held_by(node: Node) -> Held
    ensures { result ≡ held_by node }
{
    let appkeys = node.appkeys;
    let device = node.device;
    let labels = node.labels;
    Held {
        applications: node.applications,
        appkeys,
        device,
        labelled: node.labelled,
        labels,
    }
}
