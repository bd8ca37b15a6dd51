// A node is made from keys, addresses and the IV Index: everything unused is zero, and what is derived from keys is worked out once.
ghost use Rattle.std.specs.Prelude.{◌≡◌, ◌<◌, ◌≤◌, None, ltb, set, slice_get, if◌then◌else◌};
ghost use Rattle.common.specs.Lists.{tab};
ghost use Rattle.network.specs.Candidates.{network_key_places};
ghost use Rattle.transport.specs.Securing.{application_key_places, label_places};
ghost use Rattle.node.specs.Setup.{nothing as nothingGiven, counted as countedTo, with_network_key, with_application_key, with_group, with_label};
ghost use Rattle.node.specs.Setup.{every, group_kind, is_group, bound_within, keys_valid, next_within, elements_valid, groups_valid, index_valid, valid, network_key_at, material_at, bound_key_at, next_at, group_at, label_uuid_at, node_of, next_of, making};
ghost use Rattle.node.specs.Addresses.{group_places, element_places};

use super::addresses::{Key, Label, Node};
use keys::NetworkKeys;
use network::address::AddressKind;
use transport::securing::{ApplicationKey, LabelUuid};

// An application key, and the place of the network key that it is bound to.
#[derive(Clone, Copy)]
pub struct BoundKey {
    pub key: [u8; 16],
    pub network: usize,
}

// Each number stands beside its array, since memory is fixed: a caller fills both in.
#[derive(Clone, Copy)]
pub struct Setup {
    // How many network keys there are: 1 to 4.
    pub networks: usize,
    pub netkeys: [Key; network::opening::KEYS],
    // How many application keys there are: 0 to 4.
    pub applications: usize,
    pub appkeys: [BoundKey; transport::securing::KEYS],
    pub device: [u8; 16],
    // The first element's address, and how many elements there are: 1 to 8, each with its next SEQ.
    pub first: u16,
    pub elements: usize,
    pub next: [u32; super::addresses::ELEMENTS],
    // How many group addresses are listened to: 0 to 8.
    pub listened: usize,
    pub groups: [u16; super::addresses::GROUPS],
    // How many labels there are: 0 to 4.
    pub labelled: usize,
    pub labels: [Label; transport::securing::LABELS],
    pub iv: u32,
    pub flag: bool,
    pub relay: bool,
}

// The node, with each element's next SEQ.
#[derive(Clone, Copy)]
pub struct Made {
    pub node: Node,
    pub next: [u32; super::addresses::ELEMENTS],
}

// Nothing is given: zeros, and relay off. What there is is filled in.
pub fn nothing() -> Setup
    ensures { result ≡ nothingGiven }
{
    Setup {
        networks: 0,
        netkeys: [Key { octets: [0u8; 16] }; network::opening::KEYS],
        applications: 0,
        appkeys: [BoundKey {
            key: [0u8; 16],
            network: 0,
        }; transport::securing::KEYS],
        device: [0u8; 16],
        first: 0x0000,
        elements: 0,
        next: [0u32; super::addresses::ELEMENTS],
        listened: 0,
        groups: [0u16; super::addresses::GROUPS],
        labelled: 0,
        labels: [Label { octets: [0u8; 16] }; transport::securing::LABELS],
        iv: 0,
        flag: false,
        relay: false,
    }
}

// One more than a count, which stops once it is above `most`: more than a node holds are counted, so that its setup is refused.
pub fn counted(n: usize, most: u8) -> usize
    ensures { result ≡ countedTo most n }
{
    if n <= most as usize { n + 1 } else { n }
}

// The places with one of them set; past the last nothing is.
fn placed<T: Copy, const N: usize>(places: [T; N], n: usize, x: T) -> [T; N]
    ensures { result ≡ set places n x }
{
    let mut after = places;
    if n < N {
        after[n] = x;
    }
    after
}

// The setup with the next network key.
pub fn with_network_key(s: Setup, octets: [u8; 16]) -> Setup
    ensures { result ≡ with_network_key s octets }
{
    Setup {
        networks: counted(s.networks, 4),
        netkeys: placed(s.netkeys, s.networks, Key { octets }),
        ..s
    }
}

// The setup with the next application key, bound to a network key.
pub fn with_application_key(s: Setup, network: usize, key: [u8; 16]) -> Setup
    ensures { result ≡ with_application_key s network key }
{
    Setup {
        applications: counted(s.applications, 4),
        appkeys: placed(s.appkeys, s.applications, BoundKey { key, network }),
        ..s
    }
}

// The setup with one more group address.
pub fn with_group(s: Setup, address: u16) -> Setup
    ensures { result ≡ with_group s address }
{
    Setup {
        listened: counted(s.listened, 8),
        groups: placed(s.groups, s.listened, address),
        ..s
    }
}

// The setup with one more label.
pub fn with_label(s: Setup, octets: [u8; 16]) -> Setup
    ensures { result ≡ with_label s octets }
{
    Setup {
        labelled: counted(s.labelled, 4),
        labels: placed(s.labels, s.labelled, Label { octets }),
        ..s
    }
}

// Whether each application key is bound to a network key that there is.
fn is_bound(s: Setup) -> bool
    requires { s.applications ≤ application_key_places }
    ensures { result ≡ bound_within s }
{
    s.appkeys
        .iter()
        .take(s.applications)
        .all(|b| b.network < s.networks)
}

#[tactic(auto, unfolding(crate::specs::Setup::keys_valid))]
fn keys_valid(s: Setup) -> bool
    ensures { result ≡ keys_valid s }
{
    1 <= s.networks
        && s.networks <= network::opening::KEYS
        && s.applications <= transport::securing::KEYS
        && is_bound(s)
}

// Whether each element's next SEQ is at most 0x1000000: with that one no SEQ is left.
fn next_within(s: Setup) -> bool
    requires { s.elements ≤ element_places }
    ensures { result ≡ next_within s }
{
    s.next.iter().take(s.elements).all(|seq| *seq <= 0x1000000)
}

#[tactic(auto, unfolding(crate::specs::Setup::elements_valid))]
fn elements_valid(s: Setup) -> bool
    ensures { result ≡ elements_valid s }
{
    1 <= s.elements
        && s.elements <= super::addresses::ELEMENTS
        && 1 <= s.first
        && s.first as usize + s.elements <= 0x8000
        && next_within(s)
}

fn group(kind: AddressKind) -> bool
    ensures { result ≡ group_kind kind }
{
    matches!(kind, AddressKind::Group)
}

// Whether what is listened to are group addresses.
fn groups_within(s: Setup) -> bool
    requires { s.listened ≤ group_places }
    ensures { result ≡ every is_group s.listened s.groups }
{
    s.groups
        .iter()
        .take(s.listened)
        .all(|g| group(network::address::kind(*g)))
}

#[tactic(auto, unfolding(crate::specs::Setup::groups_valid))]
fn groups_valid(s: Setup) -> bool
    ensures { result ≡ groups_valid s }
{
    s.listened <= super::addresses::GROUPS && groups_within(s)
}

// Flag 1 with IV Index 0 is refused.
#[tactic(auto, unfolding(crate::specs::Setup::index_valid))]
fn index_valid(s: Setup) -> bool
    ensures { result ≡ index_valid s }
{
    !s.flag || s.iv != 0
}

#[tactic(auto, unfolding(crate::specs::Setup::valid))]
fn is_valid(s: Setup) -> bool
    ensures { result ≡ valid s }
{
    keys_valid(s)
        && elements_valid(s)
        && groups_valid(s)
        && s.labelled <= transport::securing::LABELS
        && index_valid(s)
}

// What stands at place i, where that is one of the first n; there is none at the others.
fn held<T: Copy, const N: usize>(places: [T; N], n: usize, i: usize) -> Option<T>
    ensures { result ≡ if ltb i n then slice_get places i else None }
{
    if i < n { places.get(i).copied() } else { None }
}

#[tactic(auto, unfolding(crate::specs::Setup::network_key_at))]
fn network_key_at(s: Setup, i: usize) -> Key
    requires { i < network_key_places }
    ensures { result ≡ network_key_at s i }
{
    held(s.netkeys, s.networks, i).unwrap_or(Key { octets: [0u8; 16] })
}

#[tactic(auto, unfolding(crate::specs::Setup::material_at))]
fn material_at(s: Setup, i: usize) -> NetworkKeys
    requires { i < network_key_places }
    ensures { result ≡ material_at s i }
{
    match held(s.netkeys, s.networks, i) {
        Some(key) => keys::k2(key.octets),
        None => NetworkKeys {
            nid: 0,
            encryption: [0u8; 16],
            privacy: [0u8; 16],
        },
    }
}

#[tactic(auto, unfolding(crate::specs::Setup::bound_key_at))]
fn application_key_at(s: Setup, i: usize) -> ApplicationKey
    requires { i < application_key_places }
    ensures { result ≡ bound_key_at s i }
{
    match held(s.appkeys, s.applications, i) {
        Some(b) => {
            let key = b.key;
            ApplicationKey {
                key,
                aid: keys::k4(key),
                bound: b.network,
            }
        }
        None => ApplicationKey {
            key: [0u8; 16],
            aid: 0,
            bound: 0,
        },
    }
}

#[tactic(auto, unfolding(crate::specs::Setup::next_at))]
fn next_at(s: Setup, i: usize) -> u32
    requires { i < element_places }
    ensures { result ≡ next_at s i }
{
    held(s.next, s.elements, i).unwrap_or(0)
}

#[tactic(auto, unfolding(crate::specs::Setup::group_at))]
fn group_at(s: Setup, i: usize) -> u16
    requires { i < group_places }
    ensures { result ≡ group_at s i }
{
    held(s.groups, s.listened, i).unwrap_or(0)
}

#[tactic(auto, unfolding(crate::specs::Setup::label_uuid_at))]
fn label_at(s: Setup, i: usize) -> LabelUuid
    requires { i < label_places }
    ensures { result ≡ label_uuid_at s i }
{
    match held(s.labels, s.labelled, i) {
        Some(label) => {
            let octets = label.octets;
            LabelUuid {
                octets,
                address: keys::label_address(octets),
            }
        }
        None => LabelUuid {
            octets: [0u8; 16],
            address: 0,
        },
    }
}

// The places of each array together.
fn network_keys_of(s: Setup) -> [Key; network::opening::KEYS]
    ensures { result ≡ tab (network_key_at s) network_key_places }
{
    std::array::from_fn(|i| network_key_at(s, i))
}

fn materials_of(s: Setup) -> [NetworkKeys; network::opening::KEYS]
    ensures { result ≡ tab (material_at s) network_key_places }
{
    std::array::from_fn(|i| material_at(s, i))
}

fn application_keys_of(s: Setup) -> [ApplicationKey; transport::securing::KEYS]
    ensures { result ≡ tab (bound_key_at s) application_key_places }
{
    std::array::from_fn(|i| application_key_at(s, i))
}

fn groups_of(s: Setup) -> [u16; super::addresses::GROUPS]
    ensures { result ≡ tab (group_at s) group_places }
{
    std::array::from_fn(|i| group_at(s, i))
}

fn labels_of(s: Setup) -> [LabelUuid; transport::securing::LABELS]
    ensures { result ≡ tab (label_uuid_at s) label_places }
{
    std::array::from_fn(|i| label_at(s, i))
}

#[tactic(auto, unfolding(crate::specs::Setup::node_of))]
fn node_of(s: Setup) -> Node
    ensures { result ≡ node_of s }
{
    let device = s.device;
    Node {
        networks: s.networks,
        netkeys: network_keys_of(s),
        materials: materials_of(s),
        applications: s.applications,
        appkeys: application_keys_of(s),
        device,
        first: s.first,
        elements: s.elements,
        listened: s.listened,
        groups: groups_of(s),
        labelled: s.labelled,
        labels: labels_of(s),
        iv: s.iv,
        flag: s.flag,
        relay: s.relay,
    }
}

#[tactic(auto, unfolding(crate::specs::Setup::next_of))]
fn next_of(s: Setup) -> [u32; super::addresses::ELEMENTS]
    ensures { result ≡ next_of s }
{
    std::array::from_fn(|i| next_at(s, i))
}

// Makes the node of a setup; there is none where the setup is outside the rules.
#[tactic(auto, unfolding(crate::specs::Setup::making))]
pub fn make(s: Setup) -> Option<Made>
    ensures { result ≡ making s }
{
    if !is_valid(s) {
        return None;
    }
    Some(Made {
        node: node_of(s),
        next: next_of(s),
    })
}
