// Every transmission takes a new SEQ of its element.
ghost use Rattle.std.specs.Prelude.{◌≡◌, ◌+◌, ◌<◌, ◌≤◌};
ghost use Rattle.common.specs.Lent.{lent};
ghost use Rattle.node.specs.Addresses.{element_places};
ghost use Rattle.sending.specs.Transmission.{sending_iv, address_of, next_seq, with_next, stamped, transmitted};

use network::header::Header;
use node::addresses::Node;
use receiver::answer::Refusal;
use receiver::state::Receiver;

// An element that the receiver has a place for, by its number from 0.
#[derive(Clone, Copy)]
pub(crate) struct Element {
    pub(crate) place: usize,
    ghost held: { place < element_places },
}

#[derive(Clone, Copy)]
pub struct Transmitted {
    // The PDU stands in the first octets of the buffer, as many as named. Or 15: it needs an SEQ above 0xFFFFFF; 14: a network key cannot seal it.
    pub sent: Result<usize, Refusal>,
    pub receiver: Receiver,
}

// The IV Index that is sent with.
#[tactic(auto, unfolding(crate::specs::Transmission::sending_iv))]
pub fn iv_of(node: Node) -> u32
    ensures { result ≡ sending_iv node }
{
    network::iv_index::sent(node.iv, node.flag)
}

// An element's address; of a number past 16 bits the low ones.
#[tactic(auto, unfolding(crate::specs::Transmission::address_of))]
pub fn address_of(node: Node, element: usize) -> u16
    ensures { result ≡ address_of node element }
{
    ((node.first as usize + element % 65536) % 65536) as u16
}

// The header with the element's next SEQ and address.
#[tactic(auto, unfolding(crate::specs::Transmission::stamped))]
fn stamp(r: Receiver, element: Element, h: Header) -> Header
    ensures { result ≡ stamped r element.place h }
{
    Header {
        seq: r.next[element.place],
        src: address_of(r.node, element.place),
        ..h
    }
}

// The receiver after an element used a SEQ: its next one is put in a copy of the whole, as receiver's changes are.
#[tactic(auto, unfolding(crate::specs::Transmission::with_next))]
fn advance(r: Receiver, element: Element) -> Receiver
    requires { next_seq r element.place ≤ 0xFFFFFF }
    ensures { result ≡ with_next r element.place }
{
    let mut after = r;
    after.next[element.place] += 1;
    after
}

// Seals the header, stamped, into out; the element's SEQ is used only where the PDU is made.
#[tactic(auto, unfolding(crate::specs::Transmission::transmitted, crate::specs::Transmission::sent_as))]
pub(crate) fn transmit(r: Receiver, element: Element, h: Header, out: &mut [u8]) -> Transmitted
    ensures { lent result out.new ≡ transmitted r element.place h out.old }
{
    if 0xFFFFFF < r.next[element.place] {
        return Transmitted {
            sent: Err(Refusal::NoSeqLeft),
            receiver: r,
        };
    }
    if network::opening::KEYS <= h.key {
        return Transmitted {
            sent: Err(Refusal::OutsideRules),
            receiver: r,
        };
    }
    match network::sealing::seal(r.node.materials[h.key], stamp(r, element, h), out) {
        Ok(n) => Transmitted {
            sent: Ok(n),
            receiver: advance(r, element),
        },
        Err(_) => Transmitted {
            sent: Err(Refusal::OutsideRules),
            receiver: r,
        },
    }
}
