// What is given before a setup, line by line.
//
// More keys, elements, groups or labels than a receiver holds are counted, so that the setup refuses them.
ghost use Rattle.std.specs.Prelude.{◌≡◌, drop, set};
ghost use Rattle.text.specs.Field.{fields};
ghost use Rattle.commands.specs.Setting.{sixteen_of, sequences_of, giving};

use node::setup;
use node::setup::Setup;
use text::{field, hex, number};

// What a line gives.
#[derive(Clone, Copy)]
pub enum Item {
    NetKey,
    AppKey,
    DevKey,
    Label,
    Elements,
    Group,
    IvIndex,
    Relay,
}

// The setup with what a line gives: none where the line's fields do not fit.
pub(crate) fn give(s: Setup, item: Item, line: &[u8]) -> Option<Setup>
    ensures { result ≡ giving s item line.now }
{
    match item {
        Item::NetKey => network_key(s, line),
        Item::AppKey => application_key(s, line),
        Item::DevKey => device_key(s, line),
        Item::Label => label(s, line),
        Item::Elements => elements(s, line),
        Item::Group => group(s, line),
        Item::IvIndex => iv_index(s, line),
        Item::Relay => relay(s, line),
    }
}

// The 16 octets of a key or a label.
fn sixteen(text: &[u8]) -> Option<[u8; 16]>
    ensures { result ≡ sixteen_of text.now }
{
    let mut octets = [0u8; 16];
    if hex::fill(text, &mut octets) {
        return Some(octets);
    }
    None
}

// `netkey KEY`: the next network key.
#[tactic(auto, unfolding(crate::specs::Setting::giving))]
fn network_key(s: Setup, line: &[u8]) -> Option<Setup>
    ensures { result ≡ giving s Item.NetKey line.now }
{
    let key = sixteen(field::last(line, 1))?;
    Some(setup::with_network_key(s, key))
}

// `appkey N KEY`: the next application key, bound to network key N.
#[tactic(auto, unfolding(crate::specs::Setting::giving))]
fn application_key(s: Setup, line: &[u8]) -> Option<Setup>
    ensures { result ≡ giving s Item.AppKey line.now }
{
    let network = number::read_octet(field::nth(line, 1))?;
    let key = sixteen(field::last(line, 2))?;
    Some(setup::with_application_key(s, network as usize, key))
}

// `devkey KEY`: the device key.
#[tactic(auto, unfolding(crate::specs::Setting::giving))]
fn device_key(s: Setup, line: &[u8]) -> Option<Setup>
    ensures { result ≡ giving s Item.DevKey line.now }
{
    let device = sixteen(field::last(line, 1))?;
    Some(Setup { device, ..s })
}

// `label LABEL`: the next label.
#[tactic(auto, unfolding(crate::specs::Setting::giving))]
fn label(s: Setup, line: &[u8]) -> Option<Setup>
    ensures { result ≡ giving s Item.Label line.now }
{
    let label = sixteen(field::last(line, 1))?;
    Some(setup::with_label(s, label))
}

// A count beside its numbers, since there is no heap. It may pass their number: that more were said than there are places is refused later.
// Each element's next SEQ, as far as there are places, and how many were said.
#[derive(Clone, Copy)]
struct Sequences {
    count: usize,
    next: [u32; node::addresses::ELEMENTS],
}

// The numbers with one more, where there is a place for it. What does this in the crate node is private there: it is no part of what a
// setup promises.
fn with_next(
    next: [u32; node::addresses::ELEMENTS],
    place: usize,
    seq: u32,
) -> [u32; node::addresses::ELEMENTS]
    ensures { result ≡ set next place seq }
{
    let mut after = next;
    if place < node::addresses::ELEMENTS {
        after[place] = seq;
    }
    after
}

// The numbers of a line, one behind each space: none where a field is no number.
fn read_sequences(line: &[u8]) -> Option<Sequences>
    ensures { result ≡ sequences_of (drop 1 (fields line.now)) }
{
    let mut next = [0u32; node::addresses::ELEMENTS];
    let mut count: usize = 0;
    for digits in line.split(|&c| c == b' ').skip(1) {
        let seq = number::read(digits)?;
        let after = with_next(next, count, seq);
        next = after;
        count = setup::counted(count, 8);
    }
    Some(Sequences { count, next })
}

// `elements FIRST SEQ..`: the first element's address, then each element's next SEQ.
#[tactic(auto, using(text::proofs::FieldLaws::fields_from_two), unfolding(crate::specs::Setting::giving))]
fn elements(s: Setup, line: &[u8]) -> Option<Setup>
    ensures { result ≡ giving s Item.Elements line.now }
{
    let first = number::read_short(field::nth(line, 1))?;
    let Sequences { count, next } = read_sequences(field::last(line, 1))?;
    Some(Setup {
        first,
        elements: count,
        next,
        ..s
    })
}

// `group ADDRESS`: one more group address listened to.
#[tactic(auto, unfolding(crate::specs::Setting::giving))]
fn group(s: Setup, line: &[u8]) -> Option<Setup>
    ensures { result ≡ giving s Item.Group line.now }
{
    let address = number::read_short(field::last(line, 1))?;
    Some(setup::with_group(s, address))
}

// `ivindex INDEX FLAG`: the IV Index and its update flag.
#[tactic(auto, unfolding(crate::specs::Setting::giving))]
fn iv_index(s: Setup, line: &[u8]) -> Option<Setup>
    ensures { result ≡ giving s Item.IvIndex line.now }
{
    let iv = number::read(field::nth(line, 1))?;
    let flag = number::read_bit(field::last(line, 2))?;
    Some(Setup { iv, flag, ..s })
}

// `relay 0` or `relay 1`: relay off or on.
#[tactic(auto, unfolding(crate::specs::Setting::giving))]
fn relay(s: Setup, line: &[u8]) -> Option<Setup>
    ensures { result ≡ giving s Item.Relay line.now }
{
    let relay = number::read_bit(field::last(line, 1))?;
    Some(Setup { relay, ..s })
}
