// An access message is secured under an application key or the device key, to an address or to a label, and opened by the keys and labels that fit.
ghost use Rattle.std.specs.Prelude.{map, ◌≡◌, ◌+◌, ◌-◌, ◌<◌, ◌≤◌, length};
ghost use Rattle.common.specs.Lent.{lent};
ghost use Rattle.common.specs.Trials.{tries};
ghost use Rattle.modes.specs.Ccm.{mic_octets};
ghost use Rattle.transport.specs.declared.securing.Opener.TheVariants.{Labelled};
ghost use Rattle.transport.specs.Securing.{trans_mic, message_nonce_of, opened_by, application_key_places, fits_key, is_virtual, label_candidates, opens_message};
ghost use Rattle.transport.specs.Securing.{tried_as, under_key, by_application_keys, by_device_key, securing, unsecuring};

use modes::ccm::MicSize;
use network::address::AddressKind;

// How many application keys can be held, and labels.
pub const KEYS: usize = 4;

pub const LABELS: usize = 4;

// The most octets that a message has.
pub const MESSAGE: usize = modes::ccm::LONGEST;

// An application key, its AID, and the place of the network key that it is bound to.
#[derive(Clone, Copy)]
pub struct ApplicationKey {
    pub key: [u8; 16],
    pub aid: u8,
    pub bound: usize,
}

// A label, and its virtual address.
#[derive(Clone, Copy)]
pub struct LabelUuid {
    pub octets: [u8; 16],
    pub address: u16,
}

// What a node opens access messages by. A count stands beside each array, as there is no heap; it is read as at most the places that the array has.
#[derive(Clone, Copy)]
pub struct Held {
    // How many application keys there are, in their fixed order.
    pub applications: usize,
    pub appkeys: [ApplicationKey; KEYS],
    pub device: [u8; 16],
    // How many labels there are, in their fixed order.
    pub labelled: usize,
    pub labels: [LabelUuid; LABELS],
}

// What the keys and the nonce of an access message rest on. Of a segmented message iv and seq are those of its SeqAuth.
#[derive(Clone, Copy)]
pub struct Envelope {
    // The place of the network key that opened it.
    pub network: usize,
    pub akf: bool,
    pub aid: u8,
    pub szmic: bool,
    pub iv: u32,
    pub seq: u32,
    pub src: u16,
    pub dst: u16,
}

// The key that secures a message.
#[derive(Clone, Copy)]
pub enum MessageKey {
    // The application key at this place.
    Application(usize),
    Device,
}

// What opened a message.
#[derive(Clone, Copy)]
pub enum Opener {
    // The application key at this place, alone.
    Application(usize),
    // An application key with a label, by their places.
    Labelled { key: usize, label: usize },
    Device,
}

// An opened message: it stands in the first octets of the buffer, so many.
#[derive(Clone, Copy)]
pub struct Opened {
    pub opener: Opener,
    // How many pairs of an application key and a label, or of a key alone, were tried: the place of the one that opened it, from 1; 0 for the device key.
    pub trials: usize,
    pub len: usize,
}

// Why a message is not opened.
#[derive(Clone, Copy)]
pub enum Unopened {
    // 13: nothing that fits opens the message, or it is too short for payload and TransMIC.
    NotOpened { trials: usize },
    // 16: the buffer is shorter than 384.
    ShortBuffer,
}

// What became of the trials under one application key.
#[derive(Clone, Copy)]
pub struct Tried {
    pub trials: usize,
    // What opened the message, if anything did.
    pub opener: Option<Opener>,
}

// The size of the TransMIC. It stands beside network's of the NetMIC: SZMIC tells this one and CTL that one, by two rules of the document.
fn trans_mic(szmic: bool) -> MicSize
    ensures { result ≡ trans_mic szmic }
{
    if szmic { MicSize::Eight } else { MicSize::Four }
}

fn mic_octets(szmic: bool) -> usize
    ensures { result ≡ mic_octets (trans_mic szmic) }
{
    if szmic { 8 } else { 4 }
}

// The nonce of a message under an application key if AKF is 1, else under the device key.
#[tactic(auto, unfolding(crate::specs::Securing::message_nonce_of))]
fn message_nonce(e: Envelope) -> [u8; 13]
    ensures { result ≡ message_nonce_of e }
{
    if e.akf {
        return network::nonce::application(e.szmic, e.seq, e.src, e.dst, e.iv);
    }
    network::nonce::device(e.szmic, e.seq, e.src, e.dst, e.iv)
}

// Writes the message, encrypted under a key, and its TransMIC to the first octets of out. A label's octets are the additional data; to an address there is
// none. The answer is a bool, as CCM's is (DECISIONS).
#[tactic(auto, unfolding(modes::specs::Ccm::sealing_with, crate::specs::Securing::securing, crate::specs::Securing::secured))]
pub fn secure(key: [u8; 16], e: Envelope, additional: &[u8], message: &[u8], out: &mut [u8]) -> bool
    ensures { lent result out.new ≡ securing key e additional.now message.now out.old }
{
    modes::ccm::seal_with(
        aes::expand(key),
        message_nonce(e),
        trans_mic(e.szmic),
        additional,
        message,
        out,
    )
}

// One key and additional data tried on a message: out is untouched where it does not authenticate. A bool, as CCM answers.
#[tactic(auto, unfolding(crate::specs::Securing::opened_by))]
fn open_by(key: [u8; 16], e: Envelope, additional: &[u8], sealed: &[u8], out: &mut [u8]) -> bool
    ensures { lent result out.new ≡ opened_by key e additional.now sealed.now out.old }
{
    modes::ccm::open_with(
        aes::expand(key),
        message_nonce(e),
        trans_mic(e.szmic),
        additional,
        sealed,
        out,
    )
}

// One key and label tried on a message.
fn open_by_label(key: [u8; 16], e: Envelope, label: [u8; 16], sealed: &[u8], out: &mut [u8]) -> bool
    ensures { lent result out.new ≡ opened_by key e label sealed.now out.old }
{
    open_by(key, e, &label, sealed, out)
}

// Whether an application key is of the message's AID and bound to the network key that opened it.
fn fits(e: Envelope, k: ApplicationKey) -> bool
    ensures { result ≡ fits_key e k }
{
    k.aid == e.aid && k.bound == e.network
}

// Whether an address is virtual.
#[tactic(auto, unfolding(crate::specs::Securing::is_virtual))]
fn is_virtual(address: u16) -> bool
    ensures { result ≡ is_virtual address }
{
    matches!(network::address::kind(address), AddressKind::Virtual)
}

// The labels of the message's DST are tried one by one under the application key at place i, stopping at the first that authenticates. What the trials take
// is no struct: it would hold the buffer, and the contracts name what that held and holds.
fn open_by_labels(held: Held, i: usize, e: Envelope, sealed: &[u8], out: &mut [u8]) -> Tried
    requires { i < application_key_places }
    ensures { lent result out.new ≡ tried_as held e sealed.now out.old (tries (opens_message held e sealed.now out.old) (map (Labelled i) (label_candidates held e.dst))) }
{
    let key = held.appkeys[i].key;
    let mut j: usize = 0;
    let mut trials: usize = 0;
    // A loop that ends by break, the form that document 01 names for trials: it yields what became of them.
    loop {
        if LABELS <= j || held.labelled <= j {
            break Tried {
                trials,
                opener: None,
            };
        }
        let l = held.labels[j];
        if l.address == e.dst {
            trials += 1;
            if open_by_label(key, e, l.octets, sealed, out) {
                break Tried {
                    trials,
                    opener: Some(Opener::Labelled { key: i, label: j }),
                };
            }
        }
        j += 1;
    }
}

// What is tried under the application key at place i: for a virtual DST each label of that address, for any other the key alone.
#[tactic(auto, using(crate::proofs::SecuringLaws::under_labels))]
fn open_under(held: Held, i: usize, e: Envelope, sealed: &[u8], out: &mut [u8]) -> Tried
    requires { i < application_key_places }
    ensures { lent result out.new ≡ under_key held i e sealed.now out.old }
{
    if is_virtual(e.dst) {
        return open_by_labels(held, i, e, sealed, out);
    }
    let opened = open_by(held.appkeys[i].key, e, &[], sealed, out);
    Tried {
        trials: 1,
        opener: opened.then_some(Opener::Application(i)),
    }
}

// The application keys that fit are tried one by one, and what there is under each, stopping at the first that authenticates.
fn open_by_application(
    held: Held,
    e: Envelope,
    sealed: &[u8],
    out: &mut [u8],
) -> Result<Opened, Unopened>
    requires { mic_octets (trans_mic e.szmic) ≤ length sealed.now }
    ensures { lent result out.new ≡ by_application_keys held e sealed.now out.old }
{
    let len = sealed.len() - mic_octets(e.szmic);
    let mut i: usize = 0;
    let mut trials: usize = 0;
    // A loop that ends by break, the form that document 01 names for trials: it yields the answer.
    loop {
        if KEYS <= i || held.applications <= i {
            break Err(Unopened::NotOpened { trials });
        }
        if fits(e, held.appkeys[i]) {
            let t = open_under(held, i, e, sealed, out);
            trials += t.trials;
            if let Some(opener) = t.opener {
                break Ok(Opened {
                    opener,
                    trials,
                    len,
                });
            }
        }
        i += 1;
    }
}

// The device key, which is not counted.
#[tactic(auto, unfolding(crate::specs::Securing::by_device_key))]
fn open_by_device(
    device: [u8; 16],
    e: Envelope,
    sealed: &[u8],
    out: &mut [u8],
) -> Result<Opened, Unopened>
    requires { mic_octets (trans_mic e.szmic) ≤ length sealed.now }
    ensures { lent result out.new ≡ by_device_key device e sealed.now out.old }
{
    if !open_by(device, e, &[], sealed, out) {
        return Err(Unopened::NotOpened { trials: 0 });
    }
    Ok(Opened {
        opener: Opener::Device,
        trials: 0,
        len: sealed.len() - mic_octets(e.szmic),
    })
}

// Writes the message that was secured to the first octets of out; out is untouched where nothing held opens it.
#[tactic(auto, using(modes::proofs::CcmLaws::mic_octets_bounds), unfolding(crate::specs::Securing::unsecuring))]
pub fn open(held: Held, e: Envelope, sealed: &[u8], out: &mut [u8]) -> Result<Opened, Unopened>
    ensures { lent result out.new ≡ unsecuring held e sealed.now out.old }
{
    if out.len() < MESSAGE {
        return Err(Unopened::ShortBuffer);
    }
    if sealed.len() < 1 + mic_octets(e.szmic) {
        return Err(Unopened::NotOpened { trials: 0 });
    }
    if e.akf {
        return open_by_application(held, e, sealed, out);
    }
    open_by_device(held.device, e, sealed, out)
}
