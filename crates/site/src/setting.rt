// How a node of the site is set up. Its keys are those of MP's sample data (MP 8.2), which are printed and no secret.
ghost use Rattle.std.specs.Prelude.{◌≡◌};
ghost use Rattle.site.specs.Setting.{setting, ready};

use node::setup;
use node::setup::Setup;
use receiver::state::Receiver;

const NETWORK_KEY: [u8; 16] = [
    0x7d, 0xd7, 0x36, 0x4c, 0xd8, 0x42, 0xad, 0x18, 0xc1, 0x7c, 0x2b, 0x82, 0x0c, 0x84, 0xc3, 0xd6,
];

const APPLICATION_KEY: [u8; 16] = [
    0x63, 0x96, 0x47, 0x71, 0x73, 0x4f, 0xbd, 0x76, 0xe3, 0xb4, 0x05, 0x19, 0xd1, 0xd9, 0x4a, 0x48,
];

const DEVICE_KEY: [u8; 16] = [
    0x9d, 0x6d, 0xd0, 0xe9, 0x6e, 0xb2, 0x5d, 0xc1, 0x9a, 0x40, 0xed, 0x99, 0x14, 0xf8, 0xf0, 0x3f,
];

// One network key, an application key bound to it, a device key; one element with its address and next SEQ; no groups, relay off.
pub fn setup(address: u16, next: u32, iv: u32, flag: bool) -> Setup
    ensures { result ≡ setting address next iv flag }
{
    let device = DEVICE_KEY;
    let keyed = setup::with_network_key(setup::nothing(), NETWORK_KEY);
    let mut s = setup::with_application_key(keyed, 0, APPLICATION_KEY);
    s.device = device;
    s.first = address;
    s.elements = 1;
    s.next[0] = next;
    s.iv = iv;
    s.flag = flag;
    s
}

// The node so set up; where setup refuses, one of zeros, which refuses all that is asked of it.
pub fn node(address: u16, next: u32, iv: u32, flag: bool) -> Receiver
    ensures { result ≡ ready address next iv flag }
{
    let made = receiver::fresh::set_up(setup(address, next, iv, flag));
    made.receiver
}
