// What bench/ times: blocks of AES-128, CMAC and CCM opening, and hearing, on plain numbers and byte buffers. Each call expands its key once.
#![tactic(auto)]

pub mod hearing;

ghost use Rattle.std.specs.Prelude.{◌≡◌};
ghost use Rattle.common.specs.Lent.{lent};
ghost use Rattle.speed.specs.Blocks.{encrypted, blocks_done};
ghost use Rattle.speed.specs.Mac.{mac_done};
ghost use Rattle.speed.specs.Open.{open_done};

use modes::ccm::MicSize;

// The block start, encrypted `times` times over.
#[tactic(auto, unfolding(crate::specs::Blocks::encrypted))]
fn repeated(ks: [[u8; 16]; 11], start: [u8; 16], times: u32) -> [u8; 16]
    ensures { result ≡ encrypted times ks start }
{
    let mut b = start;
    for _ in 0..times {
        let next = aes::encrypt(ks, b);
        b = next;
    }
    b
}

// 0, and the block is encrypted `times` times over itself; 14, and it stays, unless key and block have sixteen octets.
#[tactic(auto, unfolding(crate::specs::Blocks::blocks_done))]
pub fn speed_blocks(key: &[u8], block: &mut [u8], times: u32) -> u32
    ensures { lent result block.new ≡ blocks_done key.now block.old times }
{
    let Ok(key) = <[u8; 16]>::try_from(key) else {
        return 14;
    };
    let Ok(start) = <[u8; 16]>::try_from(&block[..]) else {
        return 14;
    };
    block.copy_from_slice(&repeated(aes::expand(key), start, times));
    0
}

// 0, and the first sixteen octets of out are the CMAC; 14, and out stays, unless key has sixteen octets and out at least sixteen.
#[tactic(auto, unfolding(crate::specs::Mac::mac_done))]
pub fn speed_cmac(key: &[u8], message: &[u8], out: &mut [u8]) -> u32
    ensures { lent result out.new ≡ mac_done key.now message.now out.old }
{
    let Ok(key) = <[u8; 16]>::try_from(key) else {
        return 14;
    };
    if out.len() < 16 {
        return 14;
    }
    let mac = modes::cmac::cmac(aes::expand(key), message);
    common::copy(&mac, out);
    0
}

// 0, and out begins with the message that was sealed with a 4-octet MIC; 1, and out stays, where it does not open; 14, and out
// stays, unless key has sixteen octets and nonce thirteen.
#[tactic(auto, unfolding(crate::specs::Open::open_done, crate::specs::Open::answered))]
pub fn speed_open(key: &[u8], nonce: &[u8], sealed: &[u8], out: &mut [u8]) -> u32
    ensures { lent result out.new ≡ open_done key.now nonce.now sealed.now out.old }
{
    let Ok(key) = <[u8; 16]>::try_from(key) else {
        return 14;
    };
    let Ok(nonce) = <[u8; 13]>::try_from(nonce) else {
        return 14;
    };
    if modes::ccm::open(aes::expand(key), nonce, MicSize::Four, sealed, out) {
        0
    } else {
        1
    }
}
