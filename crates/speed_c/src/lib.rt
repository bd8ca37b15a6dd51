// What bench/ links: the functions of `speed`, by the names that its C programs call.
#![tactic(auto)]

ghost use Rattle.std.specs.Prelude.{◌≡◌};
ghost use Rattle.common.specs.Lent.{lent};
ghost use Rattle.speed.specs.Blocks.{blocks_done};
ghost use Rattle.speed.specs.Mac.{mac_done};
ghost use Rattle.speed.specs.Open.{open_done};
ghost use Rattle.speed.specs.Hearing.{heard_times, heard_all, opened_times};

// 0, and the block is encrypted `times` times over itself; 14, and it stays, unless key and block have sixteen octets.
#[unsafe(no_mangle)]
pub extern "C" fn speed_blocks(key: &[u8], block: &mut [u8], times: u32) -> u32
    ensures { lent result block.new ≡ blocks_done key.now block.old times }
{
    speed::speed_blocks(key, block, times)
}

// 0, and the first sixteen octets of out are the CMAC; 14, and out stays, unless key has sixteen octets and out at least sixteen.
#[unsafe(no_mangle)]
pub extern "C" fn speed_cmac(key: &[u8], message: &[u8], out: &mut [u8]) -> u32
    ensures { lent result out.new ≡ mac_done key.now message.now out.old }
{
    speed::speed_cmac(key, message, out)
}

// 0, and out begins with the message that was sealed with a 4-octet MIC; 1, and out stays, where it does not open; 14, and out
// stays, unless key has sixteen octets and nonce thirteen.
#[unsafe(no_mangle)]
pub extern "C" fn speed_open(key: &[u8], nonce: &[u8], sealed: &[u8], out: &mut [u8]) -> u32
    ensures { lent result out.new ≡ open_done key.now nonce.now sealed.now out.old }
{
    speed::speed_open(key, nonce, sealed, out)
}

// Hears a PDU `times` times, each time by a receiver just set up, to which message is lent. Each hearing that is not refused counts 1, and each after
// which session slot `slot % 8` is held counts 1. Where keys is not 48 octets nothing is heard.
#[unsafe(no_mangle)]
pub extern "C" fn speed_hear(
    keys: &[u8],
    first: u16,
    iv: u32,
    pdu: &[u8],
    slot: usize,
    message: &mut [u8],
    times: u32,
) -> u64
    ensures { lent result message.new ≡ heard_times keys.now first iv pdu.now slot message.old times }
{
    speed::hearing::speed_hear(keys, first, iv, pdu, slot, message, times)
}

// Hears the PDUs of a row, 29 octets each, by one receiver just set up, to which message is lent, and says how many are not refused. Where keys is not
// 48 octets nothing is heard.
#[unsafe(no_mangle)]
pub extern "C" fn speed_hear_row(
    keys: &[u8],
    first: u16,
    iv: u32,
    pdus: &[u8],
    message: &mut [u8],
) -> u64
    ensures { lent result message.new ≡ heard_all keys.now first iv pdus.now message.old }
{
    speed::hearing::speed_hear_row(keys, first, iv, pdus, message)
}

// How many of `times` openings of a PDU open it, with the network key of the same receiver. None where keys is not 48 octets.
#[unsafe(no_mangle)]
pub extern "C" fn speed_open_pdu(keys: &[u8], first: u16, iv: u32, pdu: &[u8], times: u32) -> u32
    ensures { result ≡ opened_times keys.now first iv pdu.now times }
{
    speed::hearing::speed_open_pdu(keys, first, iv, pdu, times)
}
