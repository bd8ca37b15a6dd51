// What the C radio firmware links: the functions of `radio`, by the names of c/gorephan.h.
#![tactic(auto)]

ghost use Rattle.std.specs.Prelude.{◌≡◌};
ghost use Rattle.common.specs.Lent.{lent};
ghost use Rattle.radio.specs.Credential.{credentials_done};
ghost use Rattle.radio.specs.Open.{open_done};
ghost use Rattle.radio.specs.Seal.{seal_done};

// 0, and out's first 33 octets are the credential of the key; 14, and out stays, where key is not 16 octets or out is shorter than 33.
#[unsafe(no_mangle)]
pub extern "C" fn gorephan_credentials(key: &[u8], out: &mut [u8]) -> u32
    ensures { lent result out.new ≡ credentials_done key.now out.old }
{
    radio::gorephan_credentials(key, out)
}

// Opens a PDU under the first of four credentials that authenticates it, and writes it in clear, without NetMIC.
#[unsafe(no_mangle)]
pub extern "C" fn gorephan_open(credentials: &[u8], iv: u32, pdu: &[u8], out: &mut [u8]) -> u32
    ensures { lent result out.new ≡ open_done credentials.now iv pdu.now out.old }
{
    radio::gorephan_open(credentials, iv, pdu, out)
}

// Seals what the numbers and the transport say under one credential into out's first octets.
#[unsafe(no_mangle)]
pub extern "C" fn gorephan_seal(
    credential: &[u8],
    iv: u32,
    ctl: u8,
    ttl: u8,
    seq: u32,
    src: u16,
    dst: u16,
    transport: &[u8],
    out: &mut [u8],
) -> u32
    ensures { lent result out.new ≡ seal_done credential.now iv ctl ttl seq src dst transport.now out.old }
{
    radio::gorephan_seal(credential, iv, ctl, ttl, seq, src, dst, transport, out)
}
