// The nonces of CCM are made here. A number stands high octet first; where it is wider than its place its low octets count.
ghost use Rattle.std.specs.Prelude.{◌≡◌, ◌++◌, ◌∷◌};
ghost use Rattle.network.specs.Octets.{octets};
ghost use Rattle.network.specs.Nonce.{ctl_ttl, network_nonce, message_nonce, application_nonce, device_nonce};

// CTL is the high bit, TTL the low 7.
#[tactic(auto, unfolding(crate::specs::Nonce::ctl_ttl))]
pub(crate) fn ctl_ttl(ctl: bool, ttl: u8) -> u8
    ensures { result ≡ ctl_ttl ctl ttl }
{
    if ctl { 0x80 + ttl % 128 } else { ttl % 128 }
}

// All nonces have one shape.
#[tactic(auto, using(crate::proofs::OctetsLaws::octets_of_four), unfolding(crate::specs::Octets::octets))]
fn shaped(first: u8, second: u8, seq: u32, src: u16, dst: u16, iv: u32) -> [u8; 13]
    ensures { result ≡ first ∷ second ∷ octets 3 seq ++ octets 2 src ++ octets 2 dst ++ octets 4 iv }
{
    let seq = seq.to_be_bytes();
    let src = src.to_be_bytes();
    let dst = dst.to_be_bytes();
    let iv = iv.to_be_bytes();
    [
        first, second, seq[1], seq[2], seq[3], src[0], src[1], dst[0], dst[1], iv[0], iv[1], iv[2],
        iv[3],
    ]
}

// The nonce of a Network PDU, which has two zero octets in the place of DST.
#[tactic(auto, unfolding(crate::specs::Octets::octets, crate::specs::Nonce::network_nonce))]
pub fn network(ctl: bool, ttl: u8, seq: u32, src: u16, iv: u32) -> [u8; 13]
    ensures { result ≡ network_nonce ctl ttl seq src iv }
{
    shaped(0x00, ctl_ttl(ctl, ttl), seq, src, 0x0000, iv)
}

// The nonces of access messages differ in the first octet; szmic says that the TransMIC has 8 octets.
#[tactic(auto, unfolding(crate::specs::Nonce::message_nonce))]
fn message(first: u8, szmic: bool, seq: u32, src: u16, dst: u16, iv: u32) -> [u8; 13]
    ensures { result ≡ message_nonce first szmic seq src dst iv }
{
    if szmic {
        return shaped(first, 0x80, seq, src, dst, iv);
    }
    shaped(first, 0x00, seq, src, dst, iv)
}

// The nonce of an access message under an application key; of a segmented one seq is that of SeqAuth.
pub fn application(szmic: bool, seq: u32, src: u16, dst: u16, iv: u32) -> [u8; 13]
    ensures { result ≡ application_nonce szmic seq src dst iv }
{
    message(0x01, szmic, seq, src, dst, iv)
}

// The nonce of an access message under the device key; of a segmented one seq is that of SeqAuth.
pub fn device(szmic: bool, seq: u32, src: u16, dst: u16, iv: u32) -> [u8; 13]
    ensures { result ≡ device_nonce szmic seq src dst iv }
{
    message(0x02, szmic, seq, src, dst, iv)
}
