// A credential is 33 octets: NID, encryption key, privacy key. Octets past the end of a buffer are read as zeros.
ghost use Rattle.std.specs.Prelude.{◌≡◌, ◌≤◌, eqb, length, drop};
ghost use Rattle.common.specs.Lists.{padded};
ghost use Rattle.network.specs.Candidates.{candidates};
ghost use Rattle.radio.specs.Credential.{credential_of, piece_at, pieces, piece_count};

use keys::NetworkKeys;

// The sixteen octets of s from `at` on.
pub(crate) fn sixteen(s: &[u8], at: usize) -> [u8; 16]
    ensures { result ≡ padded 16 (drop at s.now) }
{
    let mut r = [0u8; 16];
    if at < s.len() {
        common::copy(&s[at..], &mut r);
    }
    r
}

// The octets of what a network key is used by. Written out: with two slices copied behind the NID the proof did not close.
pub(crate) fn octets_of(k: NetworkKeys) -> [u8; 33]
    ensures { result ≡ credential_of k }
{
    let e = k.encryption;
    let p = k.privacy;
    [
        k.nid, e[0], e[1], e[2], e[3], e[4], e[5], e[6], e[7], e[8], e[9], e[10], e[11], e[12],
        e[13], e[14], e[15], p[0], p[1], p[2], p[3], p[4], p[5], p[6], p[7], p[8], p[9], p[10],
        p[11], p[12], p[13], p[14], p[15],
    ]
}

// Piece i of 33 octets, from 0.
pub(crate) fn piece(cs: &[u8], i: usize) -> NetworkKeys
    requires { i ≤ 3 }
    ensures { result ≡ piece_at cs.now i }
{
    let at = 33 * i;
    NetworkKeys {
        nid: common::octet(cs, at),
        encryption: sixteen(cs, at + 1),
        privacy: sixteen(cs, at + 17),
    }
}

// The first four pieces.
pub(crate) fn pieces(cs: &[u8]) -> [NetworkKeys; network::opening::KEYS]
    ensures { result ≡ pieces cs.now }
{
    // The list is copied once, filled up with zeros, so that each piece is read where its octets stand: eight bounded copies would be compiled otherwise.
    let mut b = [0u8; 33 * network::opening::KEYS];
    common::copy(cs, &mut b);
    [piece(&b, 0), piece(&b, 1), piece(&b, 2), piece(&b, 3)]
}

// How many of them are there whole.
#[tactic(auto, unfolding(crate::specs::Credential::piece_count))]
pub(crate) fn piece_count(cs: &[u8]) -> usize
    ensures { result ≡ piece_count cs.now }
{
    (cs.len() / 33).min(4)
}

// Whether none of them has that NID: told from the NIDs alone, so that a PDU of others costs no copy of the keys.
pub(crate) fn foreign(cs: &[u8], nid: u8) -> bool
    ensures { result ≡ eqb (length (candidates (pieces cs.now) (piece_count cs.now) nid)) 0 }
{
    let count = piece_count(cs);
    for i in 0..count {
        if cs[33 * i] == nid {
            return false;
        }
    }
    true
}
