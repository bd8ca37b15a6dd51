// The PDUs of a list of octets, where each stands behind one octet with its length.
ghost use Rattle.std.specs.Prelude.{◌≡◌};
ghost use Rattle.std.specs.Iterator.{YieldsFirstRef, item_count};
ghost use Rattle.transport.specs.Listed.{pdus};

// The PDUs of a list, one after the other.
#[derive(Drop)]
pub(crate) struct Pdus<'a> {
    // What is left of the list.
    rest: &'a [u8],
}

impl<'a> Iterator for Pdus<'a> {
    type Item = &'a [u8];

    ghost next_gives = { YieldsFirstRef (λ s. pdus s.rest.now) };

    ghost remaining = { item_count (λ s. pdus s.rest.now) };

    // A length counts as far as there are octets.
    fn next(&mut self) -> Option<&'a [u8]> {
        let (len, behind) = self.rest.split_first()?;
        let (pdu, rest) = behind.split_at((*len as usize).min(behind.len()));
        self.rest = rest;
        Some(pdu)
    }
}

pub(crate) fn listed(list: &[u8]) -> Pdus<'_>
    ensures { result.rest.now ≡ list.now }
{
    Pdus { rest: list }
}
