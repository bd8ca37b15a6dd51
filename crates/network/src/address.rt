// An address has its kind by its range, and the kinds say which addresses a Network PDU may have.
ghost use Rattle.std.specs.Prelude.{◌≡◌};
ghost use Rattle.network.specs.Address.{kind_of, is_unicast, is_reserved, destination_kind, addresses_allowed};

// What an address names.
#[derive(Clone, Copy)]
pub enum AddressKind {
    // No element.
    Unassigned,
    // One element.
    Unicast,
    // The elements that hold a label.
    Virtual,
    // The elements that listen to a group.
    Group,
    // Nobody yet: groups that are kept for later use.
    Reserved,
}

// The kind of an address, by its range.
#[tactic(auto, unfolding(crate::specs::Address::kind_of))]
pub fn kind(address: u16) -> AddressKind
    ensures { result ≡ kind_of address }
{
    match address {
        0x0000 => AddressKind::Unassigned,
        0x0001..=0x7FFF => AddressKind::Unicast,
        0x8000..=0xBFFF => AddressKind::Virtual,
        0xC000..=0xFEFF => AddressKind::Group,
        0xFF00..=0xFFFB => AddressKind::Reserved,
        0xFFFC..=0xFFFF => AddressKind::Group,
    }
}

// Whether an address is unicast.
#[tactic(auto, unfolding(crate::specs::Address::is_unicast))]
pub fn is_unicast(address: u16) -> bool
    ensures { result ≡ is_unicast address }
{
    matches!(kind(address), AddressKind::Unicast)
}

// Whether an address is reserved.
#[tactic(auto, unfolding(crate::specs::Address::is_reserved))]
pub fn is_reserved(address: u16) -> bool
    ensures { result ≡ is_reserved address }
{
    matches!(kind(address), AddressKind::Reserved)
}

// Whether a DST may be of this kind.
fn destination(ctl: bool, kind: AddressKind) -> bool
    ensures { result ≡ destination_kind ctl kind }
{
    match kind {
        AddressKind::Unassigned => false,
        AddressKind::Virtual => !ctl,
        AddressKind::Unicast | AddressKind::Group | AddressKind::Reserved => true,
    }
}

// Refusal 4's rule: SRC is unicast; DST is not unassigned, and not virtual if CTL is 1.
#[tactic(auto, unfolding(crate::specs::Address::addresses_allowed))]
pub fn allowed(ctl: bool, src: u16, dst: u16) -> bool
    ensures { result ≡ addresses_allowed ctl src dst }
{
    is_unicast(src) && destination(ctl, kind(dst))
}
