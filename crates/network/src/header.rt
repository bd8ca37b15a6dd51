// What a Network PDU says once it is opened: one record that every layer above hands on whole.
ghost use Rattle.std.specs.Prelude.{◌≡◌};
ghost use Rattle.network.specs.Header.{no_header};

// The most octets that a PDU has.
pub const PDU: usize = 29;

#[derive(Clone, Copy)]
pub struct Header {
    // The place of the network key that opened it.
    pub key: usize,
    pub iv: u32,
    pub ctl: bool,
    pub ttl: u8,
    pub seq: u32,
    pub src: u16,
    pub dst: u16,
    // How many octets of transport there are; those behind them are zero. There is no heap, so they stand in an array.
    pub len: usize,
    pub transport: [u8; 16],
}

// The header of no PDU, whose fields are still to be written: zeros.
pub fn none() -> Header
    ensures { result ≡ no_header }
{
    Header {
        key: 0,
        iv: 0,
        ctl: false,
        ttl: 0,
        seq: 0,
        src: 0,
        dst: 0,
        len: 0,
        transport: [0u8; 16],
    }
}
