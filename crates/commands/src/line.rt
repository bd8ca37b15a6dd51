// What a line says, by its command and its fields. The octets of a PDU or a message go to the first octets of a lent buffer.
ghost use Rattle.std.specs.Prelude.{◌≡◌};
ghost use Rattle.common.specs.Lent.{lent};
ghost use Rattle.commands.specs.Line.{room_of, hear_of, access_of, control_of, segment_of, ack_of, drop_of, order_of, property_of, readings_of, vet_of, said_by, line_of};

use super::command::{Command, Order};
use super::desk::Room;
use super::listing::list;
use super::naming::kind_of;
use super::requesting::{key_of, mic_of, request_of};
use super::setting::Item;
use sending::request::Request;
use sensor::properties::Kind;
use text::{field, hex, number};
use transport::securing::MessageKey;

#[derive(Clone, Copy)]
pub enum Line {
    // No octets, or a line that begins with #: nothing is answered.
    Skipped,
    // It fits no form.
    Unread,
    // It gives what leads to a setup; its fields are still to be read.
    Give(Item),
    SetUp,
    Room(Room),
    // A PDU of so many octets is heard.
    Hear(usize),
    Send(Sending),
    GiveUp(GivingUp),
    Show,
    // A property is named as humidity or temperature.
    Property { property: u16, kind: Kind },
    // All names are forgotten.
    Forget,
    // The readings of a message of so many octets are asked for.
    Readings(usize),
    // PDUs are vetted; so many octets list them.
    Vet { ctl: bool, len: usize },
}

// What is sent.
#[derive(Clone, Copy)]
pub enum Sending {
    // An access message of so many octets.
    Access {
        request: Request,
        key: MessageKey,
        szmic: bool,
        len: usize,
    },
    // A control message of so many octets.
    Control {
        request: Request,
        opcode: u8,
        len: usize,
    },
    // A segment of the message that is kept.
    Segment(u8),
    // An acknowledgement of a source over a network key.
    Acknowledgement {
        network: usize,
        src: u16,
    },
}

// What is given up.
#[derive(Clone, Copy)]
pub enum GivingUp {
    // The outgoing message.
    Message,
    // The session of a source.
    Session(u16),
}

// Reads a line. Where there is no receiver yet, no line fits that needs one. Over 4,095 octets are too long.
#[tactic(auto, using(crate::proofs::LineRules::line_rules))]
pub fn read(line: &[u8], ready: bool, octets: &mut [u8]) -> Line
    ensures { lent result octets.new ≡ line_of line.now ready octets.old }
{
    if line.is_empty() {
        return Line::Skipped;
    }
    if line[0] == b'#' {
        return Line::Skipped;
    }
    if 4095 < line.len() {
        return Line::Unread;
    }
    let command = super::command::of(line, ready);
    read_command(command, line, octets).unwrap_or(Line::Unread)
}

// A line of a command: none where it does not fit its form. Each arm is one of the definition.
#[tactic(auto, unfolding(crate::specs::Line::said_by))]
fn read_command(command: Command, line: &[u8], octets: &mut [u8]) -> Option<Line>
    ensures { lent result octets.new ≡ said_by command line.now octets.old }
{
    match command {
        Command::Order(order) => read_order(order, line, octets),
        Command::Give(item) => Some(Line::Give(item)),
        Command::SetUp => Some(Line::SetUp),
        Command::Property => property(line),
        Command::Forget => Some(Line::Forget),
        Command::Readings => readings(line, octets),
        Command::Vet => vet(line, octets),
        Command::Unknown => None,
    }
}

// A line for the receiver.
// Arms that only hand on: the definition names each of them too.
#[tactic(auto, unfolding(crate::specs::Line::order_of))]
fn read_order(order: Order, line: &[u8], octets: &mut [u8]) -> Option<Line>
    ensures { lent result octets.new ≡ order_of order line.now octets.old }
{
    match order {
        Order::Hear => hear(line, octets),
        Order::Access => access(line, octets),
        Order::Control => control(line, octets),
        Order::Segment => segment(line),
        Order::Ack => acknowledgement(line),
        Order::Stop => Some(Line::GiveUp(GivingUp::Message)),
        Order::Drop => session(line),
        Order::Room => room(line),
        Order::Show => Some(Line::Show),
    }
}

// `hear PDU`. `readings` reads alike, and `segment` as `drop`; each is the definition of its own line, and a function of both would be no shorter.
#[tactic(auto, unfolding(crate::specs::Line::hear_of))]
fn hear(line: &[u8], octets: &mut [u8]) -> Option<Line>
    ensures { lent result octets.new ≡ hear_of line.now octets.old }
{
    let len = hex::read(field::last(line, 1), octets)?;
    Some(Line::Hear(len))
}

// `access E DST TTL K J MIC BYTES`: element E sends under network key K and application key J, or `dev`.
#[tactic(auto, unfolding(crate::specs::Line::access_of))]
fn access(line: &[u8], octets: &mut [u8]) -> Option<Line>
    ensures { lent result octets.new ≡ access_of line.now octets.old }
{
    let request = request_of(line)?;
    let key = key_of(field::nth(line, 5))?;
    let szmic = mic_of(field::nth(line, 6))?;
    let len = hex::read(field::last(line, 7), octets)?;
    Some(Line::Send(Sending::Access {
        request,
        key,
        szmic,
        len,
    }))
}

// `control E DST TTL K O BYTES`: element E sends with opcode O.
#[tactic(auto, unfolding(crate::specs::Line::control_of))]
fn control(line: &[u8], octets: &mut [u8]) -> Option<Line>
    ensures { lent result octets.new ≡ control_of line.now octets.old }
{
    let request = request_of(line)?;
    let opcode = number::read_octet(field::nth(line, 5))?;
    let len = hex::read(field::last(line, 6), octets)?;
    Some(Line::Send(Sending::Control {
        request,
        opcode,
        len,
    }))
}

// `segment N`.
#[tactic(auto, unfolding(crate::specs::Line::segment_of))]
fn segment(line: &[u8]) -> Option<Line>
    ensures { result ≡ segment_of line.now }
{
    let n = number::read_octet(field::last(line, 1))?;
    Some(Line::Send(Sending::Segment(n)))
}

// `ack K S`: acknowledges source S over network key K.
#[tactic(auto, unfolding(crate::specs::Line::ack_of))]
fn acknowledgement(line: &[u8]) -> Option<Line>
    ensures { result ≡ ack_of line.now }
{
    let network = number::read_octet(field::nth(line, 1))?;
    let src = number::read_short(field::last(line, 2))?;
    Some(Line::Send(Sending::Acknowledgement {
        network: network as usize,
        src,
    }))
}

// `drop S`: gives up the session of source S.
#[tactic(auto, unfolding(crate::specs::Line::drop_of))]
fn session(line: &[u8]) -> Option<Line>
    ensures { result ≡ drop_of line.now }
{
    let src = number::read_short(field::last(line, 1))?;
    Some(Line::GiveUp(GivingUp::Session(src)))
}

// `room FORWARD MESSAGE`: the lengths of the two buffers lent from then on, each at most 384.
#[tactic(auto, unfolding(crate::specs::Line::room_of))]
fn room(line: &[u8]) -> Option<Line>
    ensures { result ≡ room_of line.now }
{
    let forward = number::read_up_to(384, field::nth(line, 1))?;
    let message = number::read_up_to(384, field::last(line, 2))?;
    Some(Line::Room(Room {
        forward: forward as usize,
        message: message as usize,
    }))
}

// `property P humidity` or `property P temperature`.
#[tactic(auto, unfolding(crate::specs::Line::property_of))]
fn property(line: &[u8]) -> Option<Line>
    ensures { result ≡ property_of line.now }
{
    let property = number::read_short(field::nth(line, 1))?;
    let kind = kind_of(field::last(line, 2))?;
    Some(Line::Property { property, kind })
}

// `readings MESSAGE`.
#[tactic(auto, unfolding(crate::specs::Line::readings_of))]
fn readings(line: &[u8], octets: &mut [u8]) -> Option<Line>
    ensures { lent result octets.new ≡ readings_of line.now octets.old }
{
    let len = hex::read(field::last(line, 1), octets)?;
    Some(Line::Readings(len))
}

// `vet CTL PDU ..`: no PDU or more, each behind its length in the buffer. A line never lists more octets than it has characters.
#[tactic(auto, using(crate::proofs::ListingLaws::vet_rules), unfolding(crate::specs::Line::vet_of))]
fn vet(line: &[u8], octets: &mut [u8]) -> Option<Line>
    ensures { lent result octets.new ≡ vet_of line.now octets.old }
{
    let ctl = number::read_bit(field::nth(line, 1))?;
    if octets.len() < line.len() {
        return None;
    }
    let len = list(field::last(line, 1), octets)?;
    Some(Line::Vet { ctl, len })
}
