// What stands beside the receiver: what was given since the last `setup`, how much room is lent, and which properties are named.
ghost use Rattle.std.specs.Prelude.{◌≡◌};
ghost use Rattle.sensor.specs.Properties.{naming};
ghost use Rattle.commands.specs.Desk.{at_start, after_setup, noted, noting_room, noting_property, forgetting, noting};

use super::line::Line;
use super::setting;
use super::setting::Item;
use node::setup::Setup;
use sensor::properties;
use sensor::properties::{Kind, Properties};

// The lengths of the buffers lent for a PDU and for a message.
#[derive(Clone, Copy)]
pub struct Room {
    pub forward: usize,
    pub message: usize,
}

#[derive(Clone, Copy)]
pub struct Desk {
    // Whether a `setup` was ready: before, there is no receiver.
    // No `Option` of the receiver: a line is read by this word alone, and the desk is copied without it.
    pub ready: bool,
    pub given: Setup,
    pub room: Room,
    // Which properties are named.
    pub properties: Properties,
}

// What a line is answered that needs no receiver.
#[derive(Clone, Copy)]
pub enum Reply {
    Ok,
    Unread,
    // A line that is skipped.
    Silence,
    // 14: the property is refused.
    Refused,
}

// What a line leaves.
#[derive(Clone, Copy)]
pub struct Noted {
    pub desk: Desk,
    pub reply: Reply,
}

// The desk at the start.
pub fn start() -> Desk
    ensures { result ≡ at_start }
{
    Desk {
        ready: false,
        given: node::setup::nothing(),
        room: Room {
            forward: network::header::PDU,
            message: transport::securing::MESSAGE,
        },
        properties: properties::none(),
    }
}

// The desk after a `setup`: what was given is forgotten, and there is a receiver if this one was ready or one before it. Room and names stay.
pub fn after_setup(d: Desk, ready: bool) -> Desk
    ensures { result ≡ after_setup d ready }
{
    Desk {
        ready: d.ready || ready,
        given: node::setup::nothing(),
        ..d
    }
}

// Notes a line that needs no receiver; any other is unread, and so are readings and what is vetted, which are answered elsewhere.
// Each arm is one of the definition.
#[tactic(auto, unfolding(crate::specs::Desk::noting))]
pub fn note(d: Desk, said: Line, line: &[u8]) -> Noted
    ensures { result ≡ noting d said line.now }
{
    match said {
        Line::Give(item) => give(d, item, line),
        Line::Room(room) => make_room(d, room),
        Line::Skipped => skipped(d),
        Line::Property { property, kind } => name(d, property, kind),
        Line::Forget => forget(d),
        Line::Unread
        | Line::SetUp
        | Line::Hear(_)
        | Line::Send(_)
        | Line::GiveUp(_)
        | Line::Show
        | Line::Readings(_)
        | Line::Vet { .. } => unread(d),
    }
}

// Nothing is answered.
fn skipped(d: Desk) -> Noted
    ensures { result ≡ noted d Reply.Silence }
{
    Noted {
        desk: d,
        reply: Reply::Silence,
    }
}

// The line does not fit, and leaves the desk as it was.
fn unread(d: Desk) -> Noted
    ensures { result ≡ noted d Reply.Unread }
{
    Noted {
        desk: d,
        reply: Reply::Unread,
    }
}

// A line that leads to `setup`.
#[tactic(auto, unfolding(crate::specs::Desk::noting))]
fn give(d: Desk, item: Item, line: &[u8]) -> Noted
    ensures { result ≡ noting d (Line.Give item) line.now }
{
    let Some(given) = setting::give(d.given, item, line) else {
        return unread(d);
    };
    Noted {
        desk: Desk { given, ..d },
        reply: Reply::Ok,
    }
}

// A line that names the lengths of the buffers.
fn make_room(d: Desk, room: Room) -> Noted
    ensures { result ≡ noting_room d room }
{
    Noted {
        desk: Desk { room, ..d },
        reply: Reply::Ok,
    }
}

// A line that names a property.
fn name(d: Desk, property: u16, kind: Kind) -> Noted
    ensures { result ≡ noting_property d (naming d.properties property kind) }
{
    match properties::name(d.properties, property, kind) {
        Ok(after) => Noted {
            desk: Desk {
                properties: after,
                ..d
            },
            reply: Reply::Ok,
        },
        Err(_) => Noted {
            desk: d,
            reply: Reply::Refused,
        },
    }
}

// A line that forgets all names.
fn forget(d: Desk) -> Noted
    ensures { result ≡ forgetting d }
{
    let properties = properties::none();
    Noted {
        desk: Desk { properties, ..d },
        reply: Reply::Ok,
    }
}
