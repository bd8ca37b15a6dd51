// One line is answered: by the receiver, or by the desk beside it. Its answer is written behind the others.
ghost use Rattle.std.specs.Prelude.{◌≡◌};
ghost use Rattle.answers.specs.Fits.{Fits};
ghost use Rattle.console.specs.Answered.{put, answer_put};
ghost use Rattle.console.specs.Step.{starting, notes, tells, sets_up, stepping};

use super::{bench, receiving};
use answers::answer;
use commands::desk;
use commands::desk::Desk;
use commands::line::Line;
use receiver::state::Receiver;
use text::writer::Writer;

// What the console carries from line to line.
#[derive(Clone, Copy)]
pub(crate) struct Console {
    pub desk: Desk,
    pub receiver: Receiver,
}

// The console at the start; beside a refused setup stands a receiver of zeros.
#[tactic(auto, unfolding(crate::specs::Step::starting))]
pub(crate) fn start() -> Console
    ensures { result ≡ starting }
{
    Console {
        desk: desk::start(),
        receiver: receiver::fresh::set_up(node::setup::nothing()).receiver,
    }
}

// Answers a line; octets are those that it says.
pub(crate) fn step(c: Console, said: Line, line: &[u8], octets: &[u8], w: &mut Writer) -> Console
    ensures exact { put result w.new ≡ answer_put (stepping c said line.now octets.now) w.old }
    ensures fits { Fits (stepping c said line.now octets.now).text }
{
    match said {
        Line::Hear(len) => Console {
            receiver: receiving::hear(c.receiver, c.desk.room, text::first(octets, len), w),
            ..c
        },
        Line::Send(sending) => Console {
            receiver: receiving::speak(c.receiver, c.desk.room, sending, octets, w),
            ..c
        },
        Line::GiveUp(what) => Console {
            receiver: receiving::quit(c.receiver, what, w),
            ..c
        },
        Line::Show => Console {
            receiver: receiving::show(c.receiver, w),
            ..c
        },
        Line::Readings(len) => Console {
            desk: tell(c.desk, text::first(octets, len), w),
            ..c
        },
        Line::Vet { ctl, len } => Console {
            desk: bench::vet(c.desk, ctl, text::first(octets, len), w),
            ..c
        },
        Line::SetUp => set_up(c, w),
        _ => Console {
            desk: note(c.desk, said, line, w),
            ..c
        },
    }
}

// A line that needs no receiver.
#[tactic(auto, unfolding(crate::specs::Step::notes))]
fn note(d: Desk, said: Line, line: &[u8], w: &mut Writer) -> Desk
    ensures { put result w.new ≡ answer_put (notes d said line.now) w.old }
{
    let noted = desk::note(d, said, line);
    answer::put_noted(noted.reply, w);
    noted.desk
}

// What a message says, by the properties that are named; the desk stays.
#[tactic(auto, unfolding(crate::specs::Step::tells))]
fn tell(d: Desk, message: &[u8], w: &mut Writer) -> Desk
    ensures { put result w.new ≡ answer_put (tells d message.now) w.old }
{
    answers::readings::put_readings(d.properties, message, w);
    d
}

// `setup`: makes the receiver of what was given; a refused one leaves the receiver that was there.
#[tactic(auto, unfolding(crate::specs::Step::sets_up, crate::specs::Step::set_up_as))]
fn set_up(c: Console, w: &mut Writer) -> Console
    ensures { put result w.new ≡ answer_put (sets_up c) w.old }
{
    let made = receiver::fresh::set_up(c.desk.given);
    answer::put_set_up(made.answer, w);
    match made.answer {
        Ok(()) => Console {
            desk: desk::after_setup(c.desk, true),
            receiver: made.receiver,
        },
        Err(_) => Console {
            desk: desk::after_setup(c.desk, false),
            receiver: c.receiver,
        },
    }
}
