// What is asked at the bench: a maker's PDUs are vetted, and the answer is written behind the others.
ghost use Rattle.std.specs.Prelude.{◌≡◌};
ghost use Rattle.answers.specs.Fits.{Fits};
ghost use Rattle.console.specs.Answered.{put, answer_put};
ghost use Rattle.console.specs.Bench.{vets};

use answers::answer;
use commands::desk::Desk;
use text::writer::Writer;

// Vets the PDUs of a list. Of the buffer for a message as much is lent as `room` said. The desk stays.
pub(crate) fn vet(d: Desk, ctl: bool, list: &[u8], w: &mut Writer) -> Desk
    ensures exact { put result w.new ≡ answer_put (vets d ctl list.now) w.old }
    ensures fits { Fits (vets d ctl list.now).text }
{
    let mut message = super::lent::longest();
    let n = text::within(d.room.message, &message);
    let vetted = transport::vetting::vet(ctl, list, &mut message[..n]);
    answer::put_vetted(vetted, text::first(&message, n), w);
    d
}
