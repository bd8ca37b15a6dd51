// What a node said and what it answers, in words: lines that a writer writes.
ghost use Rattle.std.specs.Prelude.{◌++◌, ◌≡◌};
ghost use Rattle.text.specs.Number.{number_text};
ghost use Rattle.text.specs.Octets.{octets};
ghost use Rattle.text.specs.Writer.{writing};
ghost use Rattle.site.specs.Words.{made, handed_up, sent_text, said_text, effect_text, answer_text};

use memory::outgoing::Effect;
use receiver::answer::{Answer as Heard, Refusal};
use sending::answer::Answer;
use text::writer::Writer;

// How many octets of the buffer are the PDU that was made: none where sending refuses.
pub fn made(answer: Result<Answer, Refusal>) -> usize
    ensures { result ≡ made answer }
{
    match answer {
        Ok(Answer::Sent(len) | Answer::Started { len, .. }) => len,
        Err(_) => 0,
    }
}

// How many octets of the message buffer are handed up: none where no message is.
pub fn handed_up(answer: Result<Heard, Refusal>) -> usize
    ensures { result ≡ handed_up answer }
{
    match answer {
        Ok(Heard::Access { len, .. } | Heard::Control { len, .. }) => len,
        _ => 0,
    }
}

// `SEQ Q: PDU`, and a newline.
fn put_sent(seq: u32, pdu: &[u8], w: &mut Writer)
    ensures { w.new ≡ writing (sent_text seq pdu.now) w.old }
{
    w.number(b"SEQ ", seq as u64, 6);
    w.put(b": ");
    w.hex(pdu);
    w.put(b"\n");
}

// Puts what was sent with a SEQ, or why nothing was; pdu is the buffer that was lent for it.
#[tactic(auto, using(text::proofs::WriterLaws::writing_rules), unfolding(crate::specs::Words::said_text))]
pub fn put_said(seq: u32, answer: Result<Answer, Refusal>, pdu: &[u8], w: &mut Writer)
    ensures { w.new ≡ writing (said_text seq answer pdu.now) w.old }
{
    match answer {
        Ok(Answer::Sent(len) | Answer::Started { len, .. }) => {
            put_sent(seq, text::first(pdu, len), w)
        }
        Err(refusal) => w.refused_line(refusal.number()),
    }
}

// A label, a number behind it in so many digits, and an end.
fn put_named(label: &[u8], n: u32, width: usize, end: &[u8], w: &mut Writer)
    ensures { w.new ≡ writing (label.now ++ number_text width n ++ end.now) w.old }
{
    w.number(label, n as u64, width);
    w.put(end);
}

// What an acknowledgement did to the message that the node keeps.
#[tactic(auto, using(text::proofs::WriterLaws::writing_rules), unfolding(crate::specs::Words::effect_text))]
fn put_effect(effect: Effect, w: &mut Writer)
    ensures { w.new ≡ writing (effect_text effect) w.old }
{
    match effect {
        Effect::Nothing => w.put(b"nothing is marked: "),
        Effect::Marked => w.put(b"segments are marked as heard: "),
        Effect::Completed => w.put(b"all segments are heard: "),
        Effect::Cancelled => w.put(b"the message is cancelled: "),
    }
}

// That, and which segments it names, bit 0 for segment 0.
fn put_acknowledgement(bits: u32, effect: Effect, w: &mut Writer)
    ensures { w.new ≡ writing (effect_text effect ++ (octets "acknowledgement, places filled " ++ number_text 8 bits ++ octets "\n")) w.old }
{
    put_effect(effect, w);
    put_named(b"acknowledgement, places filled ", bits, 8, b"\n", w);
}

// Puts what a node answers to a PDU: the number of a refusal, which segments came, or whose message is handed up.
#[tactic(auto, using(text::proofs::WriterLaws::writing_rules), unfolding(crate::specs::Words::answer_text))]
pub fn put_answer(answer: Result<Heard, Refusal>, w: &mut Writer)
    ensures { w.new ≡ writing (answer_text answer) w.old }
{
    match answer {
        Err(refusal) => w.refused_line(refusal.number()),
        Ok(heard) => match heard {
            Heard::Stored { bits, .. } => {
                put_named(b"segment stored, places filled ", bits, 8, b"\n", w);
            }
            Heard::Repeated { bits, .. } => {
                put_named(b"repeat, places filled ", bits, 8, b"\n", w);
            }
            Heard::Access { src, .. } => {
                put_named(b"access message from ", src as u32, 4, b":\n", w);
            }
            Heard::Control { src, .. } => {
                put_named(b"control message from ", src as u32, 4, b":\n", w);
            }
            Heard::Acknowledgement { bits, effect, .. } => put_acknowledgement(bits, effect, w),
        },
    }
}
