// The answers: each is written behind what a writer wrote before it.
ghost use Rattle.std.specs.Prelude.{◌≡◌, ◌++◌, ◌+◌};
ghost use Rattle.text.specs.Octets.{octets};
ghost use Rattle.text.specs.Hex.{hex_text};
ghost use Rattle.text.specs.Refusal.{refusal_text};
ghost use Rattle.text.specs.Writer.{writing};
ghost use Rattle.answers.specs.Answer.{named, trials_text, pair_text, segments_text, route_text, keys_text, opener_text, message_text, effect_text, access_text, control_text, acknowledgement_text, heard_text, forward_text, spoken_text, given_up_text, set_up_text, vetted_text, noted_text};

use commands::desk::Reply;
use memory::outgoing::Effect;
use memory::pair::Pair;
use receiver::answer::{Answer, Refusal};
use sending::answer::Answer as Sending;
use sensor::properties;
use sensor::properties::Refused;
use text::writer::Writer;
use transport::securing::Opener;
use transport::vetting;

// How many network keys and application keys were tried.
#[derive(Clone, Copy)]
pub struct Trials {
    pub network: usize,
    pub application: usize,
}

// ` trials T A`.
fn put_trials(t: Trials, w: &mut Writer)
    ensures { w.new ≡ writing (trials_text t) w.old }
{
    w.number(b" trials ", t.network as u64, 1);
    w.number(b" ", t.application as u64, 1);
}

// ` iv I`, a label, and the sequence number.
pub(crate) fn put_pair(p: Pair, label: &[u8], w: &mut Writer)
    ensures { w.new ≡ writing (pair_text p label.now) w.old }
{
    w.number(b" iv ", p.iv as u64, 8);
    w.number(label, p.seq as u64, 6);
}

// ` src S iv I auth Q bits B`.
pub(crate) fn put_segments(src: u16, auth: Pair, bits: u32, w: &mut Writer)
    ensures { w.new ≡ writing (segments_text src auth bits) w.old }
{
    w.number(b" src ", src as u64, 4);
    put_pair(auth, b" auth ", w);
    w.number(b" bits ", bits as u64, 8);
}

// ` src S dst D`. Like `put_keys`, and no twin of it: a function of both would take two labels and a width besides.
fn put_route(src: u16, dst: u16, w: &mut Writer)
    ensures { w.new ≡ writing (route_text src dst) w.old }
{
    w.number(b" src ", src as u64, 4);
    w.number(b" dst ", dst as u64, 4);
}

// ` net K key J`: the numbers of the network key and of the application key.
fn put_keys(network: usize, key: usize, w: &mut Writer)
    ensures { w.new ≡ writing (keys_text network key) w.old }
{
    w.number(b" net ", network as u64, 1);
    w.number(b" key ", key as u64, 1);
}

// ` net K key J`, with ` label L` before it where a label opened the message; J is `dev` for the device key.
fn put_opener(network: usize, opener: Opener, w: &mut Writer)
    ensures { w.new ≡ writing (opener_text network opener) w.old }
{
    match opener {
        Opener::Application(key) => put_keys(network, key, w),
        Opener::Labelled { key, label } => {
            w.number(b" label ", label as u64, 1);
            put_keys(network, key, w);
        }
        Opener::Device => {
            w.number(b" net ", network as u64, 1);
            w.put(b" key dev");
        }
    }
}

// ` iv I seq Q trials T A message BYTES`.
fn put_message(p: Pair, t: Trials, message: &[u8], w: &mut Writer)
    ensures { w.new ≡ writing (message_text p t message.now) w.old }
{
    put_pair(p, b" seq ", w);
    put_trials(t, w);
    w.put(b" message ");
    w.hex(message);
}

// What an acknowledgement does.
fn put_effect(effect: Effect, w: &mut Writer)
    ensures { w.new ≡ writing (effect_text effect) w.old }
{
    match effect {
        Effect::Nothing => w.put(b" nothing"),
        Effect::Marked => w.put(b" marked"),
        Effect::Completed => w.put(b" complete"),
        Effect::Cancelled => w.put(b" cancelled"),
    }
}

// `refused N trials T A`.
fn put_refusal_heard(n: u32, t: Trials, w: &mut Writer)
    ensures { w.new ≡ writing (refusal_text n ++ trials_text t) w.old }
{
    w.refused(n);
    put_trials(t, w);
}

// `stored` or `repeat`, with the segments that have come.
fn put_segment(word: &[u8], src: u16, auth: Pair, bits: u32, t: Trials, w: &mut Writer)
    ensures { w.new ≡ writing (word.now ++ (segments_text src auth bits ++ trials_text t)) w.old }
{
    w.put(word);
    put_segments(src, auth, bits, w);
    put_trials(t, w);
}

// `access src S dst D net K key J`, or with ` label L` behind D.
fn put_access(src: u16, dst: u16, network: usize, opener: Opener, w: &mut Writer)
    ensures { w.new ≡ writing (access_text src dst network opener) w.old }
{
    w.put(b"access");
    put_route(src, dst, w);
    put_opener(network, opener, w);
}

// `control src S dst D net K opcode O`.
fn put_control(src: u16, dst: u16, network: usize, opcode: u8, w: &mut Writer)
    ensures { w.new ≡ writing (control_text src dst network opcode) w.old }
{
    w.put(b"control");
    put_route(src, dst, w);
    w.number(b" net ", network as u64, 1);
    w.number(b" opcode ", opcode as u64, 1);
}

// `acknowledgement src S bits B EFFECT trials T A`.
fn put_acknowledgement(src: u16, bits: u32, effect: Effect, t: Trials, w: &mut Writer)
    ensures { w.new ≡ writing (acknowledgement_text src bits effect t) w.old }
{
    w.number(b"acknowledgement src ", src as u64, 4);
    w.number(b" bits ", bits as u64, 8);
    put_effect(effect, w);
    put_trials(t, w);
}

// What became of a PDU that was heard; message is the buffer lent for a message.
#[tactic(auto, using(text::proofs::WriterLaws::writing_rules), unfolding(crate::specs::Answer::heard_text))]
pub fn put_heard(a: Result<Answer, Refusal>, t: Trials, message: &[u8], w: &mut Writer)
    ensures { w.new ≡ writing (heard_text a t message.now) w.old }
{
    match a {
        Err(refusal) => put_refusal_heard(refusal.number(), t, w),
        Ok(heard) => match heard {
            Answer::Stored { src, auth, bits } => put_segment(b"stored", src, auth, bits, t, w),
            Answer::Repeated { src, auth, bits } => put_segment(b"repeat", src, auth, bits, t, w),
            Answer::Access {
                src,
                dst,
                network,
                opener,
                pair,
                len,
            } => {
                put_access(src, dst, network, opener, w);
                put_message(pair, t, text::first(message, len), w);
            }
            Answer::Control {
                src,
                dst,
                network,
                opcode,
                pair,
                len,
            } => {
                put_control(src, dst, network, opcode, w);
                put_message(pair, t, text::first(message, len), w);
            }
            Answer::Acknowledgement { src, bits, effect } => {
                put_acknowledgement(src, bits, effect, t, w);
            }
        },
    }
}

// ` forward PDU`, where something was forwarded, and a newline.
pub fn put_forward(pdu: &[u8], w: &mut Writer)
    ensures { w.new ≡ writing (forward_text pdu.now) w.old }
{
    if pdu.len() == 0 {
        return w.put(b"\n");
    }
    w.put(b" forward ");
    w.hex(pdu);
    w.put(b"\n");
}

// `sent PDU` and a newline.
fn put_sent(pdu: &[u8], w: &mut Writer)
    ensures { w.new ≡ writing (octets "sent " ++ (hex_text pdu.now ++ octets "\n")) w.old }
{
    w.put(b"sent ");
    w.hex(pdu);
    w.put(b"\n");
}

// `started PDU segments N` and a newline; N is SegN + 1.
fn put_started(pdu: &[u8], segn: u8, w: &mut Writer)
    ensures { w.new ≡ writing (octets "started " ++ (hex_text pdu.now ++ (named " segments " 1 (segn + 1) ++ octets "\n"))) w.old }
{
    w.put(b"started ");
    w.hex(pdu);
    w.number(b" segments ", segn as u64 + 1, 1);
    w.put(b"\n");
}

// What a request to send is answered; pdu is the buffer lent for a PDU.
#[tactic(auto, using(text::proofs::WriterLaws::writing_rules), unfolding(crate::specs::Answer::spoken_text))]
pub fn put_spoken(a: Result<Sending, Refusal>, pdu: &[u8], w: &mut Writer)
    ensures { w.new ≡ writing (spoken_text a pdu.now) w.old }
{
    match a {
        Ok(Sending::Sent(len)) => put_sent(text::first(pdu, len), w),
        Ok(Sending::Started { len, segn }) => put_started(text::first(pdu, len), segn, w),
        Err(refusal) => w.refused_line(refusal.number()),
    }
}

// What a request to give up is answered.
#[tactic(auto, using(text::proofs::WriterLaws::writing_rules), unfolding(crate::specs::Answer::given_up_text))]
pub fn put_given_up(a: Result<(), Refusal>, w: &mut Writer)
    ensures { w.new ≡ writing (given_up_text a) w.old }
{
    match a {
        Ok(()) => w.put(b"given up\n"),
        Err(refusal) => w.refused_line(refusal.number()),
    }
}

// What a setup is answered.
#[tactic(auto, using(text::proofs::WriterLaws::writing_rules), unfolding(crate::specs::Answer::set_up_text))]
pub fn put_set_up(a: Result<(), Refusal>, w: &mut Writer)
    ensures { w.new ≡ writing (set_up_text a) w.old }
{
    match a {
        Ok(()) => w.put(b"ready\n"),
        Err(refusal) => w.refused_line(refusal.number()),
    }
}

// `approved message BYTES` and a newline.
fn put_approved(message: &[u8], w: &mut Writer)
    ensures { w.new ≡ writing (octets "approved message " ++ (hex_text message.now ++ octets "\n")) w.old }
{
    w.put(b"approved message ");
    w.hex(message);
    w.put(b"\n");
}

// `refused N at K` and a newline.
fn put_fault(n: u32, k: usize, w: &mut Writer)
    ensures { w.new ≡ writing (refusal_text n ++ (named " at " 1 k ++ octets "\n")) w.old }
{
    w.refused(n);
    w.number(b" at ", k as u64, 1);
    w.put(b"\n");
}

// What PDUs that are vetted are answered; message is the buffer lent for a message.
#[tactic(auto, using(text::proofs::WriterLaws::writing_rules), unfolding(crate::specs::Answer::vetted_text))]
pub fn put_vetted(v: Result<usize, vetting::Refusal>, message: &[u8], w: &mut Writer)
    ensures { w.new ≡ writing (vetted_text v message.now) w.old }
{
    match v {
        Ok(len) => put_approved(text::first(message, len), w),
        Err(r) => match r {
            vetting::Refusal::Fault(k) => put_fault(vetting::number(v), k, w),
            vetting::Refusal::ShortBuffer | vetting::Refusal::Unfinished => {
                w.refused_line(vetting::number(v))
            }
        },
    }
}

// What a line is answered that needs no receiver.
#[tactic(auto, using(text::proofs::WriterLaws::writing_rules), unfolding(crate::specs::Answer::noted_text))]
pub fn put_noted(reply: Reply, w: &mut Writer)
    ensures { w.new ≡ writing (noted_text reply) w.old }
{
    match reply {
        Reply::Ok => w.put(b"ok\n"),
        Reply::Unread => put_unread(w),
        Reply::Silence => {}
        Reply::Refused => w.refused_line(properties::number(Err(Refused))),
    }
}

// What a line is answered that does not fit.
pub fn put_unread(w: &mut Writer)
    ensures { w.new ≡ writing (octets "unread\n") w.old }
{
    w.put(b"unread\n");
}
