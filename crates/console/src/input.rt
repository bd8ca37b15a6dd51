// Standard input, block by block: its lines are gathered and answered, and the answers are written before more input is waited for.
ghost use Rattle.std.specs.Prelude.{◌≡◌, ◌≤◌, ◌<◌, length, take, drop};
ghost use Rattle.common.specs.Lent.{lent};
ghost use Rattle.console.specs.Input.{reader_of, reads_all, Gathers, freed};

use super::step::Console;
use commands::desk::Desk;
use commands::line::Line;
use receiver::state::Receiver;
use std::io::{Read, Stdin};
use text::writer::Writer;

// The answer to one line is shorter than this: where less room is left, the answers so far are written.
const ROOM: usize = 8192;

// What a block leaves. `gathered` is how many octets of a line have come; of a line that is too long 4,096 are kept. `written` is how far the
// answers went that were written last.
#[derive(Clone, Copy)]
pub(crate) struct Left {
    pub desk: Desk,
    pub receiver: Receiver,
    pub gathered: usize,
    pub written: usize,
}

// Writes the answers so far where little room is left, and says how far the answers in the buffer go then.
#[tactic(auto, unfolding(crate::specs::Input::freed))]
fn flushed(out: &[u8], at: usize) -> usize
    ensures { result ≡ freed (length out.now) at }
{
    if out.len().saturating_sub(at) < ROOM {
        io::write_all(1, text::first(out, at));
        return 0;
    }
    at
}

// How far a block is read, how many octets of a line are gathered then, and whether it is whole.
#[derive(Clone, Copy)]
struct Piece {
    at: usize,
    gathered: usize,
    whole: bool,
}

// Gathers the octets of a block from `at` to the next newline, or to the end of the block.
fn gather(block: &[u8], at: usize, line: &mut [u8], gathered: usize) -> Piece
    requires { at < length block.now }
    ensures further { at < result.at }
    ensures gathers { Gathers (length line.old) (take gathered line.old) (drop at block.now) result.whole (take result.gathered line.new) (drop result.at block.now) }
{
    let end = text::until(block, at, b'\n');
    let more = text::put(text::first(&block[at..], end - at), line, gathered);
    if end < block.len() {
        return Piece {
            at: end + 1,
            gathered: more,
            whole: true,
        };
    }
    Piece {
        at: block.len(),
        gathered: more,
        whole: false,
    }
}

// Answers the lines that end in a block, and gathers what is left of it. `line` holds what was gathered before; `octets` is room for those that a
// line says, `out` for answers. A PDU is heard here and not in `step`, so that the receiver is not copied on its way there and back.
fn take_block(l: Left, block: &[u8], line: &mut [u8], octets: &mut [u8], out: &mut [u8]) -> Left
    requires { 8192 ≤ length out.old }
    ensures { reader_of result line.new octets.new (lent result.written out.new) ≡ reads_all (length line.old) (reader_of l line.old octets.old (lent 0 out.old)) block.now }
{
    let mut desk = l.desk;
    let mut receiver = l.receiver;
    let mut gathered = l.gathered;
    let mut written: usize = 0;
    let mut at: usize = 0;
    // Not by `split_inclusive`: the last piece may lack its newline, and `gather` tells that while it looks for the piece's end.
    while at < block.len() {
        let piece = gather(block, at, line, gathered);
        at = piece.at;
        gathered = piece.gathered;
        if piece.whole {
            let whole = text::first(line, gathered);
            let said = commands::line::read(whole, desk.ready, octets);
            // A writer for each line, since the buffer is begun again where little room is left.
            written = flushed(out, written);
            gathered = 0;
            if let Line::Hear(len) = said {
                let pdu = text::first(octets, len);
                let mut w = Writer::new(out, written);
                receiver = super::receiving::hear(receiver, desk.room, pdu, &mut w);
                written = w.text().len();
            } else {
                let c = Console { desk, receiver };
                let mut w = Writer::new(out, written);
                let next = super::step::step(c, said, whole, octets, &mut w);
                written = w.text().len();
                desk = next.desk;
                receiver = next.receiver;
            }
        }
    }
    io::write_all(1, text::first(out, written));
    Left {
        desk,
        receiver,
        gathered,
        written,
    }
}

// Reads what has come of standard input, and says how many octets; none at its end, and where the read fails.
fn read_block(input: &mut Stdin, block: &mut [u8]) -> usize {
    input.read(block).unwrap_or(0)
}

// Takes blocks until the input ends. A newline more ends the last line, where it lacks its own. A proved loop has to end, so its turns are counted,
// up to a number that no run reaches.
pub(crate) fn take_all(
    input: &mut Stdin,
    block: &mut [u8],
    line: &mut [u8],
    octets: &mut [u8],
    out: &mut [u8],
)
    requires { 8192 ≤ length out.old }
{
    let start = super::step::start();
    let mut left = Left {
        desk: start.desk,
        receiver: start.receiver,
        gathered: 0,
        written: 0,
    };
    for _ in 0..u64::MAX {
        let n = read_block(input, block);
        if n == 0 {
            break;
        }
        left = take_block(left, text::first(block, n), line, octets, out);
    }
    take_block(left, b"\n", line, octets, out);
}
