// The receiver on a keyboard: each line of standard input is a command, and its answer goes to standard output.
//
// The crate `commands` has the form of each line over the function that reads it, the crate `answers` that of each answer. A line that fits no form
// is answered `unread` and changes nothing.
#![tactic(auto)]

mod bench;
mod input;
mod lent;
mod receiving;
mod step;

fn main(rt: HostRuntime) {
    let mut input = rt.stdin();
    let mut block = io::large_buffer();
    let mut line = io::buffer();
    let mut octets = io::buffer();
    let mut out = io::large_buffer();
    input::take_all(&mut input, &mut block, &mut line, &mut octets, &mut out);
}
