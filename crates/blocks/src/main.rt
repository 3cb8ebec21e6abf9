// The blocks program: makes sample blocks (METHOD.md, "Sample blocks") on standard output from samples on
// standard input, signed, two bytes each, the low byte first.
//
//   blocks [CODE [k]]
//
// CODE is the rate code of the blocks. The first sample is taken and every k-th after it, and the others
// are left out. Both are 1 where they are not given. A block holds 248 of the samples taken, the last one
// the rest. A bad word on the command line, an odd byte at the end of the input, and a failure to read or
// to write have a line on standard error; the samples that came before are in blocks all the same, as far
// as these could be written.
#![tactic(auto)]

mod arguments;
mod packing;
mod taking;

use arguments::Asked;
use packing::Packing;

fn main(rt: HostRuntime) {
    match Asked::read(rt) {
        Some(asked) => {
            let mut packing = Packing::new(rt, asked);
            packing.run();
            packing.close();
        }
        None => page::told(
            &rt.stderr(),
            b"blocks takes at most two words, a rate code from 1 to 5 and a number k from 1 to 999999999: it reads signed samples of two bytes, the low byte first, from standard input, and writes sample blocks of the first of them and every k-th after it\n",
        ),
    }
}
