// The meter's side of the speed comparison. Standard input holds a rate code of one byte, a number of
// rounds of two, a chunk's length of two (0 stands for 4096), an offset of two, and then at most 32768
// samples, two bytes each: a meter opened at that code and offset, and else as usual, takes the samples so
// many times over, in chunks of that length, and its values are printed. Where less than these seven bytes
// come, the meter is the one of all zeros.
#![tactic(auto)]

ghost use Rattle.std.specs.Prelude.{◌<◌};

use coding::Number;
use input::Streams;
use meter::Meter;
use print::MeterLine;
use setting::Setting;

fn main(rt: HostRuntime) {
    let mut streams = Streams::<65543, 4096>::new(rt);
    streams.ready(65543);
    let meter = measured(streams.ahead(65543));
    streams.print(MeterLine(&meter));
    streams.closed(b"bench");
}

// The meter after an input.
fn measured(held: &[u8]) -> Meter {
    let Some((head, part)) = held.split_at_checked(7) else {
        return Meter::open(Setting::usual(0)).meter;
    };
    let mut samples = [0; 32768];
    coding::decode(part, &mut samples);
    let count = samples.len().min(part.len() / 2);
    let setting = Setting {
        offset: u16::read(head, 5).cast_signed(),
        ..Setting::usual(u8::read(head, 0).into())
    };
    let rounds = u16::read(head, 1);
    let chunk = match u16::read(head, 3) {
        0 => 4096,
        length => length.into(),
    };
    let mut meter = Meter::open(setting).meter;
    for _ in 0..rounds {
        meter = once(meter, chunk, &samples[..count]);
    }
    meter
}

// The meter after samples once, in chunks of a length and one of the rest.
fn once(meter: Meter, length: usize, samples: &[i16]) -> Meter
    requires { 0 < length }
{
    let mut meter = meter;
    let chunks = samples.chunks_exact(length);
    let rest = chunks.remainder();
    for chunk in chunks {
        meter = meter.chunk(chunk).meter;
    }
    meter.chunk(rest).meter
}
