// Packing the samples taken into blocks, which wait on a page to be written.
use crate::arguments::Asked;
use crate::taking::Taking;
use input::Streams;
use refusal::Refusal;

// The rate code of the blocks, which samples are taken, how many are in blocks, and what is read and
// written. One read has 16384 samples at most. With 247 in hand they fill 67 blocks, for which the page
// has room, so that what one read fills is one write.
#[derive(Drop)]
pub struct Packing {
    code: u32,
    taking: Taking,
    before: u64,
    streams: Streams<32768, 34304>,
}

impl Packing {
    // Before the first sample.
    pub fn new(rt: HostRuntime, asked: Asked) -> Packing {
        Packing {
            code: asked.code,
            taking: Taking::new(asked),
            before: 0,
            streams: Streams::new(rt),
        }
    }

    // Packs the whole input, but for the samples of the last block, which are then in hand. No input has
    // so many turns as are counted: the count is there to show that the loop ends.
    pub fn run(&mut self) {
        for _ in 0..u64::MAX {
            self.streams.ready(2);
            if self.streams.unused() < 2 {
                return;
            }
            let done = self.taking.take(self.streams.ahead(usize::MAX));
            self.streams.skip(done);
            if self.taking.samples.is_full() && self.pack().is_err() {
                return;
            }
        }
    }

    // Makes a block of the samples in hand. One that would end above 2^48 is not made, and nothing comes
    // after it; so the number of samples in blocks never wraps.
    fn pack(&mut self) -> Result<(), Refusal> {
        let mut block = [0; 512];
        let made = block::write(self.code, self.before, &self.taking.samples, &mut block);
        match made {
            Ok(()) => {
                // as: usize has no From to u64
                self.before = self.before.wrapping_add(self.taking.samples.len() as u64);
                self.streams.put(&block);
            }
            Err(_) => self
                .streams
                .told(b"blocks: no block may end above 2^48 samples\n"),
        }
        self.taking.samples.clear();
        made
    }

    // Packs the samples in hand, writes all that waits, and says what was wrong with the input or failed.
    pub fn close(&mut self) {
        if !self.taking.samples.is_empty() {
            let _ = self.pack();
        }
        self.streams.closed(b"blocks");
        if self.streams.has_ended() && self.streams.unused() != 0 {
            let bytes = self.streams.read();
            self.streams.told_by(
                b"blocks",
                format_args!(
                    "the input ends inside a sample: of its {bytes} bytes the last is left out"
                ),
            );
        }
    }
}
