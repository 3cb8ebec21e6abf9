// Which samples are taken: one of every k.
use crate::arguments::Asked;
use arrayvec::ArrayVec;

// The samples taken that are in no block yet, at most as many as fill one; how many samples are left
// out before the next one is taken; and that every k-th is.
#[derive(Drop)]
pub struct Taking {
    pub samples: ArrayVec<i16, 248>,
    skip: usize,
    k: u32,
}

impl Taking {
    // Before the first sample.
    pub fn new(asked: Asked) -> Taking {
        Taking {
            samples: ArrayVec::new(),
            skip: 0,
            k: asked.k.get(),
        }
    }

    // Takes samples of a piece of the input, up to the last whole one in it or as long as there is room
    // for them, and answers with how many of its bytes are done with. Those left out are stepped over.
    pub fn take(&mut self, piece: &[u8]) -> usize {
        let (pairs, _) = piece.as_chunks::<2>();
        // By place: where the next sample lies goes over into the next piece.
        let mut place = self.skip;
        for _ in 0..self.samples.remaining_capacity() {
            let Some(pair) = pairs.get(place) else { break };
            let _ = self.samples.try_push(i16::from_le_bytes(*pair));
            place += self.k as usize; // as: u32 has no From to usize
        }
        let done = place.min(pairs.len());
        self.skip = place - done;
        2 * done
    }
}
