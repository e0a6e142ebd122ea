// The places that wait for a visit, a bit for each.

use std::alloc::Global;
use tm_bits::NoMemory;

/// Places that wait. The next one is sought from where the last one was found, and behind the last place from the first one on.
#[derive(Drop)]
pub struct Queue {
    words: Vec<u64>,
    /// The word of the last place that was found.
    at: usize,
}

impl Queue {
    /// So many places, none of which waits.
    pub fn new(alloc: Global, places: usize) -> Result<Queue, NoMemory> {
        Ok(Queue {
            words: vec![in alloc; 0; places / 64 + 1]?,
            at: 0,
        })
    }

    /// Seeks from the first place on.
    pub fn rewind(&mut self) {
        self.at = 0;
    }

    /// Lets a place wait.
    pub fn add(&mut self, place: u32) {
        if let Some(word) = self.words.get_mut(place as usize / 64) {
            *word |= 1 << (place % 64);
        }
    }

    /// Takes the next place that waits, where there is one.
    pub fn take(&mut self) -> Option<u32> {
        for _word in 0..=self.words.len() {
            match self.words.get_mut(self.at) {
                None => self.at = 0,
                Some(word) => {
                    if *word != 0 {
                        let bit = word.trailing_zeros();
                        *word &= *word - 1;
                        return u32::try_from(self.at)
                            .ok()?
                            .checked_mul(64)?
                            .checked_add(bit);
                    }
                    self.at += 1;
                }
            }
        }
        None
    }
}
