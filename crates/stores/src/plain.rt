ghost use Rattle.std.specs.Prelude.{◌≡◌, ℕ, ◌<◌, ◌≤◌, All, take, vec_len};
ghost use Rattle.stores.specs.Plain.{plain_meaning};
ghost use Rattle.stores.specs.Stores.{Untouched, Written, most_places};
ghost use Rattle.std.proofs.Common.{rules};
ghost use Rattle.rounding.specs.Numbers.{Weight};

use crate::fault::StoreFault;
use crate::store::{MOST_PLACES, Store};

/// Weights as words of 16 bits.
#[derive(Debug, Drop)]
pub struct Plain {
    words: Vec<i16>,
    ghost few: { vec_len words ≤ most_places },
    ghost weights: { All Weight words.items },
}

impl Plain {
    /// A store of these words, without those past the most places.
    pub fn new(mut words: Vec<i16>) -> Plain
        ensures { result.words.items ≡ take most_places words.items }
    {
        words.truncate(MOST_PLACES);
        // Each word has 16 bits, so it is a weight.
        words.iter().for_each(|&_weight| {});
        Plain { words }
    }

    /// The words, as they are now.
    pub fn into_words(self) -> Vec<i16>
        ensures { result ≡ self.words }
    {
        let Plain { words } = self;
        words
    }
}

impl Store for Plain {
    ghost meaning = { λ s. plain_meaning s.words.items };

    ghost lawful = { λ s.
        record {
          few = Prim.search rules;
          weights = s.weights;
          outside = λ p v w h. Prim.search rules;
          inside = λ p v w h e. Prim.search rules;
        } };

    fn size(&self) -> usize {
        self.words.len()
    }

    fn read(&self, place: usize) -> Option<i16> {
        self.words.get(place).copied()
    }

    fn holds(&self, place: usize, _value: i16) -> Result<(), StoreFault> {
        if place < self.words.len() {
            Ok(())
        } else {
            Err(StoreFault::Place)
        }
    }

    fn write(&mut self, place: usize, value: i16) -> Result<(), StoreFault>
        ensures written { Written
            (plain_meaning self.old.words.items)
            place value result
            (plain_meaning self.new.words.items) }
        ensures untouched { Untouched result self.old self.new }
    {
        if place >= self.words.len() {
            return Err(StoreFault::Place);
        }
        self.words[place] = value;
        Ok(())
    }
}

#[cfg(test)]
mod tests {
    use super::*;
    use std::test::Fail;

    #[test]
    fn keeps_every_weight(rt: HostRuntime) -> Result<(), Fail> {
        let mut store = Plain::new(vec![in rt.alloc(); 0i16; 2]?);
        assert_eq!(rt; store.write(1, -32_768), Ok(()));
        assert_eq!(rt; store.write(2, 1), Err(StoreFault::Place));
        assert_eq!(rt; store.read(1), Some(-32_768));
        assert_eq!(rt; store.read(2), None);
        Ok(())
    }
}
