ghost use Rattle.std.specs.Prelude.{◌≡◌, length};
ghost use Rattle.stores.specs.Stores.{Meaning, StoreLaws, Written, read_at};

use crate::fault::StoreFault;

/// The most places that a store has.
pub const MOST_PLACES: usize = 32_768;

/// A store of weights, each at a place.
///
/// `meaning` says what the store shows and which writes it accepts now. A store may keep more than
/// that to itself.
pub trait Store {
    ghost meaning: { Self → Meaning };

    /// How many places there are.
    fn size(&self) -> usize
        ensures { result ≡ length (meaning self.now).entries };

    /// The entry at a place, or none from the size on.
    fn read(&self, place: usize) -> Option<i16>
        ensures { result ≡ read_at (meaning self.now).entries place };

    /// Whether the store would accept the value at the place, or why not.
    fn holds(&self, place: usize, value: i16) -> Result<(), StoreFault>
        ensures { result ≡ (meaning self.now).holds place value };

    /// Sets the entry at the place, or leaves everything as it was and says why.
    fn write(&mut self, place: usize, value: i16) -> Result<(), StoreFault>
        ensures { Written (meaning self.old) place value result (meaning self.new) };

    ghost lawful: { (s : Self) → StoreLaws (meaning s) };
}

#[cfg(test)]
mod tests {
    use super::*;
    use crate::plain::Plain;
    use std::test::Fail;

    // A store that counts the writes that the one below refuses. The count is no part of its
    // meaning.
    #[derive(Drop)]
    struct Counting<S: Store> {
        below: S,
        refused: u64,
    }

    impl<S: Store> Store for Counting<S> {
        ghost meaning = { λ c. S.meaning c.below };

        ghost lawful = { λ s. S.lawful s.below };

        fn size(&self) -> usize {
            self.below.size()
        }

        fn read(&self, place: usize) -> Option<i16> {
            self.below.read(place)
        }

        fn holds(&self, place: usize, value: i16) -> Result<(), StoreFault> {
            self.below.holds(place, value)
        }

        fn write(&mut self, place: usize, value: i16) -> Result<(), StoreFault> {
            let answer = self.below.write(place, value);
            if answer.is_err() {
                self.refused = self.refused.saturating_add(1);
            }
            answer
        }
    }

    #[test]
    fn a_store_may_keep_more_than_it_means(rt: HostRuntime) -> Result<(), Fail> {
        let below = Plain::new(vec![in rt.alloc(); 0i16; 1]?);
        let mut store = Counting { below, refused: 0 };
        assert_eq!(rt; store.write(0, 3), Ok(()));
        assert_eq!(rt; store.write(1, 3), Err(StoreFault::Place));
        assert_eq!(rt; (store.read(0), store.refused), (Some(3), 1));
        Ok(())
    }
}
