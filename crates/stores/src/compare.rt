ghost use Rattle.std.specs.Prelude.{◌≡◌, ◌↔◌};
ghost use Rattle.stores.specs.Differing.{differing};

use crate::store::Store;

/// How many places read otherwise in the one store than in the other.
pub fn differing<S: Store, T: Store>(one: &S, other: &T) -> usize
    ensures count { result ≡ differing (S.meaning one.now).entries (T.meaning other.now).entries }
    ensures none { (result ≡ 0) ↔ ((S.meaning one.now).entries ≡ (T.meaning other.now).entries) }
{
    (0..one.size().max(other.size()))
        .filter(|&place| one.read(place) != other.read(place))
        .count()
}

#[cfg(test)]
mod tests {
    use super::*;
    use crate::plain::Plain;
    use std::test::Fail;

    #[test]
    fn places_that_only_one_has_differ(rt: HostRuntime) -> Result<(), Fail> {
        let short = Plain::new(vec![in rt.alloc(); 0i16; 2]?);
        let long = Plain::new(vec![in rt.alloc(); 0i16; 5]?);
        assert_eq!(rt; differing(&short, &long), 3);
        assert_eq!(rt; differing(&long, &short), 3);
        assert_eq!(rt; differing(&long, &long), 0);
        Ok(())
    }
}
