/// A place with the value that an overlay shows there.
#[derive(Clone, Copy, Debug, PartialEq, Eq, Hash)]
pub struct Patch {
    pub place: usize,
    pub value: i16,
}
