use std::fmt;
use stores::fault::StoreFault;
use stores::store::Store;

/// What is asked of a store.
#[derive(Clone, Copy, Debug, PartialEq, Eq)]
pub enum Action {
    Read(usize),
    Holds(usize, i16),
    Write(usize, i16),
}

/// What the store answered.
#[derive(Clone, Copy, Debug, PartialEq, Eq)]
pub enum Outcome {
    Entry(Option<i16>),
    Answer(Result<(), StoreFault>),
}

impl Action {
    ghost use Rattle.storetrial.specs.Trials.{Acted, printed};

    /// Asks a store, of whatever kind.
    pub(crate) fn act<S: Store>(self, store: &mut S) -> Outcome
        ensures { Acted (S.meaning store.old) self result (S.meaning store.new) }
    {
        match self {
            Action::Read(place) => Outcome::Entry(store.read(place)),
            Action::Holds(place, value) => Outcome::Answer(store.holds(place, value)),
            Action::Write(place, value) => Outcome::Answer(store.write(place, value)),
        }
    }
}

impl fmt::Display for Outcome {
    ghost use Rattle.storetrial.specs.Trials.{printed};

    ghost output = { printed };

    fn fmt<W: fmt::Write>(&self, f: &mut fmt::Formatter<W>) -> fmt::Result {
        match self {
            Outcome::Entry(Some(entry)) => write!(f, "{entry}"),
            Outcome::Entry(None) => write!(f, "none"),
            Outcome::Answer(Ok(())) => write!(f, "ok"),
            Outcome::Answer(Err(fault)) => write!(f, "no {}", fault.reason()),
        }
    }
}
