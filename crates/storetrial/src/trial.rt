ghost use Rattle.std.specs.Prelude.{◌≡◌, IfOk};
ghost use Rattle.storetrial.specs.Trials.{Asked, apart_from, filled, meanings, of_each, of_packed, of_plain, opened, size_of, zeros};

use crate::action::{Action, Outcome};
use crate::five::Five;
use std::alloc::{AllocError, Global};
use stores::compare::differing;
use stores::overlay::Overlay;
use stores::packed::Packed;
use stores::plain::Plain;
use stores::store::Store;

/// What new stores are made of: packed ones of so many bytes with the value `fill`, under the
/// shift, and plain ones of two words to a byte, all 0.
#[derive(Clone, Copy, Debug, Default, PartialEq, Eq)]
pub struct Opening {
    pub bytes: u16,
    pub shift: u32,
    pub fill: u8,
}

/// Five stores with the same places, to which the same is done.
#[derive(Drop)]
pub(crate) struct Trial {
    plain: Plain,
    packed: Packed,
    over_plain: Overlay<Plain>,
    over_packed: Overlay<Packed>,
    twice: Overlay<Overlay<Packed>>,
}

/// A plain store of two words to a byte, all 0.
fn zeros(alloc: Global, bytes: u16) -> Result<Plain, AllocError>
    ensures { IfOk result (λ s. of_plain s ≡ zeros bytes) }
{
    let words = usize::from(bytes) * 2;
    Ok(Plain::new(vec![in alloc; 0i16; words]?))
}

/// A packed store of so many bytes with the value `fill`, under the shift.
fn filled(alloc: Global, opening: Opening) -> Result<Packed, AllocError>
    ensures { IfOk result (λ s. of_packed s ≡ filled opening) }
{
    let bytes = vec![in alloc; opening.fill; usize::from(opening.bytes)]?;
    Ok(Packed::new(bytes, opening.shift))
}

impl Trial {
    /// New stores. It is inlined, so that the tables are made where they are to stay.
    #[inline(always)]
    pub(crate) fn open(alloc: Global, opening: Opening) -> Result<Trial, AllocError>
        ensures { IfOk result (λ t. meanings t ≡ opened opening) }
    {
        Ok(Trial {
            plain: zeros(alloc, opening.bytes)?,
            packed: filled(alloc, opening)?,
            over_plain: Overlay::new(zeros(alloc, opening.bytes)?),
            over_packed: Overlay::new(filled(alloc, opening)?),
            twice: Overlay::new(Overlay::new(filled(alloc, opening)?)),
        })
    }

    /// Asks the same of each store.
    pub(crate) fn ask(&mut self, action: Action) -> Five<Outcome>
        ensures { Asked (meanings self.old) action result (meanings self.new) }
    {
        Five {
            plain: action.act(&mut self.plain),
            packed: action.act(&mut self.packed),
            over_plain: action.act(&mut self.over_plain),
            over_packed: action.act(&mut self.over_packed),
            twice: action.act(&mut self.twice),
        }
    }

    /// How many places of each store differ from the plain one's.
    pub(crate) fn differ(&self) -> Five<usize>
        ensures { result ≡ of_each (apart_from (meanings self.now).plain) (meanings self.now) }
    {
        Five {
            plain: differing(&self.plain, &self.plain),
            packed: differing(&self.packed, &self.plain),
            over_plain: differing(&self.over_plain, &self.plain),
            over_packed: differing(&self.over_packed, &self.plain),
            twice: differing(&self.twice, &self.plain),
        }
    }

    /// How many places each store has.
    pub(crate) fn sizes(&self) -> Five<usize>
        ensures { result ≡ of_each size_of (meanings self.now) }
    {
        Five {
            plain: self.plain.size(),
            packed: self.packed.size(),
            over_plain: self.over_plain.size(),
            over_packed: self.over_packed.size(),
            twice: self.twice.size(),
        }
    }
}
