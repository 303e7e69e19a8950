ghost use Rattle.std.specs.Prelude.{◌≡◌};
ghost use Rattle.stores.specs.Stores.{reason};

use thiserror::Error;

/// Why a store refuses a write.
#[derive(Clone, Copy, Debug, PartialEq, Eq, Hash, Error)]
pub enum StoreFault {
    #[error("the place is not below the size")]
    Place = 1,
    #[error("the store cannot keep the value there")]
    Value = 2,
    #[error("the store's table is full")]
    Full = 3,
}

impl StoreFault {
    /// The reason's number.
    pub fn reason(self) -> u8
        ensures { result ≡ reason self }
    {
        self as u8
    }
}
