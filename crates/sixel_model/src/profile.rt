//! How many colour registers there are.

ghost use Rattle.std.specs.Prelude.{◌≡◌, ◌≤◌};
ghost use Rattle.sixel_model.specs.Profiles.{count_of};

/// How many registers the smaller profile has.
pub const LEAST_REGISTERS: usize = 16;

/// How many registers the greater profile has.
pub const MOST_REGISTERS: usize = 256;

/// The colour registers that a picture may use. Each terminal of the profile's class has them.
///
/// A VT340 has 16 (DEC EK-VT3XX-GP-002, the chapter on sixel graphics). Many of the terminals in use today have 256 or
/// more.
#[derive(Clone, Copy, Debug, PartialEq, Eq)]
pub enum Profile {
    /// The registers 0 to 15.
    Registers16,
    /// The registers 0 to 255.
    Registers256,
}

impl Profile {
    /// How many registers there are: 16 or 256.
    pub fn count(&self) -> u16
        ensures value { result ≡ count_of self.now }
        ensures most { result ≤ MOST_REGISTERS }
    {
        match self {
            Profile::Registers16 => LEAST_REGISTERS as u16,
            Profile::Registers256 => MOST_REGISTERS as u16,
        }
    }
}
