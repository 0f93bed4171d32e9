// Why a frame is not composed.
use rt_values::NoMemory;
use thiserror::Error;

/// Why a frame is not composed.
#[derive(Clone, Copy, Debug, PartialEq, Eq, Error)]
pub enum ComposeStop {
    /// The composition would have more than 1,000,000 groups.
    #[error("the composition has too many groups")]
    TooManyGroups,
    /// Out of memory.
    #[error("out of memory")]
    NoMemory,
}

impl From<NoMemory> for ComposeStop {
    ghost use Rattle.std.specs.Prelude.{◌≡◌};
    ghost use Rattle.composer.specs.declared.stop.ComposeStop.TheVariants.{NoMemory as no_memory};

    ghost from_gives = { λ _ e. e ≡ no_memory };

    fn from(_: NoMemory) -> ComposeStop {
        ComposeStop::NoMemory
    }
}
