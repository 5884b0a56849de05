//! Why an image is refused.
ghost use Rattle.std.specs.Prelude.{◌≡◌};
ghost use Rattle.die_model.specs.declared.refusal.ImageRefusal.TheVariants.{OutOfMemory};
ghost use Rattle.die_model.specs.Loading.{code};

use std::alloc::AllocError;
use thiserror::Error;

/// What is wrong with a die's image. An image is judged from its front: its header, its length, and then each entry in
/// turn, its row before the order.
#[derive(Clone, Copy, Debug, PartialEq, Eq, Error)]
pub enum ImageFault {
    /// I1: there are fewer bytes than a header has, or more or fewer than the header's count of entries asks for.
    #[error("the image isn't as long as its header says")]
    Length,
    /// I2: the first four bytes aren't `NDI1`.
    #[error("the image doesn't begin with NDI1")]
    Magic,
    /// I3: the sizes in the header aren't those of the die.
    #[error("the image is of a die with other sizes")]
    Numbers,
    /// I4: a row isn't above the one before.
    #[error("the rows of the image don't rise")]
    Order,
    /// I5: a row is no page of LUN 0 of the die.
    #[error("a row of the image is outside the die")]
    Row,
}

impl ImageFault {
    /// Its code, `I1` to `I5`.
    pub fn code(self) -> &'static str
        ensures { result.now ≡ code self }
    {
        match self {
            ImageFault::Length => "I1",
            ImageFault::Magic => "I2",
            ImageFault::Numbers => "I3",
            ImageFault::Order => "I4",
            ImageFault::Row => "I5",
        }
    }
}

/// Why an image wasn't loaded.
#[derive(Clone, Copy, Debug, PartialEq, Eq, Error)]
pub enum ImageRefusal {
    /// The image has a fault, the first one that is met.
    #[error("{0}")]
    Fault(ImageFault),
    /// The image has no fault, but there is no memory for its pages.
    #[error("out of memory")]
    OutOfMemory,
}

impl From<AllocError> for ImageRefusal {
    ghost from_gives = { λ _ e. e ≡ OutOfMemory };

    fn from(_e: AllocError) -> ImageRefusal {
        ImageRefusal::OutOfMemory
    }
}
