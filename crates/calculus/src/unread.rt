// Why no number stands at a place of the image, as the refusal that it is.
ghost use Rattle.std.specs.Prelude.{◌≡◌};
ghost use Rattle.calculus.specs.Unread.{refusal_of};

use crate::{Fault, Refusal};
use numbers::Unread;

impl From<Unread> for Refusal {
    ghost from_gives = { λ unread refusal. refusal ≡ refusal_of unread };

    fn from(unread: Unread) -> Refusal {
        let (fault, place) = match unread {
            Unread::Ends { place } => (Fault::Ends, place),
            Unread::Unfit { place } => (Fault::Unfit, place),
        };
        Refusal { fault, place }
    }
}
