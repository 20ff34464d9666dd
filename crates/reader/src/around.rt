// What is around a node, as one number.
ghost use Rattle.std.specs.Prelude.{◌≡◌, false, true};
ghost use Rattle.reader.specs.Cursors.{surroundings, deeper, under_let};

use std::marker::Model;

// How deep it may nest, how many lets it is inside of, and whether it lies inside an unchecked block.
#[derive(Clone, Copy)]
pub struct Around {
    number: u64,
}

impl Model for Around {
    ghost use Rattle.reader.specs.Cursors.{Surroundings};

    ghost Value = { Surroundings };

    ghost use Rattle.reader.specs.Cursors.{around_number, surroundings_in};

    ghost view = { λ around. surroundings_in around.number };

    ghost inverse = { λ lies. record { number = around_number lies } };

    ghost use Rattle.std.proofs.Common.{ℕ, ap};
    ghost use Rattle.reader.specs.declared.around.Around.TheInside.{Inside};
    ghost use Rattle.reader.specs.Packing.{around_again};

    ghost inverse_ok = { λ around _. ap (λ (n : ℕ). record { number = n }) (around_again around.number) };
}

impl Around {
    // Around the whole expression.
    pub fn outermost() -> Around
        ensures { result ≡ surroundings 64 0 false }
    {
        Around { number: 64 }
    }

    pub fn lets(self) -> u64
        ensures { result ≡ self.lets }
    {
        self.number / 256
    }

    pub fn is_inside(self) -> bool
        ensures { result ≡ self.inside }
    {
        self.number / 128 % 2 == 1
    }

    // Around a part of the node: one level less may follow, and where none may, there is no part.
    pub fn deeper(self) -> Option<Around>
        ensures { result ≡ deeper self }
    {
        if self.number % 128 == 0 {
            return None;
        }
        Some(Around {
            number: self.number - 1,
        })
    }

    // Around the body of a let.
    pub fn under_let(self) -> Around
        ensures { result ≡ under_let self }
    {
        Around {
            number: self.number.wrapping_add(256),
        }
    }

    // Around a part that lies inside an unchecked block, or doesn't.
    pub fn with_inside(self, inside: bool) -> Around
        ensures { result ≡ surroundings self.depth self.lets inside }
    {
        let rest = self.number / 256 * 256 + self.number % 128;
        Around {
            number: rest + 128 * u64::from(inside),
        }
    }
}
