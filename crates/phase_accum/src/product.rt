//! The product of the sends of a phase.
ghost use Rattle.std.specs.Prelude.{◌≡◌, ◌*ℤ◌};
ghost use Rattle.phase_accum.specs.Products.{capped, product_operation, product_laws, product_commutes};

use crate::accumulate::{Accumulate, Exact};
use crate::outcome::{NO_VALUE, Outcome, VALUE_MAX};
use std::marker::Model;

/// The exact product of a list of sends, or that it is too big. Only a send of 0 makes a product
/// small again that is too big, so its number need not be kept.
#[derive(Clone, Copy, Debug, PartialEq, Eq)]
pub struct Product {
    // `NO_VALUE` where the product is too big.
    product: i64,
}

impl Model for Product {
    ghost use Rattle.std.specs.Prelude.{ℤ};

    ghost Value = { ℤ };

    ghost view = { λ p. p.product };

    ghost inverse = { λ t. record { product = t } };
}

/// The exact product of two numbers.
fn times(first: i64, second: i64) -> i128
    ensures { result ≡ first *ℤ second }
{
    first as i128 * second as i128
}

/// The number where it is a value, and else `NO_VALUE`.
fn capped(exact: i128) -> i64
    ensures { result ≡ capped exact }
{
    if exact <= NO_VALUE as i128 || exact > VALUE_MAX as i128 {
        return NO_VALUE;
    }
    exact as i64
}

impl Accumulate for Product {
    ghost operation = { product_operation };

    fn unit() -> Product {
        Product { product: 1 }
    }

    fn of(value: i64) -> Product {
        Product { product: value }
    }

    fn join(first: Product, second: Product) -> Product {
        Product {
            product: capped(times(first.product, second.product)),
        }
    }

    fn finish(self) -> Outcome {
        if self.product == NO_VALUE {
            return Outcome::TooBig;
        }
        Outcome::Value(self.product)
    }

    ghost laws = { product_laws };
}

impl Exact for Product {
    ghost commutes = { product_commutes };
}
