//! Laws of the values of lists of sends, and the numbers behind the constants.
ghost use Rattle.std.specs.Prelude.{◌≡◌, ◌^◌, ◌-◌, pos, neg_ℤ};
ghost use Rattle.phase_accum.specs.declared.outcome.TheConstants.{MAGNITUDE_MAX, NO_VALUE, VALUE_MAX};
ghost use Rattle.phase_accum.specs.Exchanges.{Exchanges};
ghost use Rattle.phase_accum.specs.Values.{value_max, sum_value, product_value, least_value, greatest_value};

/// The constants as numbers: the greatest magnitude of a value is 2^63 - 1, and -2^63 is no value.
pub fn numbers()
    ensures value_max { value_max ≡ 2 ^ 63 - 1 }
    ensures greatest { VALUE_MAX ≡ pos value_max }
    ensures magnitude { MAGNITUDE_MAX ≡ value_max }
    ensures no_value { NO_VALUE ≡ neg_ℤ (pos (2 ^ 63)) }
{}

/// The sum is the same in whatever order lists of sends stand.
pub fn sum_exchanges()
    ensures { Exchanges sum_value }
{}

/// The product is the same in whatever order lists of sends stand.
pub fn product_exchanges()
    ensures { Exchanges product_value }
{}

/// The least send is the same in whatever order lists of sends stand.
pub fn least_exchanges()
    ensures { Exchanges least_value }
{}

/// The greatest send is the same in whatever order lists of sends stand.
pub fn greatest_exchanges()
    ensures { Exchanges greatest_value }
{}
