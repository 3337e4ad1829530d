//! Laws, as contracts of functions that do nothing: what the crates above may rely on.
ghost use Rattle.lr_field.specs.Laws.{IsField, AnyValuesAreOnPolynomial, ValuesFixPolynomial};

/// Bytes with exclusive or and [`mul`](crate::mul) are a field.
pub fn bytes_are_a_field()
    ensures { IsField }
{}

/// Any values at distinct points are those of a polynomial with as many coefficients as there are points.
pub fn any_values_are_on_polynomial()
    ensures { AnyValuesAreOnPolynomial }
{}

/// Two polynomials with as many coefficients as there are distinct points, and with equal values at these
/// points, have equal values everywhere.
pub fn values_fix_polynomial()
    ensures { ValuesFixPolynomial }
{}
