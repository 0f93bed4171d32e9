//! The operators of expressions on numbers. Each is total and takes no memory.
//!
//! Sums, differences and products wrap in 64 bits, as those of the JVM's `Long` do. A quotient or a remainder
//! by 0 is 0, a rule of this project. The operators on truth values are Rust's.
ghost use Rattle.std.specs.Prelude.{◌≡◌, int_lt};
ghost use Rattle.rt_values.specs.Operators.{sum_of, difference, product, quotient, remainder};

/// Returns the sum, wrapped to 64 bits.
pub fn add(a: i64, b: i64) -> i64
    ensures { result ≡ sum_of a b }
{
    a.wrapping_add(b)
}

/// Returns the difference, wrapped to 64 bits.
pub fn subtract(a: i64, b: i64) -> i64
    ensures { result ≡ difference a b }
{
    a.wrapping_sub(b)
}

/// Returns the product, wrapped to 64 bits.
pub fn multiply(a: i64, b: i64) -> i64
    ensures { result ≡ product a b }
{
    a.wrapping_mul(b)
}

/// Returns the quotient, rounded towards 0, or 0 if `b` is 0. `i64::MIN` divided by -1 is `i64::MIN`.
pub fn divide(a: i64, b: i64) -> i64
    ensures { result ≡ quotient a b }
{
    if b == 0 { 0 } else { a.wrapping_div(b) }
}

/// Returns the remainder with the sign of `a`, or 0 if `b` is 0.
pub fn remainder(a: i64, b: i64) -> i64
    ensures { result ≡ remainder a b }
{
    if b == 0 { 0 } else { a.wrapping_rem(b) }
}

/// Returns whether `a` is less than `b`.
pub fn is_less(a: i64, b: i64) -> bool
    ensures { result ≡ int_lt a b }
{
    a < b
}
