// Comparisons with a product that may be too large to compute.
ghost use Rattle.std.specs.Prelude.{◌≡◌, ◌*◌, ltb, leb};

// x below a·b.
pub(crate) fn below_product(x: usize, a: usize, b: usize) -> bool
    ensures { result ≡ ltb x (a * b) }
{
    a.checked_mul(b).is_none_or(|product| x < product)
}

// x at most a·b.
pub(crate) fn within_product(x: usize, a: usize, b: usize) -> bool
    ensures { result ≡ leb x (a * b) }
{
    a.checked_mul(b).is_none_or(|product| x <= product)
}
