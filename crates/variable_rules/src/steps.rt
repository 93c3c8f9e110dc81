// How much work operations may cost together.
ghost use Rattle.std.specs.Prelude.{◌≡◌, ◌+◌, ◌*◌, ◌-◌, ◌^◌, min};

/// The steps for documents of a number of bytes, if there is no reason for others: 1,000,000, and 10 for each byte.
/// Where a `usize` can't hold that, it is the greatest `usize`.
pub fn default_steps(bytes: usize) -> usize
    ensures { result ≡ min (1000000 + 10 * bytes) (2 ^ 64 - 1) }
{
    bytes.saturating_mul(10).saturating_add(1_000_000)
}
