//! Places in a list of pieces of one size.
ghost use Rattle.std.specs.Prelude.{◌≡◌, ◌*◌, ◌≤◌};

/// Where piece `k` begins.
pub(crate) fn start_of(k: u32, size: u32) -> u32
    requires few { k ≤ 96 }
    requires short { size ≤ 9216 }
    ensures { result ≡ k * size }
{
    k * size
}
