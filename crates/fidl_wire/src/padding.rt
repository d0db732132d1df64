ghost use Rattle.std.specs.Prelude.{◌≡◌, ◌<◌};
ghost use Rattle.fidl_wire.specs.Numbers.{padding_after};

/// How many zeros follow an object of `size` bytes, up to a multiple of eight: fewer than eight.
#[tactic(auto, unfolding(crate::specs::Numbers::padding_after))]
pub fn padding_after(size: usize) -> usize
    ensures value { result ≡ padding_after size }
    ensures bound { result < 8 }
{
    (8 - size % 8) % 8
}
