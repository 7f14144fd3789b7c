// The numbers that are drawn.
ghost use Rattle.std.specs.Prelude.{◌≡◌, ◌/◌, ◌^◌};
ghost use Rattle.world_gen.specs.Generator.{after_draw};

const FACTOR: u64 = 6364136223846793005;

const SUMMAND: u64 = 1442695040888963407;

/// Draws a number, below 2^31.
#[tactic(auto, unfolding(crate::specs::Generator::after_draw))]
pub(crate) fn draw(state: &mut u64) -> u32
    ensures state { state.new ≡ after_draw state.old }
    ensures drawn { result ≡ after_draw state.old / 2 ^ 33 }
{
    *state = state.wrapping_mul(FACTOR).wrapping_add(SUMMAND);
    (*state >> 33) as u32
}
