// The group sizes of maps.
ghost use Rattle.std.specs.Prelude.{◌≡◌, ◌≤◌, ⊤, MatchOption, unwrap_or};
ghost use Rattle.mat_map.specs.Size.{bits_or_none};

// The bits of a position in a group of so many pixels, if a map has such groups.
#[tactic(auto, unfolding(crate::specs::Size::bits_or_none))]
pub fn position_bits(group: u32) -> Option<u32>
    ensures bits { unwrap_or result 0 ≡ bits_or_none group }
    ensures least { MatchOption result ⊤ (λ k. 2 ≤ k) }
{
    match group {
        4 => Some(2),
        16 => Some(4),
        _ => None,
    }
}
