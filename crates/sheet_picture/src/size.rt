// How large the picture is.
ghost use Rattle.std.specs.Prelude.{◌≡◌, List, ℕ, ◌*◌, ◌≤◌};
ghost use Rattle.sheet_picture.specs.Grid.{beside_times, picture_width, picture_height};
ghost use Rattle.sheet_picture.specs.View.{look_of, extent_of};

use crate::View;

// How many times a count stands in each direction.
pub fn beside_times(view: View) -> u32
    requires { (view.times ≤ 15) × (view.height ≤ 65552) }
    ensures { result ≡ beside_times (view.height * view.times) }
{
    (view.height * view.times / 128).clamp(1, 31)
}

// The samples of a row; what the counts are makes no difference.
pub fn picture_width(view: View) -> u32
    requires { (view.times ≤ 15) × (view.width ≤ 4096) × (view.height ≤ 65552) }
    ensures { (b : List ℕ) → result ≡ picture_width (look_of view b) (extent_of view) }
{
    let left = view.width * view.times;
    if view.beside == 0 {
        return left;
    }
    left + 8 + 128 * beside_times(view)
}

// The rows.
pub fn picture_height(view: View) -> u32
    requires { (view.times ≤ 15) × (view.height ≤ 65552) }
    ensures { (b : List ℕ) → result ≡ picture_height (look_of view b) (extent_of view) }
{
    let left = view.height * view.times;
    if view.beside == 0 {
        return left;
    }
    left.max(128 * beside_times(view))
}
