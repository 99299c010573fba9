// The palette: red, green and blue of each index.
ghost use Rattle.std.specs.Prelude.{◌≡◌, ◌+◌, ◌≤◌, ◌<◌, length};
ghost use Rattle.text.specs.Put.{Put};
ghost use Rattle.sheet_picture.specs.Colour.{colour, own_colour, green_colour, colour_of, palette};

pub fn palette_bytes() -> [u8; 768]
    ensures { result ≡ palette }
{
    let mut bytes = [0u8; 768];
    put_palette(&mut bytes);
    bytes
}

fn put_palette(out: &mut [u8])
    requires { length out.old ≡ 768 }
    ensures { out.new ≡ palette }
{
    let mut at = 0;
    for i in 0..256u32 {
        at = put_colour(out, at, i);
    }
}

fn put_colour(out: &mut [u8], at: usize, i: u32) -> usize
    requires at_in_bounds { at + 3 ≤ length out.old }
    requires i_bound { i < 256 }
    ensures { Put out.old at (colour_of i) result out.new }
{
    if i < 178 {
        let v = i * 255 / 177;
        return put_rgb(out, at, v, v, v);
    }
    if i < 184 {
        return put_own(out, at, i);
    }
    put_green(out, at, i - 184)
}

fn put_green(out: &mut [u8], at: usize, t: u32) -> usize
    requires at_in_bounds { at + 3 ≤ length out.old }
    requires t_bound { t < 72 }
    ensures { Put out.old at (green_colour t) result out.new }
{
    if t == 0 {
        return put_rgb(out, at, 0, 32, 0);
    }
    put_rgb(out, at, t * 220 / 71, 80 + t * 175 / 71, t * 140 / 71)
}

// The colours of 178 to 183: outside the range, bad spots, what is missing, the background.
#[tactic(auto, unfolding(crate::specs::Colour::own_colour))]
fn put_own(out: &mut [u8], at: usize, i: u32) -> usize
    requires at_in_bounds { at + 3 ≤ length out.old }
    requires le_i { (178 ≤ i) × (i < 184) }
    ensures { Put out.old at (own_colour i) result out.new }
{
    match i {
        178 => put_rgb(out, at, 112, 0, 160),
        179 => put_rgb(out, at, 0, 224, 255),
        180 => put_rgb(out, at, 255, 200, 0),
        181 => put_rgb(out, at, 255, 0, 0),
        182 => put_rgb(out, at, 32, 64, 208),
        _ => put_rgb(out, at, 250, 244, 220),
    }
}

fn put_rgb(out: &mut [u8], at: usize, red: u32, green: u32, blue: u32) -> usize
    requires at_in_bounds { at + 3 ≤ length out.old }
    requires red_bound { (red < 256) × (green < 256) × (blue < 256) }
    ensures { Put out.old at (colour red green blue) result out.new }
{
    out[at..at + 3].copy_from_slice(&[red as u8, green as u8, blue as u8]);
    at + 3
}
