// Numbers in a wider type. Nothing calls these any more (`u16::from`, `usize::from`); they stay for their must-fail edit, high_bit_lost.
#![tactic(auto)]

ghost use Rattle.std.specs.Prelude.{◌≡◌, ◌<◌};

pub fn byte_as_u16(x: u8) -> u16
    ensures { result ≡ x }
{
    x as u16
}

pub fn byte_as_usize(x: u8) -> usize
    ensures { (result ≡ x)
        × (result < 256) }
{
    x as usize
}
