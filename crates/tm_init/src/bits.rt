// The bits of a byte by their places, the lowest at place 0.

ghost use Rattle.std.specs.Prelude.{◌≡◌, ◌≢◌, ℕ, ◌<◌, ◌==◌};
ghost use Rattle.std.specs.Int.{bit_at};
ghost use Rattle.tm_init.specs.Limits.{most_steps};

/// Whether the bit at a place is 1.
pub fn bit(byte: u8, place: u8) -> bool
    requires { place < most_steps }
    ensures { result ≡ (bit_at byte place == 1) }
{
    (byte >> place) & 1 == 1
}

/// The byte with this bit at a place.
pub fn with_bit(byte: u8, place: u8, value: bool) -> u8
    requires { place < most_steps }
    ensures same { (bit_at result place == 1) ≡ value }
    ensures others { (other : ℕ) → other < most_steps → other ≢ place → bit_at result other ≡ bit_at byte other }
{
    let mask = 1 << place;
    if value { byte | mask } else { byte & !mask }
}
