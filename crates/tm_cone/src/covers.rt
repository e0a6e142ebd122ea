// What a cover comes to on 256 rows at once, from the lanes of its pins.

ghost use Rattle.std.specs.Prelude.{◌&&◌};
ghost use Rattle.tm_bits.specs.Rows.{agrees_at, row_agrees, holds};
ghost use Rattle.tm_bits.specs.Tables.{bit_of};
ghost use Rattle.tm_cone.specs.Values.{HaveBits, bits_in};

use crate::words::{Lanes, both, either, ones, turned, zeros};
use tm_bits::{Cover, Place};

/// Where a place agrees with its pin too.
fn with_place(all: Lanes, place: Place, pin: Lanes) -> Lanes
    ensures { HaveBits result (λ row. bit_of all row && agrees_at place (bit_of pin row)) }
{
    match place {
        Place::Zero => both(all, turned(pin)),
        Place::One => both(all, pin),
        Place::Any => all,
    }
}

/// Where each place of a row of a cover agrees with its pin.
fn row_lanes(places: &[Place], pins: &[Lanes]) -> Lanes
    ensures { HaveBits result (λ row. row_agrees places.now (bits_in row pins.now)) }
{
    let mut all = ones();
    for (place, pin) in places.iter().zip(pins) {
        all = with_place(all, *place, *pin);
    }
    all
}

/// Where a cover holds.
pub fn cover_lanes(cover: &Cover, pins: &[Lanes]) -> Lanes
    ensures { HaveBits result (λ row. holds cover.now (bits_in row pins.now)) }
{
    let mut some = zeros();
    for row in cover.rows() {
        some = either(some, row_lanes(row.places(), pins));
    }
    if cover.on() { some } else { turned(some) }
}
