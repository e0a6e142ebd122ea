// How deep and how wide a circuit is.

ghost use Rattle.std.specs.Prelude.{◌≡◌, map, length, All};
ghost use Rattle.tm_circuit.specs.Plain.{drive_of, pins_of, greatest};
ghost use Rattle.tm_circuit.specs.Sound.{FitsPins};

use crate::depths::pins;
use crate::parts::Driver;

/// The greatest of some numbers, 0 where there is none.
pub fn greatest_of(numbers: &[u32]) -> u32
    ensures { result ≡ greatest numbers.now }
{
    let mut most = 0;
    for number in numbers {
        most = most.max(*number);
    }
    most
}

/// The greatest number of pins of a gate, 0 without gates.
pub fn widest_of(drivers: &[Driver]) -> u32
    requires { All (λ d. FitsPins (drive_of d)) drivers.now }
    ensures { result ≡ greatest (map (λ d. length (pins_of (drive_of d))) drivers.now) }
{
    let mut most = 0;
    for driver in drivers {
        most = most.max(pins(driver).len() as u32);
    }
    most
}
