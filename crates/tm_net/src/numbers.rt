// The numbers of registers and of roots.

ghost use Rattle.std.specs.Prelude.{◌≡◌, ℕ, ◌+◌, ◌*◌, ◌^◌, ◌<◌, ◌≤◌, length, slice_index, All, AllPairs, IfOk};
ghost use Rattle.tm_unroll.specs.Depths.{tables_in};
ghost use Rattle.tm_net.specs.Layouts.{AreFirsts, AreTops};

use std::alloc::Global;
use tm_bits::NoMemory;
use tm_unroll::Lut;

/// The number of the first register of each signal, after so many inputs, and at the end the number after all registers.
pub fn first_registers(
    alloc: Global,
    inputs: u32,
    lows: &[u8],
    ends: &[u8],
) -> Result<Vec<u32>, NoMemory>
    requires sized { length ends.now ≡ length lows.now }
    requires within { (s : ℕ) → slice_index lows.now s ≤ slice_index ends.now s }
    requires near { (s : ℕ) → slice_index ends.now s ≤ 8 }
    requires few { inputs + 8 * length lows.now < 2 ^ 32 }
    ensures { IfOk result (λ firsts. AreFirsts inputs lows.now ends.now (length lows.now) firsts.items) }
{
    let mut firsts = Vec::new(alloc);
    let mut next = inputs;
    for (place, low) in lows.iter().enumerate() {
        firsts.push(next)?;
        next += u32::from(ends[place] - *low);
    }
    firsts.push(next)?;
    Ok(firsts)
}

/// The numbers of roots by the signals of their gates, counted on from that of the first root.
pub fn tops(alloc: Global, signals: u32, first: u32, luts: &[Lut]) -> Result<Vec<u32>, NoMemory>
    requires gates { All (λ lut. lut.gate < signals) luts.now }
    requires ascending { AllPairs (λ t u. t.gate < u.gate) (tables_in luts.now) }
    requires few { first + length luts.now < 2 ^ 32 }
    ensures { IfOk result (λ tops. AreTops (tables_in luts.now) first signals tops.items) }
{
    let mut tops = Vec::new(alloc);
    for s in 0..signals {
        tops.push(s)?;
    }
    for (place, lut) in luts.iter().enumerate() {
        tops[lut.gate.0 as usize] = first + place as u32;
    }
    Ok(tops)
}
