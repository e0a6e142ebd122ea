// The lines said, each without its LF.

ghost use Rattle.std.specs.Prelude.{◌≡◌, IfOk, string_bytes};
ghost use Rattle.turbomap.specs.Line.{unread_line, unwritten_line, too_long_line, fault_line, mapped_line, accepted_line};
ghost use Rattle.turbomap.specs.Line.{not_accepted_line, steps_line, large_line, bound_line};

use std::alloc::{AllocError, Global};
use tm_texts::Large;

/// Says that there is no memory.
pub const NO_MEMORY: &str = "no memory";

/// Says that the words have no reading.
pub const BAD_WORDS: &str = "bad command line";

/// Says that the file could not be read.
pub fn unread_line(alloc: Global, name: &str) -> Result<String, AllocError>
    ensures { IfOk result (λ line. string_bytes line ≡ unread_line name.now) }
{
    format!(in alloc; "cannot read {name}")
}

/// Says that the file could not be written.
pub fn unwritten_line(alloc: Global, name: &str) -> Result<String, AllocError>
    ensures { IfOk result (λ line. string_bytes line ≡ unwritten_line name.now) }
{
    format!(in alloc; "cannot write {name}")
}

/// Says that the file holds more bytes than its limit.
pub fn too_long_line(alloc: Global, name: &str) -> Result<String, AllocError>
    ensures { IfOk result (λ line. string_bytes line ≡ too_long_line name.now) }
{
    format!(in alloc; "{name}: too long")
}

/// Says a fault of the file's text, by the name of its kind, and its line.
pub fn fault_line(alloc: Global, name: &str, line: u32, kind: &str) -> Result<String, AllocError>
    ensures { IfOk result (λ said. string_bytes said ≡ fault_line name.now line kind.now) }
{
    format!(in alloc; "{name}: line {line}: {kind}")
}

/// Says the period of a mapped circuit and its numbers of tables and registers.
pub fn mapped_line(
    alloc: Global,
    period: u32,
    tables: u32,
    registers: u32,
) -> Result<String, AllocError>
    ensures { IfOk result (λ line. string_bytes line ≡ mapped_line period tables registers) }
{
    format!(in alloc; "period {period} tables {tables} registers {registers}")
}

/// Says the least period where registers may also move backward.
pub fn bound_line(alloc: Global, period: u32) -> Result<String, AllocError>
    ensures { IfOk result (λ line. string_bytes line ≡ bound_line period) }
{
    format!(in alloc; "bound period {period}")
}

/// Says the number of a sample, the period of its mapped circuit, its numbers of tables and registers, and the number of drops of its
/// certificate, which is accepted.
pub fn large_line(alloc: Global, number: u32, large: Large) -> Result<String, AllocError>
    ensures { IfOk result (λ line. string_bytes line ≡ large_line number large.period large.tables large.registers large.drops) }
{
    let Large {
        period,
        tables,
        registers,
        drops,
    } = large;
    format!(in alloc;
        "large {number} period {period} tables {tables} registers {registers} drops {drops} accepted"
    )
}

/// Says the number of steps of a simulation.
pub fn steps_line(alloc: Global, steps: u32) -> Result<String, AllocError>
    ensures { IfOk result (λ line. string_bytes line ≡ steps_line steps) }
{
    format!(in alloc; "steps {steps}")
}

/// Says the period and the number of drops of a certificate that is accepted.
pub fn accepted_line(alloc: Global, period: u32, drops: u32) -> Result<String, AllocError>
    ensures { IfOk result (λ line. string_bytes line ≡ accepted_line period drops) }
{
    format!(in alloc; "accepted period {period} drops {drops}")
}

/// Says at which entry a certificate is not accepted, and why, by the name of the reason.
pub fn not_accepted_line(alloc: Global, entry: u32, why: &str) -> Result<String, AllocError>
    ensures { IfOk result (λ line. string_bytes line ≡ not_accepted_line entry why.now) }
{
    format!(in alloc; "not accepted: entry {entry}: {why}")
}
