// What stands around the names of an instance: how those that are bound are read, and what the others end in.

ghost use Rattle.std.specs.Prelude.{◌≡◌, ◌++◌, map, IfOk, OnOk};
ghost use Rattle.blif_flat.specs.Around.{renamed, context_of};

use crate::site::Site;
use std::alloc::Global;
use tm_bits::NoMemory;
use tm_circuit::Name;
use tm_parts::name_of;

/// Where an instance stands: at the top, or at a site of the instance around, with its number there.
#[derive(Clone, Copy)]
pub enum Around<'a, 's, 'u> {
    Top,
    Inside(&'a Around<'a, 's, 'u>, &'s Site<'u>, usize),
}

/// Writes what the names of an instance end in.
fn push_suffix(
    alloc: Global,
    joiner: &[u8],
    around: &Around,
    out: &mut Vec<u8>,
) -> Result<(), NoMemory>
    ensures { OnOk result (out.new.items ≡ out.old.items ++ (context_of joiner.now around.now).suffix) }
{
    match around {
        Around::Top => Ok(()),
        Around::Inside(outer, _, number) => {
            push_suffix(alloc, joiner, outer, out)?;
            out.extend_from_slice(joiner)?;
            let digits = format!(in alloc; "{number}")?;
            out.extend_from_slice(digits.as_bytes())?;
            Ok(())
        }
    }
}

/// A name of an instance that is not bound.
fn own_name(alloc: Global, joiner: &[u8], around: &Around, name: &[u8]) -> Result<Name, NoMemory>
    ensures { IfOk result (λ made. made ≡ name.now ++ (context_of joiner.now around.now).suffix) }
{
    let mut bytes = Vec::from_slice(alloc, name)?;
    push_suffix(alloc, joiner, around, &mut bytes)?;
    Ok(Name::new(bytes))
}

/// What a name of an instance becomes.
pub fn name_in(alloc: Global, joiner: &[u8], around: &Around, name: &[u8]) -> Result<Name, NoMemory>
    ensures { IfOk result (λ made. made ≡ renamed (context_of joiner.now around.now) name.now) }
{
    match around {
        Around::Top => name_of(alloc, name),
        Around::Inside(outer, site, _) => match site.actual(name) {
            Some(actual) => name_in(alloc, joiner, outer, actual.bytes()),
            None => own_name(alloc, joiner, around, name),
        },
    }
}

/// What names of an instance become.
pub fn names_in(
    alloc: Global,
    joiner: &[u8],
    around: &Around,
    names: &[Name],
) -> Result<Vec<Name>, NoMemory>
    ensures { IfOk result (λ made. made.items ≡ map (renamed (context_of joiner.now around.now)) names.now) }
{
    let mut made = Vec::new(alloc);
    for name in names {
        made.push(name_in(alloc, joiner, around, name.bytes())?)?;
    }
    Ok(made)
}
