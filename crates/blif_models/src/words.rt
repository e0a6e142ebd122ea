// Words of a line as names.

ghost use Rattle.std.specs.Prelude.{◌≡◌, ◌<◌, length, IfOk};
ghost use Rattle.blif_models.specs.Statement.{word_at};
ghost use Rattle.blif_models.specs.Words.{texts};

use std::alloc::Global;
use tm_bits::NoMemory;
use tm_circuit::Name;

/// The word with this number.
pub fn word<'a>(words: &[&'a [u8]], i: usize) -> &'a [u8]
    requires { i < length words.now }
    ensures { result.now ≡ word_at (texts words.now) i }
{
    words[i]
}

/// A word as a name.
pub fn name_of(alloc: Global, word: &[u8]) -> Result<Name, NoMemory>
    ensures { IfOk result (λ name. name ≡ word.now) }
{
    Ok(Name::new(Vec::from_slice(alloc, word)?))
}

/// Words as names, in order.
pub fn names_of(alloc: Global, words: &[&[u8]]) -> Result<Vec<Name>, NoMemory>
    ensures { IfOk result (λ names. names.items ≡ texts words.now) }
{
    let mut names = Vec::with_capacity(alloc, words.len())?;
    for word in words {
        names.push(name_of(alloc, word)?)?;
    }
    Ok(names)
}
