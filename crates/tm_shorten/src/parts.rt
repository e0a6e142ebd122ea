// Lists of drops parted by marks, and put together again.

ghost use Rattle.std.specs.Prelude.{◌≡◌, length, IfOk};
ghost use Rattle.std.specs.Vec.Iter.{into_iter_items};
ghost use Rattle.tm_shorten.specs.Parts.{marked, unmarked, joined, TakesNext};

use std::alloc::Global;
use std::vec::IntoIter;
use tm_bits::NoMemory;
use tm_replay::Lowering;

/// The drops of a list that have a mark, and the others.
#[derive(Drop)]
pub(crate) struct Parts {
    pub kept: Vec<Lowering>,
    pub left: Vec<Lowering>,
}

/// Parts a list of drops by their marks.
pub(crate) fn part(alloc: Global, marks: &[bool], drops: Vec<Lowering>) -> Result<Parts, NoMemory>
    requires { length marks.now ≡ length drops.items }
    ensures kept { IfOk result (λ parts. parts.kept.items ≡ marked marks.now drops.items) }
    ensures left { IfOk result (λ parts. parts.left.items ≡ unmarked marks.now drops.items) }
{
    let mut kept = Vec::new(alloc);
    let mut left = Vec::new(alloc);
    for drop in drops {
        if marks[kept.len() + left.len()] {
            kept.push(drop)?;
        } else {
            left.push(drop)?;
        }
    }
    Ok(Parts { kept, left })
}

/// Puts drops together in the order that they had before they were parted by the marks.
pub(crate) fn join(
    alloc: Global,
    marks: &[bool],
    kept: Vec<Lowering>,
    left: Vec<Lowering>,
) -> Result<Vec<Lowering>, NoMemory>
    ensures { IfOk result (λ drops. drops.items ≡ joined marks.now kept.items left.items) }
{
    let mut whole = Vec::with_capacity(alloc, marks.len())?;
    let mut kept = kept.into_iter();
    let mut left = left.into_iter();
    for mark in marks {
        match next_of(*mark, &mut kept, &mut left) {
            Some(drop) => whole.push(drop)?,
            None => {}
        }
    }
    Ok(whole)
}

/// The next drop of those that were kept where there is a mark, and otherwise of the others.
fn next_of(
    mark: bool,
    kept: &mut IntoIter<Lowering>,
    left: &mut IntoIter<Lowering>,
) -> Option<Lowering>
    ensures { TakesNext mark result (into_iter_items kept.old) (into_iter_items left.old)
        (into_iter_items kept.new) (into_iter_items left.new) }
{
    if mark { kept.next() } else { left.next() }
}
