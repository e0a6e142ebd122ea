// The pieces of a gate: its rows as literals, reduced by rounds of pairing.

ghost use Rattle.std.specs.Prelude.{◌≡◌, ◌++◌, ◌==◌, length, map, IfOk};
ghost use Rattle.std.specs.List.{list_any};
ghost use Rattle.tm_bits.specs.Rows.{HasWidth, IsEven};
ghost use Rattle.tm_split.specs.declared.piece.Piece.TheVariants.{Alone as AloneOf};
ghost use Rattle.tm_split.specs.Pieces.{literal_at as literal_of_place, literals_of, joined, left_after, reduction, reduced as reduced_by, reduced_rows, pieces_of};
ghost use Rattle.tm_split.specs.Counts.{literal_count as literals_asked};
ghost use Rattle.tm_split.specs.Making.{piece_by};

use crate::count::literal_count;
use crate::piece::{Literal, Piece, Wire};
use std::alloc::Global;
use tm_bits::{Cover, NoMemory, Place, Row};
use tm_circuit::Signal;

/// How two literals are joined to a new gate.
#[derive(Clone, Copy, Debug)]
pub enum Join {
    Both,
    Either,
}

impl Join {
    /// The new gate of two literals.
    fn of(self, first: Literal, second: Literal) -> Piece
        ensures { result ≡ piece_by self first second }
    {
        match self {
            Join::Both => Piece::Both(first, second),
            Join::Either => Piece::Either(first, second),
        }
    }
}

/// The literal of a pin at a place, where the place asks for a bit.
fn literal_at(pin: Signal, place: Place) -> Option<Literal>
    ensures { result ≡ literal_of_place pin place }
{
    let positive = match place {
        Place::Zero => false,
        Place::One => true,
        Place::Any => return None,
    };
    Some(Literal {
        wire: Wire::Pin(pin),
        positive,
    })
}

/// The literals of a row, in the order of its places.
fn literals(alloc: Global, pins: &[Signal], row: &Row) -> Result<Vec<Literal>, NoMemory>
    ensures { IfOk result (λ literals. literals.items ≡ literals_of pins.now row.now) }
{
    let literals = pins
        .iter()
        .zip(row.places())
        .filter_map(|(pin, place)| literal_at(*pin, *place))
        .collect(alloc)?;
    Ok(literals)
}

/// One round: the literals that are left after the first and the second are joined, the third and the fourth, and so on.
fn round(
    alloc: Global,
    join: Join,
    literals: &[Literal],
    pieces: &mut Vec<Piece>,
) -> Result<Vec<Literal>, NoMemory>
    ensures pieces { IfOk result (λ _. pieces.new.items ≡ pieces.old.items ++ joined (piece_by join) literals.now) }
    ensures left { IfOk result (λ left. left.items ≡ left_after (length pieces.old.items) literals.now) }
{
    let mut left = Vec::new(alloc);
    let mut rest = literals;
    while let [first, second, others @ ..] = rest {
        left.push(Literal {
            wire: Wire::Made(pieces.len()),
            positive: true,
        })?;
        pieces.push(join.of(*first, *second))?;
        rest = others;
    }
    left.extend_from_slice(rest)?;
    Ok(left)
}

/// Rounds until at most one literal is left.
fn reduce(
    alloc: Global,
    join: Join,
    literals: Vec<Literal>,
    pieces: &mut Vec<Piece>,
) -> Result<Vec<Literal>, NoMemory>
    ensures { IfOk result (λ left. reduction pieces.new.items left.items
        ≡ reduced_by (piece_by join) (reduction pieces.old.items literals.items)) }
{
    let mut left = literals;
    while left.len() > 1 {
        left = round(alloc, join, &left, pieces)?;
    }
    Ok(left)
}

/// The literals that are left when each row, in order, is reduced to one.
fn reduce_rows(
    alloc: Global,
    pins: &[Signal],
    rows: &[Row],
    pieces: &mut Vec<Piece>,
) -> Result<Vec<Literal>, NoMemory>
    ensures { IfOk result (λ left. reduction pieces.new.items left.items
        ≡ reduced_rows pieces.old.items (map (literals_of pins.now) rows.now)) }
{
    let mut left = Vec::new(alloc);
    for row in rows {
        let literals = literals(alloc, pins, row)?;
        let one = reduce(alloc, Join::Both, literals, pieces)?;
        left.extend_from_slice(&one)?;
    }
    Ok(left)
}

/// Whether some row asks for nothing.
fn has_bare_row(rows: &[Row]) -> bool
    ensures { result ≡ list_any (λ row. literals_asked row == 0) rows.now }
{
    rows.iter().any(|row| literal_count(row) == 0)
}

/// A gate of each literal that is left, where none was joined.
fn alone(alloc: Global, left: &[Literal]) -> Result<Vec<Piece>, NoMemory>
    ensures { IfOk result (λ pieces. pieces.items ≡ map AloneOf left.now) }
{
    Ok(left.iter().map(|one| Piece::Alone(*one)).collect(alloc)?)
}

/// What a gate is split into, in the order made, where each of its rows is as long as its pins are many. The last stands for the
/// gate itself.
pub fn pieces(alloc: Global, pins: &[Signal], cover: &Cover) -> Result<Vec<Piece>, NoMemory>
    requires { HasWidth cover.now (length pins.now) }
    ensures pieces { IfOk result (λ pieces. pieces.items ≡ pieces_of pins.now cover.now) }
    ensures even { IsEven cover.now }
{
    if cover.rows().is_empty() {
        return Ok(vec![in alloc; Piece::NoRow]?);
    }
    if has_bare_row(cover.rows()) {
        return Ok(vec![in alloc; Piece::BareRow]?);
    }
    let mut pieces = Vec::new(alloc);
    let left = reduce_rows(alloc, pins, cover.rows(), &mut pieces)?;
    let left = reduce(alloc, Join::Either, left, &mut pieces)?;
    if pieces.is_empty() {
        let pieces = alone(alloc, &left)?;
        return Ok(pieces);
    }
    Ok(pieces)
}
