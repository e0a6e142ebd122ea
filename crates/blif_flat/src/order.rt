// An order of models in which placed ones come first, by one descent from models to those that they place.
// The trail of the descent is the circle where there is one.

ghost use Rattle.std.specs.Prelude.{◌≡◌, ◌<◌, ◌∷◌, map, length, reverse, replicate, All, IfOk, OnOk, MatchOption, MatchBool, vec_len, []};
ghost use Rattle.blif_flat.specs.Graph.{HasCircle, IsGraph, IsOrder};
ghost use Rattle.blif_flat.specs.Descent.{AreDone, IsFirstWaiting, Descends, IsAtRest, Opens, Finishes, Turns, Visits};

use std::alloc::Global;
use tm_bits::NoMemory;

/// How far a descent has come with a model.
#[derive(Clone, Copy, Debug, PartialEq, Eq)]
pub enum Mark {
    /// Not met yet.
    Fresh,
    /// On the trail.
    Open,
    /// In the order.
    Done,
}

/// A model on the trail, with the place of the placed model that is looked at next.
#[derive(Clone, Copy, Debug)]
pub struct Frame {
    pub model: usize,
    pub place: usize,
}

/// A descent from models to those that they place.
#[derive(Drop)]
pub struct Descent {
    marks: Vec<Mark>,
    order: Vec<usize>,
    trail: Vec<Frame>,
}

/// An order in which each model stands after those that it places, or `None` exactly where models place one another in a circle.
pub fn placed_first(alloc: Global, graph: &[Vec<usize>]) -> Result<Option<Vec<usize>>, NoMemory>
    requires { IsGraph (map (λ placed. placed.items) graph.now) }
    ensures { IfOk result
        (λ found. MatchOption found (HasCircle (map (λ placed. placed.items) graph.now))
        (λ order. IsOrder (map (λ placed. placed.items) graph.now) order.items)) }
{
    let mut descent = Descent::new(alloc, graph.len())?;
    for model in 0..graph.len() {
        if descent.visit(graph, model)? {
            return Ok(None);
        }
    }
    let Descent {
        marks: _,
        order,
        trail: _,
    } = descent;
    Ok(Some(order))
}

impl Descent {
    /// A descent that has met none of so many models.
    fn new(alloc: Global, models: usize) -> Result<Descent, NoMemory>
        ensures marks { IfOk result (λ d. d.marks.items ≡ replicate models Mark.Fresh) }
        ensures order { IfOk result (λ d. d.order.items ≡ []) }
        ensures trail { IfOk result (λ d. d.trail.items ≡ []) }
    {
        Ok(Descent {
            marks: vec![in alloc; Mark::Fresh; models]?,
            order: Vec::new(alloc),
            trail: Vec::new(alloc),
        })
    }

    /// Descends from a root, and tells whether a circle was met.
    fn visit(&mut self, graph: &[Vec<usize>], root: usize) -> Result<bool, NoMemory>
        requires graph { IsGraph (map (λ placed. placed.items) graph.now) }
        requires root { root < length graph.now }
        requires rest { IsAtRest (map (λ placed. placed.items) graph.now) self.old }
        ensures { IfOk result (λ circle. MatchBool circle (HasCircle (map (λ placed. placed.items) graph.now))
            (Visits (map (λ placed. placed.items) graph.now) self.old self.new root)) }
    {
        if let Mark::Fresh = self.marks[root] {
            self.open(root)?;
        }
        while let Some(Frame { model, place }) = self.trail.pop() {
            if self.turn(graph, model, place)? {
                return Ok(true);
            }
        }
        Ok(false)
    }

    /// One turn at the model that was the newest of the trail, from one of its places on: opens the next placed model that is not
    /// done, or else finishes the model. Tells whether that one is open already, and so a circle was met.
    fn turn(&mut self, graph: &[Vec<usize>], model: usize, from: usize) -> Result<bool, NoMemory>
        requires graph { IsGraph (map (λ placed. placed.items) graph.now) }
        requires descends { Descends
            (map (λ placed. placed.items) graph.now) self.old (record { model = model; place = from } ∷ reverse self.old.trail.items) }
        ensures { IfOk result (λ circle. MatchBool circle (HasCircle (map (λ placed. placed.items) graph.now))
            (Turns (map (λ placed. placed.items) graph.now) self.old self.new)) }
    {
        let placed = graph[model].as_slice();
        match waiting_place(placed, from, &self.marks) {
            None => {
                self.finish(model)?;
                Ok(false)
            }
            Some(place) => {
                let next = placed[place];
                if let Mark::Open = self.marks[next] {
                    return Ok(true);
                }
                self.trail.push(Frame { model, place })?;
                self.open(next)?;
                Ok(false)
            }
        }
    }

    /// Puts a model on the trail.
    fn open(&mut self, model: usize) -> Result<(), NoMemory>
        requires { model < vec_len self.old.marks }
        ensures { OnOk result (Opens self.old self.new model) }
    {
        self.trail.push(Frame { model, place: 0 })?;
        self.marks[model] = Mark::Open;
        Ok(())
    }

    /// Gives a model its place in the order.
    fn finish(&mut self, model: usize) -> Result<(), NoMemory>
        requires { model < vec_len self.old.marks }
        ensures { OnOk result (Finishes self.old self.new model) }
    {
        self.order.push(model)?;
        self.marks[model] = Mark::Done;
        Ok(())
    }
}

/// The first place from one on whose model is not done.
fn waiting_place(placed: &[usize], from: usize, marks: &[Mark]) -> Option<usize>
    requires { All (λ p. p < length marks.now) placed.now }
    ensures { MatchOption result (AreDone marks.now placed.now from (length placed.now)) (IsFirstWaiting marks.now placed.now from) }
{
    for place in from..placed.len() {
        if marks[placed[place]] != Mark::Done {
            return Some(place);
        }
    }
    None
}
