// A search for one more walk, and the way to its end. Each node has two sides: walks come to the near
// side and leave from the far side. The search meets sides, from the far side of the root on, and keeps
// a number and marks for each node that it has met. Of the way that it came it keeps only the one that
// it stands on. The nodes keep their numbers from one search of a root to the next.
// What is done for each read is `inline(always)`, since a call passes a side and a result through memory.

ghost use Rattle.std.specs.Prelude.{◌≡◌, ◌⊎◌, ℕ, ◌<◌, ◌≤◌, ◌++◌, ◌∷◌, IsTrue, true, false, List, [], length, map, option_to_list, IfSome, IfNone, IfOk, OnOk};
ghost use Rattle.tm_flow.specs.Flows.{Leads, AreWalks, InFlow, all_edges_to};
ghost use Rattle.tm_flow.specs.declared.flow.Edge.{Edge};
ghost use Rattle.tm_flow.specs.Lists.{Each, At, lists_in};
ghost use Rattle.tm_flow.specs.Nets.{Shape};
ghost use Rattle.tm_flow.specs.Searches.{near, far, mark_of, with_mark, no_marks, unmet, with_use, IsRead, IsAlong, IsBack, IsStep, Follows, IsGoal, IsMarked, IsUsed, IsKnown, IsNumbered, AreFirstReads, Names, Meets, Grows, GrowsTo, IsOutcome, is_far_met};

use crate::flow::{Edge, edges_into};
use crate::net::LazyNet;
use indexmap::IndexSet;
use std::alloc::Global;
use std::hash::Hash;
use tm_bits::NoMemory;

/// A side of a node.
#[derive(Clone, Copy)]
pub struct Side<T> {
    pub node: T,
    pub is_far: bool,
}

impl<T> Side<T> {
    pub fn near(node: T) -> Self
        ensures { result ≡ record { node = node; is_far = false } }
    {
        Side {
            node,
            is_far: false,
        }
    }

    pub fn far(node: T) -> Self
        ensures { result ≡ record { node = node; is_far = true } }
    {
        Side { node, is_far: true }
    }
}

/// How a search comes from one side to another.
#[derive(Clone, Copy)]
pub enum Step {
    /// From the far side of a node to the near side of what it reads at the index.
    Read(u32),
    /// From the near side of a node to its far side.
    Cross,
    /// From the far side of a node to its near side.
    Return,
    /// From the near side of a node back over an edge of the flow, which has the index, to the far
    /// side of the node that it comes from.
    Back(u32),
}

/// A side that a way comes to, the step to it, and the number of its node.
#[derive(Clone, Copy)]
pub struct Taken<T> {
    pub side: Side<T>,
    pub step: Step,
    pub number: usize,
}

/// A side that was met and whose steps are still to be taken: the step to it, the number of its node,
/// and how many sides of the way come before it.
#[derive(Clone, Copy)]
pub struct Waiting<T> {
    pub side: Side<T>,
    pub step: Step,
    pub number: usize,
    pub depth: usize,
}

/// Which sides of a node have been met, and whether walks of the flow may come to it: where `used` is
/// not set none does, so that only nodes of walks are looked for on the walks.
#[derive(Clone, Copy)]
pub struct Marks {
    pub near: bool,
    pub far: bool,
    pub used: bool,
}

impl Marks {
    fn none() -> Self
        ensures { result ≡ no_marks }
    {
        Marks {
            near: false,
            far: false,
            used: false,
        }
    }

    /// No side met, for the next search.
    fn unmet(self) -> Self
        ensures { result ≡ unmet self }
    {
        Marks {
            near: false,
            far: false,
            used: self.used,
        }
    }

    /// A walk comes to the node.
    pub fn with_use(self) -> Self
        ensures { result ≡ with_use self }
    {
        Marks {
            near: self.near,
            far: self.far,
            used: true,
        }
    }

    fn has(self, is_far: bool) -> bool
        ensures { result ≡ mark_of self is_far }
    {
        if is_far { self.far } else { self.near }
    }

    /// Writes the mark of one side alone: a whole value that is copied there would be read first.
    fn mark(&mut self, is_far: bool)
        ensures { self.new ≡ with_mark self.old is_far }
    {
        if is_far {
            self.far = true;
        } else {
            self.near = true;
        }
    }
}

/// The nodes that the searches of a root have met, each with its number and its marks.
#[derive(Drop)]
pub struct Met<T: Eq + Hash> {
    pub nodes: IndexSet<T>,
    pub marks: Vec<Marks>,
}

/// A search under way: what it has met, and what waits, the next one last.
#[derive(Drop)]
pub struct Search<T: Eq + Hash> {
    pub met: Met<T>,
    pub pending: Vec<Waiting<T>>,
}

/// The memory of searches: the search, the way that it stands on, and of the node in hand the edges of
/// the flow that come to it and what it reads.
#[derive(Drop)]
pub struct Memory<T: Eq + Hash> {
    pub search: Search<T>,
    pub way: Vec<Taken<T>>,
    pub edges: Vec<Edge<T>>,
    pub reads: Vec<T>,
}

impl<T: Eq + Hash> Memory<T> {
    pub fn new(alloc: Global) -> Self {
        Memory {
            search: Search {
                met: Met {
                    nodes: IndexSet::new(alloc),
                    marks: Vec::new(alloc),
                },
                pending: Vec::new(alloc),
            },
            way: Vec::new(alloc),
            edges: Vec::new(alloc),
            reads: Vec::new(alloc),
        }
    }
}

/// What a search found: its way comes to the far side of an end, or no end is among all that it could
/// meet.
#[derive(Clone, Copy)]
pub enum Searched {
    Walk,
    Nowhere,
}

/// Searches for one more walk from the root, depth first.
pub fn find_walk<N: LazyNet>(
    net: &N,
    walks: &[Vec<Edge<N::Node>>],
    memory: &mut Memory<N::Node>,
    root: N::Node,
) -> Result<Searched, NoMemory>
    requires walks { Each (Leads (N.shape net.now) root) (lists_in walks.now) }
    requires known { IsKnown (N.shape net.now) root (lists_in walks.now) memory.old.search.met.nodes.keys
        memory.old.search.met.marks.items }
    ensures outcome { IfOk result (IsOutcome (N.shape net.now)
        (λ v. all_edges_to N.Node.eq v (lists_in walks.now)) root
        memory.new.search.met.nodes.keys memory.new.search.met.marks.items memory.new.way.items) }
    ensures known { OnOk result (IsKnown (N.shape net.now) root (lists_in walks.now)
        memory.new.search.met.nodes.keys memory.new.search.met.marks.items) }
    ensures numbers { OnOk result (Each (λ t. At memory.new.search.met.nodes.keys t.number t.side.node)
        memory.new.way.items) }
{
    begin::<N>(memory, root)?;
    let mut hand = None;
    while let Some(next) = take_up(&mut memory.search.pending, hand) {
        memory.way.truncate(next.depth);
        memory.way.push(taken_up(next))?;
        if is_goal(net, next.side) {
            return Ok(Searched::Walk);
        }
        hand = meet_next(net, walks, memory, next.side, next.number)?;
    }
    Ok(Searched::Nowhere)
}

/// The side whose steps are taken next: the one in hand, or else the one that was met last of those that wait.
fn take_up<T: Copy>(pending: &mut Vec<Waiting<T>>, hand: Option<Waiting<T>>) -> Option<Waiting<T>>
    ensures next { IfSome result (λ next. pending.old.items ++ option_to_list hand
        ≡ pending.new.items ++ next ∷ []) }
    ensures over { IfNone result (pending.old.items ++ option_to_list hand ≡ []) }
{
    match hand {
        Some(next) => Some(next),
        None => pending.pop(),
    }
}

/// The side as the way keeps it. It is built of its fields: a `Side` that is copied whole takes the bytes
/// beside them along, through each value that it passes.
#[inline(always)]
fn taken_up<T>(next: Waiting<T>) -> Taken<T>
    ensures { result ≡ record { side = next.side; step = next.step; number = next.number } }
{
    Taken {
        side: Side {
            node: next.side.node,
            is_far: next.side.is_far,
        },
        step: next.step,
        number: next.number,
    }
}

/// A search that has met the far side of the root alone.
fn begin<N: LazyNet>(memory: &mut Memory<N::Node>, root: N::Node) -> Result<(), NoMemory>
    requires { IsNumbered memory.old.search.met.nodes.keys memory.old.search.met.marks.items }
    ensures meets { OnOk result (Meets (λ p t. (p ≡ far root) × (t ≡ Step.Cross)) 0
        memory.old.search.met.nodes.keys (map unmet memory.old.search.met.marks.items) []
        memory.new.search.met.nodes.keys memory.new.search.met.marks.items
        memory.new.search.pending.items) }
    ensures met { OnOk result (IsMarked memory.new.search.met.nodes.keys
        memory.new.search.met.marks.items (far root)) }
    ensures way { OnOk result (memory.new.way.items ≡ []) }
{
    unmark::<N>(&mut memory.search.met);
    memory.search.pending.clear();
    memory.way.clear();
    meet_at::<N>(&mut memory.search, Side::far(root), Step::Cross, 0)
}

/// No side has been met, and the nodes keep their numbers.
fn unmark<N: LazyNet>(met: &mut Met<N::Node>)
    ensures nodes { met.new.nodes.keys ≡ met.old.nodes.keys }
    ensures marks { met.new.marks.items ≡ map unmet met.old.marks.items }
{
    for marks in met.marks.iter_mut() {
        *marks = marks.unmet();
    }
}

/// Whether the side is the far side of an end.
fn is_goal<N: LazyNet>(net: &N, side: Side<N::Node>) -> bool
    ensures yes { IsTrue result → IsGoal (N.shape net.now) side }
    ensures no { result ≡ false → IsGoal (N.shape net.now) side → ⊥ }
{
    side.is_far && net.is_end(side.node)
}

pub fn is_far_met<N: LazyNet>(met: &Met<N::Node>, node: N::Node) -> bool
    requires { IsNumbered met.now.nodes.keys met.now.marks.items }
    ensures { result ≡ is_far_met N.Node.eq met.now.nodes.keys met.now.marks.items node }
{
    match met.nodes.get_index_of(&node) {
        Some(number) => met.marks[number].far,
        None => false,
    }
}

/// The number of the node, which is the next one where it has none yet.
#[inline(always)]
pub fn number_of<N: LazyNet>(met: &mut Met<N::Node>, node: N::Node) -> Result<usize, NoMemory>
    requires { IsNumbered met.old.nodes.keys met.old.marks.items }
    ensures { IfOk result (λ number. Names node number met.old.nodes.keys met.old.marks.items
        met.new.nodes.keys met.new.marks.items) }
{
    // Each edge that is taken up comes here: the `match` is faster than a `?`, which copies the number once more.
    match met.nodes.insert_full(node) {
        Ok((number, is_new)) => {
            if is_new {
                met.marks.push(Marks::none())?;
            }
            Ok(number)
        }
        Err(_no_memory) => Err(NoMemory),
    }
}

#[inline(always)]
fn meet_at<N: LazyNet>(
    search: &mut Search<N::Node>,
    side: Side<N::Node>,
    step: Step,
    depth: usize,
) -> Result<(), NoMemory>
    requires { IsNumbered search.old.met.nodes.keys search.old.met.marks.items }
    ensures meets { OnOk result (Grows (λ s t. (s ≡ side) × (t ≡ step)) depth search.old search.new) }
    ensures met { OnOk result (IsMarked search.new.met.nodes.keys search.new.met.marks.items side) }
{
    let number = number_of::<N>(&mut search.met, side.node)?;
    meet::<N>(
        search,
        Waiting {
            side,
            step,
            number,
            depth,
        },
    )
}

/// Meets the side, whose node has a number already.
#[inline(always)]
fn meet<N: LazyNet>(search: &mut Search<N::Node>, next: Waiting<N::Node>) -> Result<(), NoMemory>
    requires numbered { IsNumbered search.old.met.nodes.keys search.old.met.marks.items }
    requires number { At search.old.met.nodes.keys next.number next.side.node }
    ensures meets { OnOk result (Grows (λ s t. (s ≡ next.side) × (t ≡ next.step)) next.depth
        search.old search.new) }
    ensures met { OnOk result (IsMarked search.new.met.nodes.keys search.new.met.marks.items
        next.side) }
{
    if let Some(new) = meet_in_hand::<N>(search, next) {
        search.pending.push(new)?;
    }
    Ok(())
}

/// Meets the side, whose node has a number already, and answers it where it was not met before: it is in
/// hand then, and does not wait.
fn meet_in_hand<N: LazyNet>(
    search: &mut Search<N::Node>,
    next: Waiting<N::Node>,
) -> Option<Waiting<N::Node>>
    requires numbered { IsNumbered search.old.met.nodes.keys search.old.met.marks.items }
    requires number { At search.old.met.nodes.keys next.number next.side.node }
    ensures meets { GrowsTo (λ s t. (s ≡ next.side) × (t ≡ next.step)) next.depth
        search.old search.new result }
    ensures met { IsMarked search.new.met.nodes.keys search.new.met.marks.items next.side }
{
    let marks = search.met.marks[next.number];
    if marks.has(next.side.is_far) {
        return None;
    }
    search.met.marks[next.number].mark(next.side.is_far);
    Some(next)
}

/// Meets each side that one step leads to from this one, which is the last of the way. Where a node is
/// crossed its far side is in hand afterwards, since it is the one whose steps are taken next.
fn meet_next<N: LazyNet>(
    net: &N,
    walks: &[Vec<Edge<N::Node>>],
    memory: &mut Memory<N::Node>,
    side: Side<N::Node>,
    number: usize,
) -> Result<Option<Waiting<N::Node>>, NoMemory>
    requires walks { AreWalks (N.shape net.now) (lists_in walks.now) }
    requires numbered { IsNumbered memory.old.search.met.nodes.keys memory.old.search.met.marks.items }
    requires number { At memory.old.search.met.nodes.keys number side.node }
    requires used { (e : Edge N.Node) → InFlow (lists_in walks.now) e → IsUsed
        memory.old.search.met.nodes.keys memory.old.search.met.marks.items e.to }
    ensures meets { IfOk result (GrowsTo (λ s t. IsStep (N.shape net.now)
        (all_edges_to N.Node.eq side.node (lists_in walks.now)) side t s)
        (length memory.old.way.items) memory.old.search memory.new.search) }
    ensures follows { OnOk result (Follows (N.shape net.now)
        (all_edges_to N.Node.eq side.node (lists_in walks.now)) (IsMarked
        memory.new.search.met.nodes.keys memory.new.search.met.marks.items) side) }
    ensures way { OnOk result (memory.new.way.items ≡ memory.old.way.items) }
{
    let depth = memory.way.len();
    if side.is_far {
        meet_from_far(
            net,
            &mut memory.search,
            &mut memory.reads,
            side.node,
            number,
            depth,
        )?;
        return Ok(None);
    }
    let is_used = memory.search.met.marks[number].used;
    edges_into(net, walks, is_used, side.node, &mut memory.edges)?;
    meet_from_near(
        net,
        memory.edges.as_slice(),
        &mut memory.search,
        side.node,
        number,
        depth,
    )
}

/// What is met last is taken first: the reads, and then the way back.
fn meet_from_far<N: LazyNet>(
    net: &N,
    search: &mut Search<N::Node>,
    reads: &mut Vec<N::Node>,
    node: N::Node,
    number: usize,
    depth: usize,
) -> Result<(), NoMemory>
    requires numbered { IsNumbered search.old.met.nodes.keys search.old.met.marks.items }
    requires number { At search.old.met.nodes.keys number node }
    ensures meets { OnOk result ((edges : List (Edge N.Node)) → Grows (λ s t. IsStep
        (N.shape net.now) edges (far node) t s) depth search.old search.new) }
    ensures follows { OnOk result ((edges : List (Edge N.Node)) → Follows (N.shape net.now) edges
        (IsMarked search.new.met.nodes.keys search.new.met.marks.items) (far node)) }
{
    let back = Waiting {
        side: Side::near(node),
        step: Step::Return,
        number,
        depth,
    };
    meet::<N>(search, back)?;
    meet_reads(net, search, reads, node, depth)?;
    Ok(())
}

/// Of what is read the lowest is met last and so taken first: ends are low, and a walk to a near one is short.
fn meet_reads<N: LazyNet>(
    net: &N,
    search: &mut Search<N::Node>,
    reads: &mut Vec<N::Node>,
    node: N::Node,
    depth: usize,
) -> Result<(), NoMemory>
    requires { IsNumbered search.old.met.nodes.keys search.old.met.marks.items }
    ensures meets { OnOk result (Grows (λ s t. IsRead (N.shape net.now) node t s) depth
        search.old search.new) }
    ensures met { OnOk result ((i : ℕ) → i < (N.shape net.now).reads node
        → IsMarked search.new.met.nodes.keys search.new.met.marks.items
        (near ((N.shape net.now).read node i))) }
{
    let count = net.reads(node);
    take_reads(net, node, count, reads)?;
    let taken = reads.as_slice();
    let middle = up_to_lowest(net, taken, count);
    meet_range::<N>(search, taken, depth, middle, count)?;
    meet_range::<N>(search, taken, depth, 0, middle)?;
    Ok(())
}

/// Takes down what the node reads at the indices below the count: the net is asked once for each.
fn take_reads<N: LazyNet>(
    net: &N,
    node: N::Node,
    count: u32,
    reads: &mut Vec<N::Node>,
) -> Result<(), NoMemory>
    requires { count ≤ (N.shape net.now).reads node }
    ensures { OnOk result (AreFirstReads (N.shape net.now) node count reads.new.items) }
{
    reads.clear();
    for index in 0..count {
        reads.push(net.read(node, index))?;
    }
    Ok(())
}

/// How many of the reads there are up to the lowest of them, the one of the least rank.
fn up_to_lowest<N: LazyNet>(net: &N, reads: &[N::Node], count: u32) -> u32
    requires { count ≡ length reads.now }
    ensures { result ≤ count }
{
    if count < 2 {
        return count;
    }
    let mut up_to = 0;
    let mut lowest = 0;
    for index in 0..count {
        let rank = net.rank(reads[index as usize]);
        if up_to == 0 || rank < lowest {
            lowest = rank;
            up_to = index + 1;
        }
    }
    up_to
}

/// Meets these reads at the indices of a range.
#[inline(always)]
fn meet_range<N: LazyNet>(
    search: &mut Search<N::Node>,
    reads: &[N::Node],
    depth: usize,
    from: u32,
    to: u32,
) -> Result<(), NoMemory>
    requires numbered { IsNumbered search.old.met.nodes.keys search.old.met.marks.items }
    requires within { to ≤ length reads.now }
    ensures meets { OnOk result (Grows (λ s t. IsAlong reads.now t s) depth search.old search.new) }
    ensures met { OnOk result ((i : ℕ) (u : N.Node) → At reads.now i u → from ≤ i → i < to
        → IsMarked search.new.met.nodes.keys search.new.met.marks.items (near u)) }
{
    for index in from..to {
        let side = Side::near(reads[index as usize]);
        meet_at::<N>(search, side, Step::Read(index), depth)?;
    }
    Ok(())
}

/// A node that may be cut and is on a walk can't be crossed, only left backwards over that walk's edge.
fn meet_from_near<N: LazyNet>(
    net: &N,
    edges: &[Edge<N::Node>],
    search: &mut Search<N::Node>,
    node: N::Node,
    number: usize,
    depth: usize,
) -> Result<Option<Waiting<N::Node>>, NoMemory>
    requires numbered { IsNumbered search.old.met.nodes.keys search.old.met.marks.items }
    requires number { At search.old.met.nodes.keys number node }
    ensures meets { IfOk result (GrowsTo (λ s t. IsStep (N.shape net.now) edges.now (near node) t s)
        depth search.old search.new) }
    ensures follows { OnOk result (Follows (N.shape net.now) edges.now
        (IsMarked search.new.met.nodes.keys search.new.met.marks.items) (near node)) }
{
    meet_back::<N>(edges, search, depth)?;
    if can_cross(net, edges, node) {
        let across = Waiting {
            side: Side::far(node),
            step: Step::Cross,
            number,
            depth,
        };
        return Ok(meet_in_hand::<N>(search, across));
    }
    Ok(None)
}

fn can_cross<N: LazyNet>(net: &N, edges: &[Edge<N::Node>], node: N::Node) -> bool
    ensures yes { IsTrue result → ((N.shape net.now).may_cut node ≡ false) ⊎ (edges.now ≡ []) }
    ensures no { result ≡ false → ((N.shape net.now).may_cut node ≡ false) ⊎ (edges.now ≡ []) → ⊥ }
{
    edges.is_empty() || !net.may_cut(node)
}

fn meet_back<N: LazyNet>(
    edges: &[Edge<N::Node>],
    search: &mut Search<N::Node>,
    depth: usize,
) -> Result<(), NoMemory>
    requires { IsNumbered search.old.met.nodes.keys search.old.met.marks.items }
    ensures meets { OnOk result (Grows (λ s t. IsBack edges.now t s) depth search.old search.new) }
    ensures met { OnOk result (Each (λ e. IsMarked search.new.met.nodes.keys
        search.new.met.marks.items (far e.from)) edges.now) }
{
    for edge in edges {
        meet_at::<N>(search, Side::far(edge.from), Step::Back(edge.index), depth)?;
    }
    Ok(())
}
