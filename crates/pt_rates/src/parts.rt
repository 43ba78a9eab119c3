ghost use Rattle.std.specs.Prelude.{◌≡◌, ◌≢◌, ℕ, ◌+◌, ◌*◌, ◌<◌, ◌≤◌, ◌^◌, ◌++◌, ◌∷◌, [], All, IfOk, OnOk, length, List, replicate, sum};
ghost use Rattle.pt_rates.specs.Balance.{IsChannel};
ghost use Rattle.pt_rates.specs.Parts.{label_of, members_of, repetitions_of, AreHeld, AreMerged, AreMoved, AreSmall, ComesAfter, IsNodeMoved, IsSpanned};
ghost use Rattle.pt_rates.specs.declared.edge.Edge.{Edge};

use crate::edge::Edge;
use crate::ratio::lowest_terms;
use std::alloc::{AllocError, Global};
use std::marker::Model;
use std::mem;

/// The nodes of a part, which a contract sees as their list.
#[derive(Drop)]
pub(crate) struct Members {
    nodes: Vec<u32>,
}

impl Model for Members {
    ghost use Rattle.std.specs.Prelude.{List, ℕ};

    ghost Value = { List ℕ };

    ghost view = { λ members. members.nodes.items };
}

impl Members {
    fn new(alloc: Global) -> Members
        ensures { result ≡ [] }
    {
        Members {
            nodes: Vec::new(alloc),
        }
    }

    fn push(&mut self, node: u32) -> Result<(), AllocError>
        ensures { OnOk result (self.new ≡ self.old ++ node ∷ []) }
    {
        self.nodes.push(node)?;
        Ok(())
    }

    fn len(&self) -> usize
        ensures { result ≡ length self.now }
    {
        self.nodes.len()
    }

    fn as_slice(&self) -> &[u32]
        ensures { result.now ≡ self.now }
    {
        self.nodes.as_slice()
    }
}

/// The parts that some channels connect, and the least solution of those channels.
#[derive(Drop)]
pub(crate) struct Parts {
    pub(crate) repetitions: Vec<u64>,
    // The part of each node, and the nodes of each part. A part that is left empty keeps its number.
    labels: Vec<usize>,
    members: Vec<Members>,
    pub(crate) sum: u128,
}

impl Parts {
    /// Each node is a part of its own, and fires once.
    pub(crate) fn new(alloc: Global, n: u32) -> Result<Parts, AllocError>
        ensures held { IfOk result AreHeld }
        ensures counted { IfOk result (λ parts. length parts.labels.items ≡ n) }
        ensures sum { IfOk result (λ parts. parts.sum ≡ n) }
        ensures spanned { IfOk result (IsSpanned n []) }
    {
        let mut parts = Parts::with_room(alloc, n)?;
        for node in 0..n {
            parts.add_alone(alloc, node)?;
        }
        Ok(parts)
    }

    /// Room for so many nodes, none of which is in a part yet.
    fn with_room(alloc: Global, n: u32) -> Result<Parts, AllocError>
        ensures repetitions { IfOk result (λ parts. parts.repetitions.items ≡ replicate n 1) }
        ensures labels { IfOk result (λ parts. parts.labels.items ≡ []) }
        ensures members { IfOk result (λ parts. parts.members.items ≡ []) }
        ensures sum { IfOk result (λ parts. parts.sum ≡ n) }
    {
        Ok(Parts {
            repetitions: vec![in alloc; 1u64; n as usize]?,
            labels: Vec::with_capacity(alloc, n as usize)?,
            members: Vec::with_capacity(alloc, n as usize)?,
            sum: n as u128,
        })
    }

    /// Puts a node into a part of its own.
    fn add_alone(&mut self, alloc: Global, node: u32) -> Result<(), AllocError>
        ensures repetitions { OnOk result (self.new.repetitions ≡ self.old.repetitions) }
        ensures labels { OnOk result (self.new.labels.items ≡ self.old.labels.items ++ node ∷ []) }
        ensures members { OnOk result (self.new.members.items ≡ self.old.members.items ++ (node ∷ []) ∷ []) }
        ensures sum { OnOk result (self.new.sum ≡ self.old.sum) }
    {
        let mut alone = Members::new(alloc);
        alone.push(node)?;
        self.members.push(alone)?;
        self.labels.push(node as usize)?;
        Ok(())
    }

    /// Takes one more channel into account: whether some repetitions balance it too.
    pub(crate) fn connect(&mut self, alloc: Global, edge: &Edge) -> Result<bool, AllocError>
        requires held { AreHeld self.old }
        requires positive { All (λ firings. 0 < firings) self.old.repetitions.items }
        requires sum { self.old.sum ≤ 1000000 }
        requires channel { IsChannel (length self.old.labels.items) edge.now }
        ensures held { OnOk result (AreHeld self.new) }
        ensures counted { OnOk result (length self.new.labels.items ≡ length self.old.labels.items) }
        ensures after { IfOk result (ComesAfter edge.now self.old self.new) }
    {
        let put = self.tokens(edge.from, edge.produced);
        let taken = self.tokens(edge.to, edge.consumed);
        let first = self.label(edge.from);
        let second = self.label(edge.to);
        if first == second {
            return Ok(put == taken);
        }
        let (second_times, first_times) = lowest_terms(put, taken);
        self.merge(alloc, first, first_times, second, second_times)?;
        Ok(true)
    }

    /// The tokens that a node's firings in one iteration move at a rate.
    fn tokens(&self, node: u32, rate: u64) -> u64
        requires node { node < length self.now.repetitions.items }
        requires positive { All (λ firings. 0 < firings) self.now.repetitions.items }
        requires sum { sum self.now.repetitions.items ≤ 1000000 }
        requires rate { (0 < rate) × (rate ≤ 1000000) }
        ensures value { result ≡ repetitions_of self.now node * rate }
        ensures range { (0 < result) × (result ≤ 1000000000000) }
    {
        self.repetitions[node as usize] * rate
    }

    /// The part of a node.
    fn label(&self, node: u32) -> usize
        requires held { AreHeld self.now }
        requires node { node < length self.now.labels.items }
        ensures value { result ≡ label_of self.now node }
        ensures listed { result < length self.now.members.items }
    {
        self.labels[node as usize]
    }

    /// Makes two parts one, with each part's repetitions multiplied by its number.
    fn merge(
        &mut self,
        alloc: Global,
        first: usize,
        first_times: u64,
        second: usize,
        second_times: u64,
    ) -> Result<(), AllocError>
        requires held { AreHeld self.old }
        requires sum { self.old.sum ≤ 1000000 }
        requires apart { first ≢ second }
        requires first { first < length self.old.members.items }
        requires second { second < length self.old.members.items }
        requires first_times { (0 < first_times) × (first_times ≤ 1000000000000) }
        requires second_times { (0 < second_times) × (second_times ≤ 1000000000000) }
        ensures held { OnOk result (AreHeld self.new) }
        ensures counted { OnOk result (length self.new.labels.items ≡ length self.old.labels.items) }
        ensures merged { OnOk result (AreMerged first first_times second second_times self.old self.new) }
    {
        if self.members[first].len() < self.members[second].len() {
            self.absorb(alloc, second, second_times, first, first_times)
        } else {
            self.absorb(alloc, first, first_times, second, second_times)
        }
    }

    /// Makes two parts one. The nodes of the larger stay where they are, unless their repetitions change.
    fn absorb(
        &mut self,
        alloc: Global,
        larger: usize,
        larger_times: u64,
        smaller: usize,
        smaller_times: u64,
    ) -> Result<(), AllocError>
        requires held { AreHeld self.old }
        requires sum { self.old.sum ≤ 1000000 }
        requires apart { larger ≢ smaller }
        requires larger { larger < length self.old.members.items }
        requires smaller { smaller < length self.old.members.items }
        requires larger_times { (0 < larger_times) × (larger_times ≤ 1000000000000) }
        requires smaller_times { (0 < smaller_times) × (smaller_times ≤ 1000000000000) }
        ensures held { OnOk result (AreHeld self.new) }
        ensures counted { OnOk result (length self.new.labels.items ≡ length self.old.labels.items) }
        ensures merged { OnOk result (AreMerged larger larger_times smaller smaller_times self.old self.new) }
    {
        if larger_times == 1 {
            return self.relabel(alloc, smaller, larger, smaller_times);
        }
        let label = self.members.len();
        self.members.push(Members::new(alloc))?;
        self.relabel(alloc, larger, label, larger_times)?;
        self.relabel(alloc, smaller, label, smaller_times)
    }

    /// Puts the nodes of one part into another, and multiplies their repetitions.
    fn relabel(
        &mut self,
        alloc: Global,
        from: usize,
        to: usize,
        times: u64,
    ) -> Result<(), AllocError>
        requires held { AreHeld self.old }
        requires sum { self.old.sum ≤ 2 ^ 125 }
        requires apart { from ≢ to }
        requires from { from < length self.old.members.items }
        requires to { to < length self.old.members.items }
        requires times { (0 < times) × (times ≤ 1000000000000) }
        requires small { AreSmall from self.old }
        ensures held { OnOk result (AreHeld self.new) }
        ensures counted { OnOk result (length self.new.labels.items ≡ length self.old.labels.items) }
        ensures parts { OnOk result (length self.new.members.items ≡ length self.old.members.items) }
        ensures sum { OnOk result (self.new.sum ≤ self.old.sum + 2 ^ 124) }
        ensures moved { OnOk result (AreMoved from to times self.old self.new) }
    {
        let nodes = mem::replace(&mut self.members[from], Members::new(alloc));
        for node in nodes.as_slice() {
            self.move_node(*node, from, to, times)?;
        }
        Ok(())
    }

    /// Puts a node of one part into another, and multiplies its repetitions.
    fn move_node(&mut self, node: u32, from: usize, to: usize, times: u64) -> Result<(), AllocError>
        requires counted { length self.old.repetitions.items ≡ length self.old.labels.items }
        requires to { to < length self.old.members.items }
        requires times { (0 < times) × (times ≤ 1000000000000) }
        requires small { AreSmall from self.old }
        requires summed { sum self.old.repetitions.items ≤ self.old.sum }
        requires sum { self.old.sum ≤ 2 ^ 126 }
        ensures { OnOk result (IsNodeMoved node from to times self.old self.new) }
    {
        let at = node as usize;
        if at >= self.labels.len() || self.labels[at] != from {
            return Ok(());
        }
        self.members[to].push(node)?;
        let before = self.repetitions[at];
        let after = times * before;
        self.sum = self.sum - before as u128 + after as u128;
        self.repetitions[at] = after;
        self.labels[at] = to;
        Ok(())
    }
}
