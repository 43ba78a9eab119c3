ghost use Rattle.std.specs.Prelude.{◌≡◌, ◌+◌, ◌<◌, ◌≤◌, [], ◌∷◌, length, drop, true, false};
ghost use Rattle.pt_meaning.specs.Tag as tags;
ghost use Rattle.pt_wakes.specs.Nodes.{node as node_at, settled, IsTree, IsTreeBut};
ghost use Rattle.pt_wakes.specs.Walk.{remaining, behind};

use crate::tags::Wake;
use pt_time::Tag;

/// Gives node `p` the lesser wake of the two below it. Tells whether that is another one.
fn settle(nodes: &mut Vec<Wake>, p: usize) -> bool
    requires above { 0 < p }
    requires within { p + p + 1 < length nodes.old.items }
    ensures settled { nodes.new.items ≡ settled nodes.old.items p }
    ensures same { result ≡ false → nodes.new.items ≡ nodes.old.items }
{
    let least = nodes[p + p].earlier(nodes[p + p + 1]);
    if least.is_same(nodes[p]) {
        return false;
    }
    nodes[p] = least;
    true
}

/// Gives each node above the leaves the lesser wake of the two below it.
pub(crate) fn settle_all(nodes: &mut Vec<Wake>, leaves: usize)
    requires { length nodes.old.items ≡ leaves + leaves }
    ensures tree { IsTree leaves nodes.new.items }
    ensures leaves { drop leaves nodes.new.items ≡ drop leaves nodes.old.items }
{
    let mut p = leaves;
    while p > 1 {
        p -= 1;
        settle(nodes, p);
    }
}

/// Gives each node on the way from a leaf up the lesser wake of the two below it. Above one that keeps its wake nothing changes.
pub(crate) fn settle_above(nodes: &mut Vec<Wake>, leaves: usize, leaf: usize)
    requires first { leaves ≤ leaf }
    requires there { leaf < leaves + leaves }
    requires tree { IsTreeBut leaf leaves nodes.old.items }
    ensures tree { IsTree leaves nodes.new.items }
    ensures leaves { drop leaves nodes.new.items ≡ drop leaves nodes.old.items }
{
    let mut p = leaf;
    let mut least = nodes[leaf];
    while p > 1 {
        let above = p / 2;
        let beside = nodes[4 * above + 1 - p];
        least = least.earlier(beside);
        let before = nodes[above];
        if least.is_same(before) {
            return;
        }
        nodes[above] = least;
        p = above;
    }
}

/// The first leaf that is due below a node that is, or the node where it is a leaf.
pub(crate) fn due_leaf(nodes: &[Wake], leaves: usize, node: usize, tag: Tag) -> usize
    requires tree { IsTree leaves nodes.now }
    requires some { 0 < node }
    requires within { node < leaves + leaves }
    requires due { tags.is_due tag (node_at nodes.now node) ≡ true }
    ensures leaf { leaves ≤ result }
    ensures there { result < leaves + leaves }
    ensures due { tags.is_due tag (node_at nodes.now result) ≡ true }
    ensures first { remaining tag leaves nodes.now node ≡ result ∷ behind tag leaves nodes.now result }
{
    let mut p = node;
    while p < leaves {
        // Without a branch, since which way is unforeseen.
        p = p + p + usize::from(!nodes[p + p].is_due(tag));
    }
    p
}

/// The next node that is due, behind a leaf and all before it: 0 where there is none.
pub(crate) fn next_due(nodes: &[Wake], leaves: usize, leaf: usize, tag: Tag) -> usize
    requires len { length nodes.now ≡ leaves + leaves }
    requires within { leaf < leaves + leaves }
    ensures there { result < leaves + leaves }
    ensures due { 0 < result → tags.is_due tag (node_at nodes.now result) ≡ true }
    ensures next { remaining tag leaves nodes.now result ≡ behind tag leaves nodes.now leaf }
{
    let mut p = leaf;
    while p > 1 {
        let above = p / 2;
        let right = above + above + 1;
        if (p < right) & nodes[right].is_due(tag) {
            return right;
        }
        p = above;
    }
    0
}
