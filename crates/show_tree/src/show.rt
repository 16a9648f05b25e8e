ghost use Rattle.std.specs.Prelude.{◌<◌, ◌≤◌, ◌-◌, ℕ, IfOk, length, slice_index};
ghost use Rattle.show_tree.specs.Lines.{Deepened};

use tree::{Kind, Tree};

/// How many of the first ends lie behind this node.
fn around(ends: &[usize], node: usize) -> usize
    ensures range { result ≤ length ends.now }
    ensures ended { (k : ℕ) → result ≤ k → k < length ends.now → slice_index ends.now k ≤ node }
    ensures last { 0 < result → node < slice_index ends.now (result - 1) }
{
    ends.iter()
        .rposition(|end| *end > node)
        .map_or(0, |last| last + 1)
}

/// How many nodes lie around this one, which joins them for the nodes that follow.
fn depth_of(ends: &mut Vec<usize>, node: usize, end: usize) -> anyhow::Result<usize>
    ensures { IfOk result (λ depth. Deepened node end depth ends.old.items ends.new.items) }
{
    let depth = around(ends, node);
    ends.truncate(depth);
    ends.push(end)?;
    Ok(depth)
}

/// Shows what a node holds itself.
fn show_content(rt: &HostRuntime, tree: Tree<'_>, node: usize) -> anyhow::Result<()> {
    match tree.kind(node)? {
        Kind::Boolean => print!(rt; " {}", tree.boolean(node)?)?,
        Kind::Integer => print!(rt; " {}", tree.integer(node)?)?,
        Kind::String => print!(rt; " {:?}", std::str::from_utf8(tree.text(node)?)?)?,
        Kind::Other | Kind::List | Kind::Map => {}
    }
    Ok(())
}

/// Shows one node as a line.
fn show_node(rt: &HostRuntime, tree: Tree<'_>, node: usize, depth: usize) -> anyhow::Result<()> {
    for _ in 0..depth {
        print!(rt; "  ")?;
    }
    let kind = tree.kind(node)?;
    let end = tree.end(node)?;
    print!(rt; "{node} {kind} end {end}")?;
    show_content(rt, tree, node)?;
    println!(rt; "")?;
    Ok(())
}

/// Shows each node of a tree as a line, further to the right the deeper it lies.
pub(crate) fn show_nodes(rt: &HostRuntime, tree: Tree<'_>) -> anyhow::Result<()> {
    let mut ends = Vec::new(rt.alloc());
    // a tree is asked by the numbers of its nodes
    for node in 0..tree.len() {
        let depth = depth_of(&mut ends, node, tree.end(node)?)?;
        show_node(rt, tree, node, depth)?;
    }
    Ok(())
}
