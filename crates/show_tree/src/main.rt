//! Reads documents in the flow form of YAML from standard input, parted by lines `---`, and shows the tree of each.

#![tactic(auto)]

mod documents;
mod show;

use documents::{Document, Documents, line_of};
use flow::Arrays;
use show::show_nodes;
use std::io::Read;
use tree::Workspace;

/// Shows the tree of one document, or why there is none.
fn show_document(
    rt: &HostRuntime,
    document: Document<'_>,
    arrays: &mut Arrays,
    work: &mut Workspace,
) -> anyhow::Result<()> {
    if let Err(misread) = arrays.read(document.bytes()) {
        let place = document.from + misread.place;
        let line = line_of(document.input, place);
        let reason = misread.reason;
        println!(rt; "line {line}, byte {place}: {reason}")?;
        return Ok(());
    }
    match arrays.tree(work) {
        Ok(tree) => show_nodes(rt, tree),
        Err(refusal) => {
            println!(rt; "no tree: {refusal} ({refusal:?})")?;
            Ok(())
        }
    }
}

fn run(rt: &HostRuntime) -> anyhow::Result<()> {
    let mut bytes = Vec::new(rt.alloc());
    rt.stdin().read_to_end(&mut bytes)?;
    let mut arrays = Arrays::new(rt.alloc());
    let mut work = Workspace::new(rt.alloc())?;
    for document in Documents::of(bytes.as_slice()) {
        show_document(rt, document, &mut arrays, &mut work)?;
        println!(rt; "---")?;
    }
    Ok(())
}

fn main(rt: HostRuntime) -> anyhow::Result<()> {
    run(&rt)
}
