use std::process::Abort;
use std::test::Fail;
use tree::{Fault, Kind, RawNode, Refusal, Workspace};

// A kind is any number here, since a reader may hand in one that names none.
pub(crate) fn node(kind: impl Into<u32>, end: u32, number: i64) -> RawNode {
    RawNode {
        kind: kind.into(),
        end,
        place: 0,
        length: 0,
        number,
    }
}

fn text(end: u32, place: u32, length: u32) -> RawNode {
    RawNode {
        kind: Kind::String.into(),
        end,
        place,
        length,
        number: 0,
    }
}

fn refused<'a>(
    rt: &(impl Abort + AllocGlobal),
    nodes: &'a [RawNode],
    bytes: &'a [u8],
    refusal: Refusal,
) -> Result<(), Fail> {
    let mut work = Workspace::new(rt.alloc())?;
    assert_eq!(rt; tree::check(nodes, bytes, &mut work).err(), Some(refusal));
    Ok(())
}

/// The first node whose own numbers are wrong, and what is wrong with it.
fn faulty<'a>(
    rt: &(impl Abort + AllocGlobal),
    nodes: &'a [RawNode],
    bytes: &'a [u8],
    node: usize,
    fault: Fault,
) -> Result<(), Fail> {
    refused(rt, nodes, bytes, Refusal::Node { node, fault })
}

#[test]
fn sizes(rt: HostRuntime) -> Result<(), Fail> {
    refused(&rt, &[], b"", Refusal::NodeCount)?;
    let many = vec![in rt.alloc(); node(Kind::Other, 1, 0); 65_537]?;
    refused(&rt, many.as_slice(), b"", Refusal::NodeCount)?;
    let long = vec![in rt.alloc(); 97u8; 1_048_577]?;
    refused(
        &rt,
        &[node(Kind::Other, 1, 0)],
        long.as_slice(),
        Refusal::TextLength,
    )?;
    refused(
        &rt,
        &[node(Kind::List, 3, 0), node(Kind::Other, 2, 0)],
        b"",
        Refusal::Root,
    )?;
    refused(
        &rt,
        &[node(Kind::List, 1, 0), node(Kind::Other, 2, 0)],
        b"",
        Refusal::Root,
    )
}

#[test]
fn own_numbers(rt: HostRuntime) -> Result<(), Fail> {
    faulty(&rt, &[node(6u32, 1, 0)], b"", 0, Fault::UnknownKind)?;
    faulty(
        &rt,
        &[node(4_294_967_295u32, 1, 0)],
        b"",
        0,
        Fault::UnknownKind,
    )?;
    faulty(&rt, &[node(Kind::Boolean, 1, 2)], b"", 0, Fault::BadBoolean)?;
    faulty(
        &rt,
        &[node(Kind::Boolean, 1, -1)],
        b"",
        0,
        Fault::BadBoolean,
    )?;
    faulty(
        &rt,
        &[node(Kind::List, 2, 0), node(Kind::Other, 1, 0)],
        b"",
        1,
        Fault::BadEnd,
    )?;
    faulty(
        &rt,
        &[node(Kind::List, 2, 0), node(Kind::Other, 3, 0)],
        b"",
        1,
        Fault::BadEnd,
    )?;
    faulty(
        &rt,
        &[node(Kind::Integer, 2, 0), node(Kind::Other, 2, 0)],
        b"",
        0,
        Fault::LeafHolds,
    )?;
    faulty(
        &rt,
        &[text(2, 0, 0), node(Kind::Other, 2, 0)],
        b"",
        0,
        Fault::LeafHolds,
    )
}

#[test]
fn strings(rt: HostRuntime) -> Result<(), Fail> {
    faulty(&rt, &[text(1, 0, 3)], b"ab", 0, Fault::OutsideText)?;
    faulty(&rt, &[text(1, 3, 0)], b"ab", 0, Fault::OutsideText)?;
    faulty(
        &rt,
        &[text(1, 4_294_967_295, 4_294_967_295)],
        b"ab",
        0,
        Fault::OutsideText,
    )?;
    faulty(&rt, &[text(1, 0, 1)], b"\xC3\xA9", 0, Fault::NotUtf8)?;
    faulty(&rt, &[text(1, 1, 1)], b"\xC3\xA9", 0, Fault::NotUtf8)
}

#[test]
fn children(rt: HostRuntime) -> Result<(), Fail> {
    let overrun = [
        node(Kind::List, 4, 0),
        node(Kind::List, 3, 0),
        node(Kind::List, 4, 0),
        node(Kind::Other, 4, 0),
    ];
    refused(&rt, &overrun, b"", Refusal::Overrun { node: 1 })?;
    refused(
        &rt,
        &[node(Kind::Map, 2, 0), node(Kind::Integer, 2, 1)],
        b"",
        Refusal::Unpaired { node: 0 },
    )?;
    let odd = [
        node(Kind::Map, 4, 0),
        node(Kind::Integer, 2, 1),
        node(Kind::Other, 3, 0),
        node(Kind::Integer, 4, 2),
    ];
    refused(&rt, &odd, b"", Refusal::Unpaired { node: 0 })
}

#[test]
fn keys(rt: HostRuntime) -> Result<(), Fail> {
    let integers = [
        node(Kind::Map, 5, 0),
        node(Kind::Integer, 2, 7),
        node(Kind::Other, 3, 0),
        node(Kind::Integer, 4, 7),
        node(Kind::Other, 5, 0),
    ];
    refused(&rt, &integers, b"", Refusal::EqualKeys { node: 0 })?;
    let texts = [
        node(Kind::List, 6, 0),
        node(Kind::Map, 6, 0),
        text(3, 0, 2),
        node(Kind::Other, 4, 0),
        text(5, 2, 2),
        node(Kind::Other, 6, 0),
    ];
    refused(&rt, &texts, b"abab", Refusal::EqualKeys { node: 1 })
}

fn chain(rt: &HostRuntime, deep: u32) -> Result<Vec<RawNode>, Fail> {
    let nodes = vec![in rt.alloc(); node(Kind::List, deep, 0); deep as usize]?;
    Ok(nodes)
}

#[test]
fn nesting(rt: HostRuntime) -> Result<(), Fail> {
    let nodes = chain(&rt, 65)?;
    refused(&rt, nodes.as_slice(), b"", Refusal::TooDeep)?;
    let nodes = chain(&rt, 64)?;
    let mut work = Workspace::new(rt.alloc())?;
    let tree = tree::check(nodes.as_slice(), b"", &mut work)?;
    assert_eq!(rt; tree.len(), 64);
    Ok(())
}
