use crate::refuses::node;
use std::test::Fail;
use tree::{Kind, RawNode, Unanswered, Workspace};

#[test]
fn keys_of_other_kinds(rt: HostRuntime) -> Result<(), Fail> {
    let nodes = [
        node(Kind::Map, 5, 0),
        node(Kind::Boolean, 2, 1),
        node(Kind::Other, 3, 0),
        node(Kind::Boolean, 4, 1),
        node(Kind::Other, 5, 0),
    ];
    let mut work = Workspace::new(rt.alloc())?;
    tree::check(&nodes, b"", &mut work)?;
    Ok(())
}

#[test]
fn answers(rt: HostRuntime) -> Result<(), Fail> {
    let nodes = [
        node(Kind::Map, 5, 0),
        RawNode {
            kind: Kind::String.into(),
            end: 2,
            place: 1,
            length: 2,
            number: 0,
        },
        node(Kind::Boolean, 3, 1),
        node(Kind::Integer, 4, -3),
        node(Kind::List, 5, 0),
    ];
    let mut work = Workspace::new(rt.alloc())?;
    let tree = tree::check(&nodes, b"xkey", &mut work)?;
    assert_eq!(rt; tree.kind(0), Ok(Kind::Map));
    assert_eq!(rt; tree.kind(5), Err(Unanswered::NoSuchNode));
    assert_eq!(rt; tree.get(0, b"ke"), Ok(Some(2)));
    assert_eq!(rt; tree.get(0, b"key"), Ok(None));
    assert_eq!(rt; tree.get(4, b"ke"), Err(Unanswered::OtherKind));
    assert_eq!(rt; tree.boolean(2), Ok(true));
    assert_eq!(rt; tree.integer(3), Ok(-3));
    assert_eq!(rt; tree.integer(2), Err(Unanswered::OtherKind));
    assert_eq!(rt; tree.first_child(0), Ok(Some(1)));
    assert_eq!(rt; tree.first_child(4), Ok(None));
    assert_eq!(rt; tree.next_sibling(0, 3), Ok(Some(4)));
    assert_eq!(rt; tree.next_sibling(0, 4), Ok(None));
    Ok(())
}
