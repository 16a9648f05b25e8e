use engine::{BracketFault, check_brackets};

#[test]
fn each_fault(rt: HostRuntime) {
    assert_eq!(rt; check_brackets(b"a)(b"), Err(BracketFault::Unopened));
    assert_eq!(rt; check_brackets(b"((a)"), Err(BracketFault::Unclosed));
    assert_eq!(rt; check_brackets(b"[a"), Err(BracketFault::UnclosedClass));
    assert_eq!(rt; check_brackets(b"a\\"), Err(BracketFault::FinalBackslash));
    assert_eq!(rt; check_brackets(b"(a|[)(]|\\))"), Ok(()));
    assert_eq!(rt; check_brackets(b""), Ok(()));
}

#[test]
fn the_smaller_number_first(rt: HostRuntime) {
    assert_eq!(rt; check_brackets(b")["), Err(BracketFault::Unopened));
    assert_eq!(rt; check_brackets(b"(["), Err(BracketFault::Unclosed));
    assert_eq!(rt; check_brackets(b"(\\"), Err(BracketFault::Unclosed));
    assert_eq!(rt; check_brackets(b"[\\"), Err(BracketFault::UnclosedClass));
}

#[test]
fn no_comments(rt: HostRuntime) {
    assert_eq!(rt; check_brackets(b"(?#()"), Err(BracketFault::Unclosed));
    assert_eq!(rt; check_brackets(b"(?#))"), Err(BracketFault::Unopened));
}
