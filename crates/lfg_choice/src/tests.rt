use crate::{Choice, ChoiceKind, ChoiceSpace};
use std::test::Fail;

#[test]
fn choices_are_numbered_from_0(rt: HostRuntime) -> Result<(), Fail> {
    let mut space = ChoiceSpace::new(rt.alloc());
    assert_eq!(rt; space.len(), 0);
    let entry = space.push(Choice {
        kind: ChoiceKind::Entry,
        alternatives: 2,
    })?;
    let branch = space.push(Choice {
        kind: ChoiceKind::Branch,
        alternatives: 3,
    })?;
    assert_eq!(rt; (entry, branch, space.len()), (0, 1, 2));
    assert_eq!(rt; (space.arity(0), space.arity(1)), (2, 3));
    assert_eq!(rt;
        (space.kind(0), space.kind(1)),
        (ChoiceKind::Entry, ChoiceKind::Branch)
    );
    Ok(())
}
