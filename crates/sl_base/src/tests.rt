use super::{Name, NoMemory};
use std::test::Fail;

#[test]
fn names(rt: HostRuntime) -> Result<(), Fail> {
    for (one, other) in [("", "a"), ("Pair", "pair"), ("λ", "é")] {
        let name = Name::from_text(rt.alloc(), one)?;
        let copy = name.copy(rt.alloc())?;
        assert_eq!(rt; copy.as_str(), one);
        assert!(rt; copy == name);
        assert!(rt; name != Name::from_text(rt.alloc(), other)?);
        let text = copy.into_string();
        assert_eq!(rt; text.as_str(), one);
        assert!(rt; Name::from_string(text) == name);
    }
    let text = format!(in rt.alloc(); "{NoMemory}")?;
    assert_eq!(rt; text.as_str(), "no memory was left");
    Ok(())
}
