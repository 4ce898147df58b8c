//! What the faults say of themselves.

use sg_store::{DigestDiffers, NoSpace, OpenFault, SwitchFault};
use std::test::Fail;

#[test]
fn an_opening_says_why_it_is_refused(rt: HostRuntime) -> Result<(), Fail> {
    let damaged = OpenFault::Damaged { place: 4, found: 9 };
    let text = format!(in rt.alloc(); "{damaged}")?;
    assert_eq!(rt; text.as_str(), "the store is damaged at 4: 9");
    let text = format!(in rt.alloc(); "{}", OpenFault::Unformatted)?;
    assert_eq!(rt; text.as_str(), "the disk has no store");
    Ok(())
}

#[test]
fn staging_and_a_switch_say_why_they_are_refused(rt: HostRuntime) -> Result<(), Fail> {
    let no_space = NoSpace {
        need: 2,
        largest: 1,
    };
    let text = format!(in rt.alloc(); "{no_space}")?;
    assert_eq!(rt;
        text.as_str(),
        "2 bytes are needed, and the longest gap has 1"
    );
    let text = format!(in rt.alloc(); "{}", DigestDiffers { found: [0; 16] })?;
    assert_eq!(rt;
        text.as_str(),
        "the bytes that came have another digest than the listed one"
    );
    let text = format!(in rt.alloc(); "{}", SwitchFault::Spent)?;
    assert_eq!(rt; text.as_str(), "the store has no switch number left");
    Ok(())
}
