//! Words, and the values that they are by the rules.

use sg_values::{is_place, number_in};
use std::alloc::AllocError;
use std::test::Fail;

#[test]
fn a_number_is_decimal_and_in_its_range(rt: HostRuntime) -> Result<(), Fail> {
    let words = [
        ("0", Some(0)),
        ("1", Some(1)),
        ("1000000", Some(1_000_000)),
        ("1000001", None),
        ("", None),
        ("01", None),
        ("00", None),
        ("+1", None),
        ("-1", None),
        (" 1", None),
        ("1 ", None),
        ("1.0", None),
        ("1e3", None),
        ("0x1", None),
        ("one", None),
        ("18446744073709551616", None),
        ("18446744073709551617", None),
        ("١", None),
    ];
    for (word, number) in words {
        assert_eq!(rt;
            number_in(rt.alloc(), word, 0, 1_000_000)?,
            number,
            "{word}"
        );
    }
    Ok(())
}

#[test]
fn a_range_has_its_ends(rt: HostRuntime) -> Result<(), AllocError> {
    let most = 18_446_744_073_709_551_615;
    assert_eq!(rt; number_in(rt.alloc(), "65535", 65_536, most)?, None);
    assert_eq!(rt; number_in(rt.alloc(), "65536", 65_536, most)?, Some(65_536));
    assert_eq!(rt;
        number_in(rt.alloc(), "18446744073709551615", 65_536, most)?,
        Some(most)
    );
    assert_eq!(rt; number_in(rt.alloc(), "7", 8, 6)?, None);
    Ok(())
}

#[test]
fn a_place_has_1_to_255_bytes(rt: HostRuntime) -> Result<(), Fail> {
    assert!(rt; !is_place(""));
    assert!(rt; is_place("/"));
    assert!(rt; is_place("127.0.0.1:8080"));
    let mut word = String::new(rt.alloc());
    for _ in 0..255 {
        word.push('x')?;
    }
    assert!(rt; is_place(word.as_str()));
    word.push('x')?;
    assert!(rt; !is_place(word.as_str()));
    Ok(())
}
