//! The descriptions that come with the program.

use shipped::Shipped;
use std::test::Fail;

#[test]
fn each_name_has_its_text(rt: HostRuntime) -> Result<(), Fail> {
    let pdp11 = Shipped::named("pdp11").ok_or("pdp11 isn't known")?;
    assert_eq!(rt; pdp11.text().len(), 2951);
    assert!(rt; pdp11.text().starts_with(b"vpo 1\nname pdp11\nword 16\n"));
    let mips = Shipped::named("mips").ok_or("mips isn't known")?;
    assert_eq!(rt; mips.text().len(), 2615);
    assert!(rt; mips.text().ends_with(b"row sys exit | HALT = r[2]\n"));
    for word in ["", "mip", "mips ", "Mips", "pdp-11"] {
        assert_eq!(rt; Shipped::named(word), None);
    }
    Ok(())
}
