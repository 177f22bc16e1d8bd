//! Cases worked by hand from the rules.
use crate::Kinds;

#[test]
fn has_kinds(rt: HostRuntime) {
    for (set, asked, want) in [
        (Kinds::WRITE, Kinds::WRITE, true),
        (Kinds::WRITE, Kinds::FLUSH, false),
        (Kinds(3), Kinds::FLUSH, true),
        (Kinds(3), Kinds(5), false),
        (Kinds(31), Kinds(29), true),
        (Kinds(0), Kinds(0), true),
        (Kinds(23), Kinds::NOTIFY, false),
        (Kinds(16), Kinds::CONFIGURE, true),
        (Kinds(4), Kinds::MISSING, true),
    ] {
        assert_eq!(rt; set.has(asked), want, "at {set:?} {asked:?}");
    }
}
