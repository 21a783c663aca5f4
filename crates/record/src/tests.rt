// Kinds are numbers here, as document 01 has them, so that a wrong one behind a name shows.

use super::*;

// The chains that a record owns: curve points and measures of a plant, before-quarters and quarters of a measure.
#[test]
fn owned_by_kind(rt: HostRuntime) {
    for (kind, want) in [
        (0, &[] as &[(usize, u8)]),
        (1, &[(8, 2), (12, 3)]),
        (2, &[]),
        (3, &[(8, 4), (12, 5)]),
        (4, &[]),
        (5, &[]),
        (6, &[]),
    ] {
        let mut r = [0; 32];
        r[0] = kind;
        let owned = owned_of(&r);
        assert_eq!(rt; owned.len(), want.len(), "of kind {kind}");
        for i in 0..want.len() {
            assert_eq!(rt; (owned[i].0, owned[i].1), want[i], "of kind {kind}");
        }
    }
}
