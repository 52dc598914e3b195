use crate::Draws;
use std::test::Fail;

#[test]
fn draws_of_a_seed(rt: HostRuntime) -> Result<(), Fail> {
    let mut draws = Draws::of_seed(0);
    for wanted in [
        48_271,
        182_605_794,
        1_291_394_886,
        1_914_720_637,
        2_078_669_041,
        407_355_683,
        1_105_902_161,
    ] {
        assert_eq!(rt; draws.draw(), wanted);
    }
    for (seed, wanted) in [
        (1, 96_542),
        (2_147_483_646, 48_271),
        (4_294_967_293, 96_542),
    ] {
        assert_eq!(rt; Draws::of_seed(seed).draw(), wanted, "seed {seed}");
    }
    assert_eq!(rt; Draws::of_seed(1).next(), Some(96_542));
    Ok(())
}
