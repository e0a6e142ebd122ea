// The sample of the least number, byte for byte.

use std::test::Fail;
use tm_make::sample;

const SAMPLE_OF_8: &str = "\
.model sample
.inputs i0 i1 i2 i3 i4 i5 i6 i7
.outputs g0 g1 g2 g3 g4 g5 g6 g7
.latch g3 l0 0
.latch g7 l1 1
.names i4 i4 g0
10 1
01 1
.names i0 i5 g1
11 1
.names i6 i3 g2
10 1
01 1
.names i7 l1 g3
1- 1
-1 1
.names i7 i3 g4
10 1
01 1
.names i0 g0 g5
1- 1
-1 1
.names i3 i2 g6
11 1
.names i0 i3 g7
11 1
.end
";

#[test]
fn sample_of_8(rt: HostRuntime) -> Result<(), Fail> {
    let text = sample(rt.alloc(), 8)?;
    assert_eq!(rt; text.as_slice(), SAMPLE_OF_8.as_bytes());
    Ok(())
}
