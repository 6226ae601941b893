//! Tests of what no clause says: that there is a text with ample memory, and its worked row.
use crate::generated;
use std::test::Fail;

#[test]
fn one_statement(rt: HostRuntime) -> Result<(), Fail> {
    let alloc = rt.alloc();
    let text = generated(alloc, 5, 1)?;
    assert_eq!(rt;
        text.as_slice(),
        b"unsigned int v0=0u;\nunsigned int v1=1u;\nunsigned int v2=2u;\nunsigned int v3=3u;\nunsigned int v4=4u;\nunsigned int v5=5u;\nunsigned int v6=6u;\nunsigned int v7=7u;\nint main(void)\n{\nfor(int i=0;i<3;i++)v0=v0+v1;\nout(v0);\nout(v1);\nout(v2);\nout(v3);\nout(v4);\nout(v5);\nout(v6);\nout(v7);\nreturn 0;\n}\n".as_slice()
    );
    Ok(())
}
