//! JSON values whose texts are lent.
use lent_json::{Lent, Scratch, reading, whole};
use std::test::Fail;

#[test]
fn of_one_name_the_last_member_counts(rt: HostRuntime) -> Result<(), Fail> {
    let alloc = rt.alloc();
    let mut scratch = Scratch::new(alloc);
    let line = b"{\"b\":1,\"a\":\"x\\u0041\",\"b\":2}".as_slice();
    let Some(Lent::Object(members)) = reading(alloc, line, &mut scratch)? else {
        return Err(Fail::from("no object"));
    };
    assert!(rt; members.len() == 2 && members[0].0 == "a" && members[1].0 == "b");
    assert!(rt; matches!(&members[0].1, Lent::String("xA")));
    assert!(rt; whole(&members[1].1) == Some(2));
    Ok(())
}
