// A list that another one is appended to.
use rt_values::IntList;
use std::test::Fail;

#[test]
fn a_list_is_appended_to_another(rt: HostRuntime) -> Result<(), Fail> {
    let mut list = IntList::of(rt.alloc(), &[1, 2])?;
    list.concat(&IntList::of(rt.alloc(), &[4, 5])?)?;
    assert!(rt; list.items() == [1i64, 2, 4, 5].as_slice());
    Ok(())
}
