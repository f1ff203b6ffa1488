//! Which types are above which.

use cpt_pddl::Ancestry;
use std::test::Fail;

#[test]
fn tells_what_is_above_in_a_chain(rt: HostRuntime) -> Result<(), Fail> {
    let chain = Ancestry::new(vec![in rt.alloc(); 0, 2, 3, 4, 0, 4]?)?;
    assert!(rt; chain.is_rooted());
    assert!(rt; chain.is_below(1, 4));
    assert!(rt; chain.is_below(1, 0));
    assert!(rt; chain.is_below(3, 3));
    assert!(rt; !chain.is_below(4, 1));
    assert!(rt; !chain.is_below(1, 5));
    Ok(())
}

#[test]
fn walks_where_types_go_in_a_circle(rt: HostRuntime) -> Result<(), Fail> {
    let circle = Ancestry::new(vec![in rt.alloc(); 0, 2, 3, 1]?)?;
    assert!(rt; !circle.is_rooted());
    assert!(rt; circle.is_below(1, 3));
    assert!(rt; !circle.is_below(1, 0));
    Ok(())
}

#[test]
fn object_has_to_be_its_own_parent(rt: HostRuntime) -> Result<(), Fail> {
    let other = Ancestry::new(vec![in rt.alloc(); 1, 0]?)?;
    assert!(rt; !other.is_rooted());
    assert_eq!(rt; other.into_vec().as_slice(), [1, 0].as_slice());
    Ok(())
}
