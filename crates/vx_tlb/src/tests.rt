use crate::{Look, Tlb};
use std::test::Fail;
use vx_base::{Perm, Want};
use vx_tables::Walked;

#[test]
fn a_place_keeps_its_last_page(rt: HostRuntime) -> Result<(), Fail> {
    let read = Perm { bits: 4 };
    let both = Perm { bits: 6 };
    let mut tlb = Tlb::new(rt.alloc(), 4)?;
    assert_eq!(rt; tlb.look(5, Want::Load), Look::Miss);
    tlb.fill(5, 70, both, false);
    assert_eq!(rt; tlb.look(5, Want::Load), Look::Hit(70));
    assert_eq!(rt; tlb.look(5, Want::Store), Look::Miss);
    assert_eq!(rt; tlb.look(5, Want::Fetch), Look::Denied);
    assert_eq!(rt; tlb.look(9, Want::Load), Look::Miss);
    tlb.fill(9, 71, read, false);
    assert_eq!(rt; tlb.look(5, Want::Load), Look::Miss);
    assert_eq!(rt; tlb.look(9, Want::Load), Look::Hit(71));
    assert_eq!(rt; tlb.look(9, Want::Store), Look::Denied);
    tlb.learn(6, Walked::Leaf(72, both, true));
    tlb.learn(6, Walked::Away);
    tlb.learn(6, Walked::Denied);
    assert_eq!(rt; tlb.look(6, Want::Store), Look::Hit(72));
    tlb.empty();
    assert_eq!(rt; tlb.look(6, Want::Store), Look::Miss);
    assert_eq!(rt; tlb.look(9, Want::Load), Look::Miss);
    Ok(())
}
