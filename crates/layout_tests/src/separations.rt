//! What no clause says: that with ample memory the list is made.

use crate::made_scenes::add_two_apart;
use scene_model::Scene;
use sep_gen::{compile, count};
use std::alloc::Global;
use std::test::Fail;
use units::{Axis, Sep};

/// The list of X has just the separation between a and b.
fn is_listed(scene: &Scene, alloc: Global) -> Result<(), Fail> {
    if count(scene, Axis::X) != 1 {
        return Err("one separation".into());
    }
    let list = compile(alloc, scene, Axis::X)?;
    let wanted = Sep {
        left: 0,
        right: 1,
        gap: 20,
        exact: false,
    };
    if list.as_slice() != [wanted].as_slice() {
        return Err("b behind a".into());
    }
    Ok(())
}

#[test]
fn separations_of_two_apart(rt: HostRuntime) -> Result<(), Fail> {
    let mut scene = Scene::empty(rt.alloc());
    add_two_apart(&mut scene, false)?;
    is_listed(&scene, rt.alloc())
}
