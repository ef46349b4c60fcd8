//! Families of which each answer was worked by hand from the rule.
use birth_notice::family::Family;
use std::alloc::Global;
use std::test::Fail;
use t32_base::process::Pid;
use t32_base::streams::NoMemory;
use test_asserts::same;

fn add_birth(family: &mut Family, parent: Pid, child: Pid) -> Result<(), NoMemory> {
    if child.0 != parent.0 && !family.knows(child) {
        family.born(parent, child)?;
    }
    Ok(())
}

fn add_births(family: &mut Family, births: &[(u32, u32)]) -> Result<(), NoMemory> {
    for birth in births {
        add_birth(family, Pid(birth.0), Pid(birth.1))?;
    }
    Ok(())
}

// The family of these births, each a parent and its child.
fn family_of(alloc: Global, births: &[(u32, u32)]) -> Result<Family, NoMemory> {
    let mut family = Family::none(alloc);
    add_births(&mut family, births)?;
    Ok(family)
}

// The first child of a process that never synchronised.
fn next_of(family: &Family, parent: u32) -> Option<Pid> {
    family.first_unsynced(Pid(parent))
}

// The births, and the children that go, in the order in which they come first.
static BIRTHS: [(u32, u32); 7] = [
    (16, 48),
    (16, 32),
    (32, 80),
    (80, 64),
    (48, 96),
    (17, 18),
    (16, 33),
];

static ORDER: [u32; 6] = [64, 80, 32, 33, 96, 48];

fn go_in_order(family: &mut Family) -> Result<(), Fail> {
    for pid in ORDER.iter() {
        let first = Pid(*pid);
        same("the first", &next_of(family, 16), &Some(first))?;
        family.gone(first);
    }
    Ok(())
}

fn assert_order(family: &mut Family) -> Result<(), Fail> {
    go_in_order(family)?;
    same(
        "the first of 16 and of 17",
        &[next_of(family, 16), next_of(family, 17)],
        &[None, Some(Pid(18))],
    )
}

#[test]
fn children_of_children_are_first_and_of_children_the_lowest(rt: HostRuntime) -> Result<(), Fail> {
    let mut family = family_of(rt.alloc(), &BIRTHS)?;
    assert_order(&mut family)
}

fn assert_rest(family: &mut Family) -> Result<(), Fail> {
    family.gone(Pid(32));
    same(
        "the first of 16 and of 32",
        &[next_of(family, 16), next_of(family, 32)],
        &[None, Some(Pid(48))],
    )?;
    same("whether 32 is known", &family.knows(Pid(32)), &true)
}

#[test]
fn a_child_that_ends_leaves_its_own_children(rt: HostRuntime) -> Result<(), Fail> {
    let mut family = family_of(rt.alloc(), &[(16, 32), (32, 48)])?;
    assert_rest(&mut family)
}
