use crate::{Bell, Count, count_of_family, count_of_four, ring_twice, split_two};
use cd_turn::{MOST, Turn};
use std::test::Fail;

#[derive(Drop)]
struct Silent;

impl Bell for Silent {
    fn ring(&mut self) {}
}

#[test]
fn four_passes_take_a_hundred_turns_each(rt: HostRuntime) -> Result<(), Fail> {
    assert!(rt; count_of_four(&rt, rt, rt.alloc(), 100) == Some(400));
    Ok(())
}

#[test]
fn eight_passes_take_ten_thousand_turns_each(rt: HostRuntime) -> Result<(), Fail> {
    assert!(rt; count_of_family(&rt, rt, rt.alloc(), 8, 10_000) == Some(80_000));
    Ok(())
}

#[test]
fn two_threads_share_a_boxed_bell(rt: HostRuntime) -> Result<(), Fail> {
    let bell: Box<dyn Bell + Send> = Box::new(rt.alloc(), Silent)?;
    let tower = ring_twice(&rt, rt.alloc(), bell);
    assert!(rt; tower.map(|t| t.rung) == Some(2));
    Ok(())
}

#[test]
fn actors_are_numbered_as_they_are_split_off(rt: HostRuntime) -> Result<(), Fail> {
    let Ok((turn, mut pass)) = Turn::new(rt.alloc(), Count { count: 0 }) else {
        return Err(Fail::new("no memory"));
    };
    let Some((mut first, second)) = split_two(&rt, &turn, &mut pass) else {
        return Err(Fail::new("no actor"));
    };
    let Ok(third) = turn.split(&rt, &mut first) else {
        return Err(Fail::new("no actor"));
    };
    assert!(rt; [pass.actor(), first.actor(), second.actor(), third.actor()] == [0, 1, 2, 3]);
    assert!(rt;
        [
            pass.parent(),
            first.parent(),
            second.parent(),
            third.parent()
        ] == [0, 0, 0, 1]
    );
    assert!(rt; [pass.out(), first.out(), second.out(), third.out()] == [2, 1, 0, 0]);
    turn.join(&mut first, third);
    turn.join(&mut pass, first);
    assert!(rt; pass.out() == 1);
    turn.join(&mut pass, second);
    assert!(rt; pass.out() == 0 && pass.over().is_none());
    assert!(rt; turn.close(pass).count == 0);
    Ok(())
}

#[test]
fn tickets_and_actors_end_at_two_to_the_62(rt: HostRuntime) -> Result<(), Fail> {
    assert!(rt; MOST == 4_611_686_018_427_387_904);
    Ok(())
}
