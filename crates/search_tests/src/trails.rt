//! A trail of two levels, read and taken back.

ghost use Rattle.std.specs.Prelude.{◌≡◌, IfOk};

use crate::lists::literal;
use std::alloc::Global;
use std::test::Fail;
use trail::Trail;

// Decides a literal of one of three variables, which is unassigned.
fn decide(trail: &mut Trail, value: i32) -> Result<(), Fail>
    requires { trail.old.vars ≡ 3 }
    ensures { trail.new.vars ≡ 3 }
{
    let lit = literal(value, 3)?;
    if trail.value(lit).is_some() {
        return Err(Fail::from("the variable is assigned"));
    }
    trail.decide(lit);
    Ok(())
}

// Implies a literal of one of three variables, which is unassigned, by the clause of that number.
fn imply(trail: &mut Trail, value: i32, reason: u32) -> Result<(), Fail>
    requires { trail.old.vars ≡ 3 }
    ensures { trail.new.vars ≡ 3 }
{
    let lit = literal(value, 3)?;
    if reason == 0 || trail.value(lit).is_some() {
        return Err(Fail::from("no reason, or the variable is assigned"));
    }
    trail.imply(lit, reason);
    Ok(())
}

// A trail of two levels: 1 is implied, -2 is decided, and 3 is implied then.
fn two_levels(alloc: Global) -> Result<Trail, Fail>
    ensures { IfOk result (λ trail. trail.vars ≡ 3) }
{
    let mut trail = Trail::new(alloc, 3)?;
    imply(&mut trail, 1, 7)?;
    decide(&mut trail, -2)?;
    imply(&mut trail, 3, 9)?;
    Ok(trail)
}

// Whether this many literals are assigned at this level.
fn stands_at(trail: &Trail, level: u32, assigned: usize) -> bool {
    trail.level() == level && trail.len() == assigned
}

// Whether a literal of one of three variables has this truth value, and its negation the other.
fn has_truth(trail: &Trail, value: i32, truth: Option<bool>) -> Result<bool, Fail>
    requires { trail.now.vars ≡ 3 }
{
    let lit = literal(value, 3)?;
    Ok(trail.value(lit) == truth && trail.value(lit.negated()) == truth.map(|is_true| !is_true))
}

/// A literal, and its truth value on the trail of two levels and once the upper level is taken back.
const TRUTHS: [(i32, Option<bool>, Option<bool>); 3] = [
    (1, Some(true), Some(true)),
    (-2, Some(true), None),
    (3, Some(true), None),
];

/// The entries of the trail of two levels: their literals, levels and reasons.
const ENTRIES: [(i32, u32, u32); 3] = [(1, 0, 7), (-2, 1, 0), (3, 1, 9)];

// Whether the entry at a place has this literal, level and reason.
fn is_entry(trail: &Trail, index: usize, entry: &(i32, u32, u32)) -> bool {
    if index >= trail.len() {
        return false;
    }
    let found = trail.entry(index);
    found.lit.value() == entry.0 && found.level == entry.1 && found.reason == entry.2
}

#[test]
fn two_levels_are_read_back(rt: HostRuntime) -> Result<(), Fail> {
    let trail = two_levels(rt.alloc())?;
    assert!(rt; stands_at(&trail, 1, 3));
    for (index, entry) in ENTRIES.iter().enumerate() {
        assert!(rt; is_entry(&trail, index, entry), "entry {index}");
    }
    for (value, truth, _) in &TRUTHS {
        assert!(rt; has_truth(&trail, *value, *truth)?, "literal {value}");
    }
    Ok(())
}

#[test]
fn the_upper_level_is_taken_back(rt: HostRuntime) -> Result<(), Fail> {
    let mut trail = two_levels(rt.alloc())?;
    trail.back_to(0);
    assert!(rt; stands_at(&trail, 0, 1));
    for (value, _, truth) in &TRUTHS {
        assert!(rt; has_truth(&trail, *value, *truth)?, "literal {value}");
    }
    Ok(())
}
